// What a try of names is told.

use mj_subs::SharedName;

/// How a try of names ends.
#[derive(Drop)]
pub enum Taken {
    /// Each name is held once more for each of its places in the list.
    Got,
    /// Another job holds a name that overlaps one asked for.
    Busy { holder: u32, name: SharedName },
    /// The job would hold too many names, or a name too often.
    Limit,
}
