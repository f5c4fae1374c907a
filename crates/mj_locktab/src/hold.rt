// A hold, as contracts see it.

use mj_subs::Name;

/// A job, with a name that it holds.
#[derive(Debug, Drop)]
pub struct Hold {
    pub job: u32,
    pub name: Name,
}
