// Changes of a store.

use mj_store::Nodes;
use mj_subs::Name;
use mj_text::Text;

/// A change of a store.
#[derive(Drop)]
pub enum Change {
    /// a name gets a text
    Set(Name, Text),
    /// a name goes, with all below it
    Kill(Name),
    /// names below a name get texts
    Put(Name, Nodes),
}
