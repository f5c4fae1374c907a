// What a job may ask, what it may be told, and what it starts with: plain data.
//
// An ask is served by what all jobs share, by a session that the job has of a device, or by the clock: its type says by which. `Ask::fits`
// is the table of asks. A contract sees a list of names as a list, a start as a record, and every other type by its fields. What an ask or
// a reply can hold beyond what can be written, as a name whose word is none, is told by the tests of `formed`.
#![tactic(auto)]

mod ask;
mod bounds;
mod clash;
mod entry;
mod formed;
mod late;
mod names;
mod noted;
mod same;
mod start;
mod within;

pub use ask::{Ask, DeviceAsk, GivenUp, Kind, Reply, SharedAsk, is_same_ask, is_same_reply};
pub use bounds::{Bounds, EVENTS_LIMIT};
pub use clash::{BoxedClash, Clash, Kept};
pub use entry::Entry;
pub use formed::{
    is_access, is_ask, is_clash, is_global_name, is_name, is_reply, is_search_name, is_subtree,
};
pub use late::is_timed_out;
pub use names::Names;
pub use noted::{Noted, Spot};
pub use same::is_same_start;
pub use start::{BoxedStart, Start};
