// A job's locals, with what NEW saved of them.
//
// A contract sees the locals that have a value as the list of their names in their order, each with its text, and beside it what each NEW
// saved, the newest first. NEW moves the trees of the words that it names away and undoing it moves them back, so neither copies what
// stands in them. Undoing takes no memory. A snapshot is a copy of some trees, to which a restart goes back.
#![tactic(auto)]

mod access;
mod index;
mod locals;
mod news;
mod snapshot;
mod table;
mod trail;

pub use access::perform;
pub use locals::Locals;
pub use snapshot::Snapshot;
