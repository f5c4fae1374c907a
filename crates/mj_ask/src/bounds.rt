// What the jobs of a program are bound to.

use mj_text::Limit;

/// How many events a run has at most, where nothing else is said.
pub const EVENTS_LIMIT: u32 = 1_000_000;

/// How long the texts of a program may be, and how many events a run of it may have. No job makes more asks than that before its ending.
#[derive(Clone, Copy, PartialEq, Eq, Debug)]
pub struct Bounds {
    pub limit: Limit,
    pub events: u32,
}
