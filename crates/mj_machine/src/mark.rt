// What a restart of a transaction needs.

use mj_frames::{Call, Loop, Place};
use mj_locals::Snapshot;

/// The outermost TSTART of the open transaction.
#[derive(Drop)]
pub struct TransactionMark {
    // a copy of the locals that a restart restores, if there can be one
    pub snapshot: Option<Snapshot>,
    // whether it is SERIAL
    pub serial: bool,
    // `$TEST` there
    pub test: bool,
    // how many NEWs had saved locals
    pub height: usize,
    // how many frames there were
    pub depth: usize,
    // where the innermost one stood
    pub place: Option<Place>,
}

/// Where a restart goes on: in a unit, at an instruction, in the FORs of the frame there, the innermost last, and where the frames below it go on,
/// the topmost last.
#[derive(Drop)]
pub struct Return {
    pub unit: usize,
    pub pc: usize,
    pub loops: Vec<Loop>,
    pub calls: Vec<Call>,
}
