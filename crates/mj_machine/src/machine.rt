// A job's machine: where it stands, and how a turn of it goes.

ghost use Rattle.std.specs.Prelude.{◌≤◌, ◌<◌, ◌^◌};

use crate::control::Control;
use crate::mark::{Return, TransactionMark};
use mj_ask::{Ask, Bounds};
use mj_frames::{Call, Frames, Loop};
use mj_locals::Locals;
use mj_open_devices::Devices;
use mj_store::Nodes;
use mj_text::Text;

/// Where a job stands.
#[derive(Drop)]
pub struct Machine {
    // how long texts may be, and how many asks the job may make before its ending; they stay
    pub bounds: Bounds,
    // `$JOB`
    pub job: u32,
    pub control: Control,
    // the topmost last
    pub stack: Vec<Text>,
    pub locals: Locals,
    // `$TEST`
    pub test: bool,
    pub frames: Frames,
    // the place of the unit that it is in
    pub unit: usize,
    // the FORs of the innermost frame, the innermost last
    pub loops: Vec<Loop>,
    // where the frames below go on, the topmost last
    pub calls: Vec<Call>,
    pub devices: Devices,
    // `$TLEVEL`
    pub level: u8,
    // `$TRESTART`
    pub restarts: u64,
    // the outermost TSTART, if a transaction is open
    pub mark: Option<TransactionMark>,
    // where a restart goes on
    pub restart: Option<Return>,
    // asks that were replied to
    pub replied: u64,
    // what a MERGE has read and not put yet
    pub held: Nodes,
    ghost bounded: { (devices.writes ≤ replied) × (restarts ≤ replied) × (replied ≤ bounds.events) × (bounds.events < 2 ^ 32) },
}

/// How a turn goes. It is small, so that a turn that asks nothing moves little.
#[derive(Drop)]
pub enum TurnOutcome {
    /// it is over
    Next,
    /// it is over, and took the reply that was given
    Took,
    /// it needs the reply to an ask
    Asks(Box<Ask>),
    /// the job is over
    Ends,
}
