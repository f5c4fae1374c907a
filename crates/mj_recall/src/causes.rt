// What is told of a trace that isn't that of a run, behind the line that says so.

ghost use Rattle.std.specs.Prelude.{◌≡◌, ◌≤◌, length};
ghost use Rattle.mj_trace.specs.Lines.{IsTrace};
ghost use Rattle.mj_recall.specs.Printed.{causes_line};

use crate::differing::instead_of;
use mj_command_line::Replay;
use mj_trace::Trace;
use std::io::Write;
use std::rt::Files;

/// Tells, where hints are wanted, what a job does in the place of the first event that isn't made, if that is known, and what the usual causes are. Where this
/// can't be written, nothing more is told.
pub fn tell_difference<'a, R: Files + AllocGlobal, E: Write>(
    rt: &R,
    order: &Replay<'a>,
    trace: &Trace,
    at: usize,
    err: &mut E,
)
    requires written { IsTrace trace.now }
    requires few { length trace.now.events ≤ order.now.events }
{
    if !order.hints {
        return;
    }
    if let Some(words) = instead_of(rt, order, trace, at) {
        let _ = err.write_all(&words);
    }
    let _ = err.write_all(causes());
}

// The usual causes.
fn causes() -> &'static [u8]
    ensures { result.now ≡ causes_line }
{
    b"    usual causes: other `--globals` than those of the run, a routine that was changed since, or other devices\n"
}
