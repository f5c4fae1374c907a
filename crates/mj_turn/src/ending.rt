// The turns before a job's first instruction and after its last.

ghost use Rattle.std.specs.Prelude.{◌+◌, ◌<◌, ◌^◌, IfOk, OnErr};
ghost use Rattle.mj_machine.specs.Kept.{Does, Stays, replied};
ghost use Rattle.mj_turn.specs.Faults.{telling, closing, closing_one, halting};

use crate::fault::fault_text;
use mj_ask::{Ask, DeviceAsk, Reply, SharedAsk};
use mj_machine::asking::wait;
use mj_machine::{Control, Machine, TurnOutcome};
use mj_open_devices::principal;
use mj_text::{Fault, Text};
use std::alloc::{AllocError, Global};

/// Writes the line that tells of a fault, but not to a principal device that failed. Whether it is written changes nothing.
#[inline(never)]
pub fn tell_fault(
    alloc: Global,
    fault: Fault,
    machine: &mut Machine,
    given: Option<&Reply>,
) -> Result<TurnOutcome, AllocError>
    ensures ok { IfOk result (λ step. Does (λ next. telling fault) machine.old (replied given.entry) step machine.new) }
    ensures err { OnErr result (Stays machine.old machine.new) }
{
    if machine.devices.principal_failed() {
        machine.control = Control::Closing(0, Some(fault));
        return Ok(TurnOutcome::Next);
    }
    match given {
        None => {
            let line = fault_text(alloc, fault, machine)?;
            wait(alloc, Ask::Device(principal(alloc), DeviceAsk::Write(line)))
        }
        Some(_) => {
            machine.control = Control::Closing(0, Some(fault));
            Ok(TurnOutcome::Took)
        }
    }
}

/// Ends the next session of the job, behind so many others, or, where there is none, the job.
#[inline(never)]
pub fn close(
    alloc: Global,
    done: usize,
    fault: Option<Fault>,
    machine: &mut Machine,
    given: Option<&Reply>,
) -> Result<TurnOutcome, AllocError>
    ensures ok { IfOk result (λ step. Does (λ next. closing done fault) machine.old (replied given.entry) step machine.new) }
    ensures err { OnErr result (Stays machine.old machine.new) }
{
    match machine.devices.ending(alloc, done)? {
        Some(device) => end_session(alloc, done, device, fault, machine, given),
        None => finish(alloc, fault, machine, given),
    }
}

// Ends the session of a device, behind so many others.
fn end_session(
    alloc: Global,
    done: usize,
    device: Text,
    fault: Option<Fault>,
    machine: &mut Machine,
    given: Option<&Reply>,
) -> Result<TurnOutcome, AllocError>
    requires { done + 1 < 2 ^ 64 }
    ensures ok { IfOk result (λ step. Does (λ next. closing_one done device fault) machine.old (replied given.entry) step machine.new) }
    ensures err { OnErr result (Stays machine.old machine.new) }
{
    match given {
        None => wait(alloc, Ask::Device(device, DeviceAsk::End)),
        Some(_) => {
            drop(device);
            machine.control = Control::Closing(done + 1, fault);
            Ok(TurnOutcome::Took)
        }
    }
}

// Ends the job.
fn finish(
    alloc: Global,
    fault: Option<Fault>,
    machine: &mut Machine,
    given: Option<&Reply>,
) -> Result<TurnOutcome, AllocError>
    ensures ok { IfOk result (λ step. Does (λ next. halting fault) machine.old (replied given.entry) step machine.new) }
    ensures err { OnErr result (Stays machine.old machine.new) }
{
    match given {
        None => wait(alloc, Ask::Shared(SharedAsk::Halt(fault))),
        Some(_) => {
            machine.control = Control::Over;
            Ok(TurnOutcome::Took)
        }
    }
}
