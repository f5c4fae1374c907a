// USE.

ghost use Rattle.std.specs.Prelude.{◌≡◌, ◌+◌, ◌<◌, ◌≤◌, ◌^◌, length};
ghost use Rattle.mj_pcode.specs.declared.instr.Instr.TheVariants as instrs;
ghost use Rattle.mj_machine.specs.Kept.{ObeysAlone};

use mj_machine::quiet::fail;
use mj_machine::{Control, Machine, TurnOutcome, stack};
use mj_text::Fault;

/// Makes the device that the topmost operand names the current one; faults where it isn't open.
#[inline(never)]
pub fn use_device(pc: usize, machine: &mut Machine) -> TurnOutcome
    requires next { pc + 1 < 2 ^ 64 }
    requires enough { 1 ≤ length machine.old.stack.items }
    ensures { ObeysAlone instrs.UseDevice pc machine.old result machine.new }
{
    if !machine.devices.has(stack::top(&machine.stack)) {
        return fail(Fault::NoDevice, machine);
    }
    let name = stack::pop(&mut machine.stack);
    machine.devices.select(name);
    machine.control = Control::At(pc + 1);
    TurnOutcome::Next
}
