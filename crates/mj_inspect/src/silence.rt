// Lines that no ask comes from.

ghost use Rattle.std.specs.Prelude.{◌≡◌, false};
ghost use Rattle.mj_inspect.specs.Asks.{asks, are_asking, is_asking, is_global};

use mj_ast::{NameFunction, Scope};
use mj_load::Image;
use mj_pcode::{Instr, Reference};
use mj_text::Text;

/// Whether an ask may come from a line, other than those by which a fault is told. None comes from a line that isn't there.
pub fn may_ask(image: &Image, routine: &Text, line: u32) -> bool
    ensures { result ≡ is_asking image.now.units routine.now line }
{
    for unit in image.units() {
        if unit.name == *routine {
            return line_asks(&unit.instrs, line);
        }
    }
    false
}

// Whether one of the instructions of a line may ask. Behind the last line a job may end, and asks so from there.
fn line_asks(instrs: &[Instr], line: u32) -> bool
    ensures { result ≡ are_asking line false instrs.now }
{
    let mut here = false;
    for instr in instrs {
        match instr {
            Instr::Line(start) => here = start.line == line,
            _ => {
                if here && asks(instr) {
                    return true;
                }
            }
        }
    }
    here
}

// Whether an instruction may ask: about a global, to write, to end the job, to begin a transaction once more, or of the world outside.
fn asks(instr: &Instr) -> bool
    ensures { result ≡ asks instr.now }
{
    match instr {
        Instr::Load(reference)
        | Instr::Store(reference, _)
        | Instr::SetPiece(reference, _, _)
        | Instr::Kill(reference)
        | Instr::MergePut(reference) => is_global(reference),
        Instr::MergeTake(_, reference) => is_global(reference),
        Instr::CallNameFunction(function, reference, _) => {
            *function != NameFunction::Name && is_global(reference)
        }
        Instr::Write | Instr::WriteFormat(_) | Instr::Halt | Instr::Quit | Instr::BeginRestart =>
            true,
        // a device that is open already only becomes the current one
        Instr::UseDevice => false,
        _ => instr.is_outside(),
    }
}

// Whether a variable is a global.
fn is_global(reference: &Reference) -> bool
    ensures { result ≡ is_global reference.now }
{
    reference.scope == Scope::Global
}
