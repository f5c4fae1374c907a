// What an entry leads to.

ghost use Rattle.std.specs.Prelude.{◌≡◌};
ghost use Rattle.std.specs.List.{list_any};
ghost use Rattle.std.specs.Str.{bytes_eq};
ghost use Rattle.mj_warnings.specs.Doubts.{doubt_of, missing, call_doubt, jump_doubt, has_unit, seen};

use mj_pcode::{Instr, Target, Unit, find_line, find_target};
use mj_text::Text;

/// Why an instruction that leads to an entry fails there.
#[derive(Clone, Copy, PartialEq, Eq, Debug)]
pub enum Doubt {
    /// none of the routines has this name
    NoRoutine,
    /// the routine has no such line
    NoLine,
    /// the line stands in a block
    Deeper,
    /// the line has fewer formals than there are values
    Values,
}

/// Why this instruction of a unit fails at the entry that it leads to, whenever it comes there; none where it may not, or leads to none.
pub fn doubt_at(units: &[Unit], unit: &Unit, instr: &Instr) -> Option<Doubt>
    ensures { result ≡ doubt_of units.now unit.now instr.now }
{
    match instr {
        Instr::Do(entry, shape) => call_doubt(
            units,
            &entry.routine,
            find_line(units, entry),
            shape.as_slice().len(),
        ),
        Instr::StartJob(entry, shape, _) => call_doubt(
            units,
            &entry.routine,
            find_line(units, entry),
            shape.as_slice().len(),
        ),
        Instr::Invoke(target, shape) => {
            let found = find_target(units, unit, target);
            let count = shape.as_slice().len();
            match &target.routine {
                None => call_doubt(units, &unit.name, found, count),
                Some(routine) => call_doubt(units, routine, found, count),
            }
        }
        Instr::Goto(entry) => jump_doubt(units, &entry.routine, find_line(units, entry)),
        _ => None,
    }
}

/// Why a call fails that gives so many values to the line that was found.
pub fn call_doubt(
    units: &[Unit],
    routine: &Text,
    found: Option<Target<'_>>,
    count: usize,
) -> Option<Doubt>
    ensures { result ≡ call_doubt units.now routine.now (seen found.entry) count }
{
    match found {
        None => Some(missing(units, routine)),
        Some(target) => {
            if target.head.level != 1 {
                Some(Doubt::Deeper)
            } else if target.head.formals.as_slice().len() < count {
                Some(Doubt::Values)
            } else {
                None
            }
        }
    }
}

// Why a GOTO fails to the line that was found.
fn jump_doubt(units: &[Unit], routine: &Text, found: Option<Target<'_>>) -> Option<Doubt>
    ensures { result ≡ jump_doubt units.now routine.now (seen found.entry) }
{
    match found {
        None => Some(missing(units, routine)),
        Some(_) => None,
    }
}

// What is missing where no line was found.
fn missing(units: &[Unit], routine: &Text) -> Doubt
    ensures { result ≡ missing units.now routine.now }
{
    if has_unit(units, routine) {
        Doubt::NoLine
    } else {
        Doubt::NoRoutine
    }
}

// Whether one of these units has this name.
fn has_unit(units: &[Unit], name: &Text) -> bool
    ensures { result ≡ has_unit units.now name.now }
{
    units.iter().any(|unit| unit.name == *name)
}
