// Loading.

ghost use Rattle.std.specs.Prelude.{◌≡◌, ◌<◌, ◌↔◌, ℕ, [], List, Option, Some, Err, ⊤, All, IfOk, IfErr, MatchOption, length, slice_index_or};
ghost use Rattle.std.specs.List.{list_any};
ghost use Rattle.std.specs.Str.{bytes_eq};
ghost use Rattle.mj_ast.specs.declared.routine.Routine.{Routine};
ghost use Rattle.mj_ask.specs.declared.bounds.TheConstants.{EVENTS_LIMIT};
ghost use Rattle.mj_pcode.specs.Checked.{IsChecked};
ghost use Rattle.mj_compact.specs.Compact.{AreCompact};
ghost use Rattle.mj_load.specs.Image.{IsWithinLimits, AreUnits, repeated, names_of};

use crate::image::{Image, make_image};
use mj_ask::{Bounds, EVENTS_LIMIT};
use mj_asm::assemble;
use mj_ast::Routine;
use mj_compact::{Compact, Roster};
use mj_pcode::Unit;
use mj_text::{Limit, Text};
use std::alloc::{AllocError, Global};

/// Why routines are not loaded.
#[derive(Drop)]
pub enum LoadError {
    /// an earlier routine has this one's name
    Twice { name: Text },
    /// an allocation was refused: the routines come back
    Memory { routines: Vec<Routine> },
}

/// An image of these routines, in which texts have this limit and runs [`EVENTS_LIMIT`] events at most. Each routine is within the limits if
/// `mj_rou::read` gave it, whose clauses `name` and `lines` say so. No call tests it again.
pub fn load(alloc: Global, mut routines: Vec<Routine>, limit: Limit) -> Result<Image, LoadError>
    requires { All IsWithinLimits routines.items }
    ensures ok { IfOk result (λ image. image.routines ≡ routines.items) }
    ensures bounds { IfOk result (λ image. image.bounds ≡ record { limit = limit; events = EVENTS_LIMIT }) }
    ensures twice { (name : List ℕ) → (result ≡ Err (LoadError.Twice name)) ↔ (repeated [] (names_of routines.items) ≡ Some name) }
    ensures memory { IfErr result (λ e. elim e [ LoadError.Twice name ↦ ⊤ | LoadError.Memory back ↦ back.items ≡ routines.items ]) }
{
    if let Some(k) = second(&routines) {
        let routine = routines.swap_remove(k);
        return Err(LoadError::Twice { name: routine.name });
    }
    let Ok(units) = units_of(alloc, &routines) else {
        return Err(LoadError::Memory { routines });
    };
    let mut roster = Roster::new(alloc);
    match compacts_of(alloc, &units, &mut roster) {
        Ok(compacts) => {
            let words = roster.into_words();
            Ok(make_image(routines, units, compacts, words, bounds_of(limit)))
        }
        Err(_) => Err(LoadError::Memory { routines }),
    }
}

// What jobs are bound to, where only the limit of their texts is said.
fn bounds_of(limit: Limit) -> Bounds
    ensures which { result ≡ record { limit = limit; events = EVENTS_LIMIT } }
    ensures some { 0 < result.events }
{
    Bounds {
        limit,
        events: EVENTS_LIMIT,
    }
}

// The place of the first routine whose name an earlier one has.
fn second(routines: &[Routine]) -> Option<usize>
    ensures { MatchOption result (repeated [] (names_of routines.now) ≡ None) (λ k. (k < length routines.now)
        × ((d : Routine) → repeated [] (names_of routines.now) ≡ Some (slice_index_or routines.now k d).name)) }
{
    for (k, routine) in routines.iter().enumerate() {
        if has_name(&routines[..k], &routine.name) {
            return Some(k);
        }
    }
    None
}

fn has_name(routines: &[Routine], name: &Text) -> bool
    ensures { result ≡ list_any (λ r. bytes_eq r.name name.now) routines.now }
{
    routines.iter().any(|routine| routine.name == *name)
}

// The code of each of these routines.
fn units_of(alloc: Global, routines: &[Routine]) -> Result<Vec<Unit>, AllocError>
    requires { All IsWithinLimits routines.now }
    ensures code { IfOk result (λ units. AreUnits routines.now units.items) }
    ensures checked { IfOk result (λ units. All IsChecked units.items) }
{
    let mut units = Vec::with_capacity(alloc, routines.len())?;
    for routine in routines {
        units.push(assemble(alloc, routine)?)?;
    }
    Ok(units)
}

// What is fused of each of these units, whose words are among those of a roster from now on.
fn compacts_of(
    alloc: Global,
    units: &[Unit],
    roster: &mut Roster,
) -> Result<Vec<Compact>, AllocError>
    ensures { IfOk result (λ compacts. AreCompact units.now compacts.items) }
{
    let mut compacts = Vec::with_capacity(alloc, units.len())?;
    for unit in units {
        compacts.push(Compact::of(alloc, &unit.instrs, roster)?)?;
    }
    Ok(compacts)
}
