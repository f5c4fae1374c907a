// Where the transactions of jobs began.

ghost use Rattle.std.specs.Prelude.{◌≡◌, ◌<◌, ◌≤◌, ◌++◌, ◌∷◌, [], ℕ, None, length, slice_index_or, slice_set, IfOk, OnOk};
ghost use Rattle.mj_explain.specs.Events.{AreBegins, began_after};

use crate::events::began_after;
use mj_ask::{Ask, Noted};
use std::alloc::{AllocError, Global};

/// For each event the place where the transaction began that its job has open before it, if it has one. It has a place for each job up to the one with the
/// greatest number.
pub fn begins_of(alloc: Global, events: &[Noted]) -> Result<Vec<Option<usize>>, AllocError>
    ensures { IfOk result (λ begins. AreBegins events.now begins.items) }
{
    let mut table = Vec::new(alloc);
    let mut begins = Vec::new(alloc);
    for (place, event) in events.iter().enumerate() {
        note(&mut table, &mut begins, place, event.job, &event.ask)?;
    }
    Ok(begins)
}

// Notes where the transaction of a job began before an event of it, and where behind it.
fn note(
    table: &mut Vec<Option<usize>>,
    begins: &mut Vec<Option<usize>>,
    place: usize,
    job: u32,
    ask: &Ask,
) -> Result<(), AllocError>
    ensures noted { OnOk result (begins.new.items ≡ begins.old.items ++ slice_index_or table.old.items job None ∷ []) }
    ensures own { OnOk result (slice_index_or table.new.items job None ≡ began_after place (slice_index_or table.old.items job None) ask.now) }
    ensures others { OnOk result ((j : ℕ) → (j ≡ job → ⊥) → slice_index_or table.new.items j None ≡ slice_index_or table.old.items j None) }
{
    let row = job as usize;
    widen(table, row)?;
    let began = table[row];
    begins.push(began)?;
    table[row] = began_after(place, began, ask);
    Ok(())
}

// Makes a place for a job.
fn widen(table: &mut Vec<Option<usize>>, job: usize) -> Result<(), AllocError>
    ensures room { OnOk result (job < length table.new.items) }
    ensures same { (j : ℕ) → slice_index_or table.new.items j None ≡ slice_index_or table.old.items j None }
{
    while table.len() <= job {
        table.push(None)?;
    }
    Ok(())
}
