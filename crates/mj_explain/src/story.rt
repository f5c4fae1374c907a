// What there is to tell of a trace.

ghost use Rattle.std.specs.Prelude.{IfOk};
ghost use Rattle.mj_explain.specs.Events.{AreBegins};
ghost use Rattle.mj_explain.specs.Stories.{IsStory};

use crate::begins::begins_of;
use crate::clashes::{ToldClash, clashes};
use crate::cycles::{Asked, Hold, Wait};
use crate::finding::{first_of, losses};
use crate::losses::Loss;
use crate::search::deadlocks;
use mj_ask::Noted;
use mj_globs::Globals;
use std::alloc::{AllocError, Global};
use std::marker::Model;

/// The most clashes, and the most lost updates, that are told; of the others it is told how many there are.
pub const MOST: usize = 20;

/// What is told of a trace.
#[derive(Drop)]
pub struct Story {
    /// the first clashes
    pub clashes: Vec<ToldClash>,
    /// how many there are
    pub all_clashes: usize,
    /// the deadlocks at the end
    pub deadlocks: Vec<Vec<Wait>>,
    /// the first updates that were lost
    pub losses: Vec<Loss>,
    /// how many were found
    pub all_losses: usize,
}

impl Model for Story {
    ghost use Rattle.std.specs.Prelude.{map};
    ghost use Rattle.mj_explain.specs.Stories.{Story as Found};

    ghost Value = { Found };

    ghost view = { λ s. record {
      clashes = s.clashes.items;
      all_clashes = s.all_clashes;
      deadlocks = map (λ d. d.items) s.deadlocks.items;
      losses = s.losses.items;
      all_losses = s.all_losses;
    } };
}

/// What there is to tell of the events of a run over these globals, where the jobs that go on ask this, and names are held so.
pub fn story_of(
    alloc: Global,
    globals: &Globals,
    events: &[Noted],
    asked: &[Asked],
    holds: &[Hold],
) -> Result<Story, AllocError>
    ensures { IfOk result (λ story. IsStory globals.now.content events.now asked.now holds.now MOST story) }
{
    let begins = begins_of(alloc, events)?;
    story_with(alloc, globals, events, &begins, asked, holds)
}

// It, where it is known where transactions began.
fn story_with(
    alloc: Global,
    globals: &Globals,
    events: &[Noted],
    begins: &[Option<usize>],
    asked: &[Asked],
    holds: &[Hold],
) -> Result<Story, AllocError>
    requires begins { AreBegins events.now begins.now }
    ensures { IfOk result (λ story. IsStory globals.now.content events.now asked.now holds.now MOST story) }
{
    let (clashes, all_clashes) = clashes(alloc, globals, events, begins, MOST)?;
    let (losses, all_losses) = first_of(losses(alloc, events, begins)?, MOST);
    let deadlocks = deadlocks(alloc, asked, holds)?;
    Ok(Story {
        clashes,
        all_clashes,
        deadlocks,
        losses,
        all_losses,
    })
}
