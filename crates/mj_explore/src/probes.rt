// Steps that are tried, as a list is made shorter.

ghost use Rattle.std.specs.Prelude.{◌≡◌, true, IfOk};
ghost use Rattle.mj_sys.specs.Shared.{are_global};
ghost use Rattle.mj_script.specs.Scripts.{opening_in};
ghost use Rattle.mj_explore.specs.Found.{IsFound};

use crate::exploring::RUN_LIMIT;
use crate::goals::{Finding, Goal, shown};
use mj_chance::{Made, Trial, Wishes, step_by_choice};
use mj_globs::Globals;
use mj_script::{Script, begin};
use mj_steps::{Ending, Step};
use mj_sys::Opening;
use std::alloc::{AllocError, Global};
use std::marker::PhantomData;

/// What lists of steps are tried with: where runs begin, what they are to show, and in which way.
#[derive(Drop)]
pub struct Probe<'a, O: Opening> {
    pub alloc: Global,
    pub script: &'a Script,
    pub globals: &'a Globals,
    pub goal: &'a Goal,
    pub finding: Finding,
    pub opening: PhantomData<O>,
    ghost begins: { opening_in script.now globals.now.content ≡ O.opening },
    ghost global: { are_global globals.now.content ≡ true },
}

impl<O: Opening> Trial for Probe<'_, O> {
    ghost use Rattle.mj_explore.specs.Found.{IsFound};

    ghost shows = { λ probe. IsFound probe.script.now probe.goal.now probe.finding O.opening };

    fn play(&self, wishes: &[Step]) -> Result<Option<Vec<Step>>, AllocError> {
        let steps = played::<O>(
            self.alloc,
            self.script,
            self.globals,
            wishes,
            self.goal.is_of_ends(),
        )?;
        let finds = finds::<O>(
            self.alloc,
            self.script,
            self.globals,
            self.goal,
            self.finding,
            &steps,
        )?;
        if finds {
            Ok(Some(steps))
        } else {
            drop(steps);
            Ok(None)
        }
    }
}

// The steps that come of these wishes, without those behind which a job waits.
fn played<O: Opening>(
    alloc: Global,
    script: &Script,
    globals: &Globals,
    wishes: &[Step],
    goes_on: bool,
) -> Result<Vec<Step>, AllocError>
    requires opening { opening_in script.now globals.now.content ≡ O.opening }
    requires global { are_global globals.now.content ≡ true }
{
    let mut jobs = begin::<O>(alloc, script, globals)?;
    let mut chooser = Wishes::new(wishes, goes_on);
    let Made { plain, .. } = step_by_choice(alloc, &mut jobs, &mut chooser, RUN_LIMIT)?;
    Ok(plain)
}

// Makes these steps from the beginning, and says whether all are made and show what is looked for, in this way.
fn finds<O: Opening>(
    alloc: Global,
    script: &Script,
    globals: &Globals,
    goal: &Goal,
    finding: Finding,
    steps: &[Step],
) -> Result<bool, AllocError>
    requires opening { opening_in script.now globals.now.content ≡ O.opening }
    requires global { are_global globals.now.content ≡ true }
    ensures { IfOk result (λ is. is ≡ true → IsFound script.now goal.now finding O.opening steps.now) }
{
    let mut jobs = begin::<O>(alloc, script, globals)?;
    let Ending::Over = jobs.listed(steps) else {
        return Ok(false);
    };
    let shown = shown(alloc, &mut jobs, goal)?;
    Ok(finding.is_that_of(shown))
}
