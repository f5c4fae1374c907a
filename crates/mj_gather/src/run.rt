// A run that was gathered.

ghost use Rattle.std.specs.Prelude.{◌≡◌, length, slice_get};
ghost use Rattle.mj_core.specs.Runs.{places_lent};
ghost use Rattle.mj_sys.specs.History.{log_of};
ghost use Rattle.mj_core.specs.Kept.{shown_event};
ghost use Rattle.mj_core.specs.Woven.{woven};
ghost use Rattle.mj_gather.specs.Lent.{lent, IsWhole};

use mj_ask::{Ask, Reply};
use mj_core::Happened;
use mj_jobvm::Places;
use std::marker::Model;

/// A history of all jobs: which entry of which job's log came when. It borrows the logs, so that no event is copied, and the places of their asks. Of each job
/// it has its whole log, in order.
#[derive(Drop)]
pub struct Run<'a> {
    // what each job asked and was told, the first job first
    logs: Vec<&'a [(Ask, Reply)]>,
    // where the asks of each came from, the first job first, if it was run
    places: Vec<Option<&'a Places>>,
    order: Vec<Happened>,
}

impl<'a> Model for Run<'a> {
    ghost use Rattle.mj_core.specs.Woven.{woven};
    ghost use Rattle.mj_core.specs.Runs.{places_lent};
    ghost use Rattle.mj_gather.specs.Lent.{lent, Ordered, IsWhole};

    ghost Value = { Ordered };

    ghost view = { λ r. record { history = woven (lent r.logs.items) r.order.items; places = places_lent r.places.items } };

    ghost invariant = { λ r. IsWhole (lent r.logs.items) r.order.items };
}

impl<'a> Run<'a> {
    // What is woven of these logs.
    pub(crate) fn new(
        logs: Vec<&'a [(Ask, Reply)]>,
        places: Vec<Option<&'a Places>>,
        order: Vec<Happened>,
    ) -> Run<'a>
        requires { IsWhole (lent logs.items) order.items }
        ensures { result ≡ record { history = woven (lent logs.entry.items) order.items; places = places_lent places.entry.items } }
    {
        Run {
            logs,
            places,
            order,
        }
    }

    /// How many events there are.
    pub fn len(&self) -> usize
        ensures { result ≡ length self.now.history }
    {
        self.order.len()
    }

    /// The event at a place, from 0: its job, what that asked, and what it was told.
    pub fn event(&self, at: usize) -> Option<(u32, &Ask, &Reply)>
        ensures { shown_event result ≡ slice_get self.now.history at }
    {
        let happened = self.order.get(at)?;
        let log = self.logs.get(happened.job as usize - 1)?;
        let (ask, reply) = log.get(happened.at)?;
        Some((happened.job, ask, reply))
    }

    /// What a job asked and was told: nothing, where it wasn't run.
    pub fn log(&self, job: u32) -> &[(Ask, Reply)]
        ensures { result.now ≡ log_of job self.now.history }
    {
        match (job as usize).checked_sub(1) {
            None => &[],
            Some(at) => match self.logs.get(at) {
                None => &[],
                Some(log) => *log,
            },
        }
    }

    /// Where the asks of each job came from, the first job first: nothing, where it wasn't run.
    pub fn places(&self) -> &[Option<&'a Places>]
        ensures { places_lent result.now ≡ self.now.places }
    {
        self.places.as_slice()
    }
}
