// Steps of a list, as far as they can be made.

use crate::choose::Chooser;
use mj_steps::{Standing, Step, Way};

/// A list of steps that are wished for. A job that isn't there, has ended or waits has none. One that is late has a step in time first, behind which it must
/// wait with a timeout.
#[derive(Drop)]
pub struct Wishes<'a> {
    wishes: &'a [Step],
    // whether a late step that comes next had its step in time
    asked: bool,
    // whether the jobs go on behind the last wish
    goes_on: bool,
    // the job of the last step
    last: u32,
}

impl<'a> Wishes<'a> {
    /// These wishes; behind them the jobs go on, each as far as it gets, the lowest first, if that is said.
    pub fn new(wishes: &'a [Step], goes_on: bool) -> Wishes<'a> {
        Wishes {
            wishes,
            asked: false,
            goes_on,
            last: 0,
        }
    }

    // The step of the next wish that can be made.
    fn wished(&mut self, jobs: &[Standing]) -> Option<Step> {
        let wishes = self.wishes;
        for (at, wish) in wishes.iter().enumerate() {
            let asked = self.asked;
            self.asked = false;
            let Some(way) = way_of(*wish, asked, standing_of(jobs, wish.job)) else {
                continue;
            };
            if way == wish.way {
                self.wishes = &wishes[at + 1..];
            } else {
                self.wishes = &wishes[at..];
                self.asked = true;
            }
            return Some(Step { job: wish.job, way });
        }
        self.wishes = &[];
        None
    }
}

impl Chooser for Wishes<'_> {
    fn choose(&mut self, jobs: &[Standing]) -> Option<Step> {
        let step = match self.wished(jobs) {
            Some(step) => step,
            None if self.goes_on => next_of(self.last, jobs)?,
            None => return None,
        };
        self.last = step.job;
        Some(step)
    }
}

// How a wish is done by a job that stands so, if it is. A step in time stands for a late one that has it first.
fn way_of(wish: Step, asked: bool, standing: Option<Standing>) -> Option<Way> {
    match (standing?, wish.way) {
        (Standing::Goes, Way::Go) => Some(Way::Go),
        (Standing::Goes, Way::Late) if !asked => Some(Way::Go),
        (Standing::WaitsTimed, Way::Late) => Some(Way::Late),
        _ => None,
    }
}

// Where a job stands, if there is one.
fn standing_of(jobs: &[Standing], job: u32) -> Option<Standing> {
    let place = (job as usize).checked_sub(1)?;
    jobs.get(place).copied()
}

// The step of this job, if it goes on, or else of the first that does; or where none does, of the first that waits with a timeout, which is late.
fn next_of(last: u32, jobs: &[Standing]) -> Option<Step> {
    if standing_of(jobs, last) == Some(Standing::Goes) {
        return Some(Step {
            job: last,
            way: Way::Go,
        });
    }
    match first(jobs, Standing::Goes) {
        Some(job) => Some(Step { job, way: Way::Go }),
        None => Some(Step {
            job: first(jobs, Standing::WaitsTimed)?,
            way: Way::Late,
        }),
    }
}

// The first job that stands so.
fn first(jobs: &[Standing], wanted: Standing) -> Option<u32> {
    let place = jobs.iter().position(|standing| *standing == wanted)?;
    u32::try_from(place + 1).ok()
}
