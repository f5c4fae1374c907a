// Steps by chance.

use crate::choose::Chooser;
use mj_steps::{Standing, Step, Way};
use rand_core::utils::NextWord;
use rand_pcg::Pcg32;

// In how many parts of a whole the chance is told that the same job goes on, and that one is late.
const PARTS: u32 = 8;

/// Who chooses steps by chance. In each run each job has a speed, so that some are slow; and there is a chance that a job goes on which just did something,
/// and one that a job is late which waits with a timeout.
#[derive(Drop)]
pub struct Chance {
    words: Pcg32,
    // two bits for each of sixteen jobs; the next sixteen have the same
    speeds: u32,
    stays: u32,
    lates: u32,
    // the job of the last step
    last: u32,
}

impl Chance {
    /// The chance of a run, which comes again by the same seed and the same number.
    pub fn new(seed: u32, run: u32) -> Chance {
        let mut words = Pcg32::new(u64::from(seed), u64::from(run));
        let speeds = words.next_word();
        let stays = words.next_word() % PARTS;
        let lates = words.next_word() % (PARTS / 2);
        Chance {
            words,
            speeds,
            stays,
            lates,
            last: 0,
        }
    }

    // Whether something comes about that has so many parts of a whole.
    fn comes(&mut self, parts: u32) -> bool {
        self.words.next_word() % PARTS < parts
    }

    // A number below this one, which isn't 0.
    fn below(&mut self, end: u32) -> u32 {
        match self.words.next_word().checked_rem(end) {
            Some(number) => number,
            None => 0,
        }
    }

    // How fast the job at a place is, from 0: 1, 4, 16 or 64.
    fn speed(&self, place: usize) -> u32 {
        let bits = place % 16 * 2;
        match (self.speeds >> bits) % 4 {
            0 => 1,
            1 => 4,
            2 => 16,
            _ => 64,
        }
    }

    // How likely the job at a place is the next, of those that stand so.
    fn weight(&self, place: usize, standing: Standing, wanted: Standing) -> u32 {
        if standing == wanted {
            self.speed(place)
        } else {
            0
        }
    }

    // One of the jobs that stand so, by their speeds.
    fn pick(&mut self, jobs: &[Standing], wanted: Standing) -> Option<u32> {
        let mut all: u32 = 0;
        for (place, standing) in jobs.iter().enumerate() {
            all = all.saturating_add(self.weight(place, *standing, wanted));
        }
        let mut left = self.below(all);
        for (place, standing) in jobs.iter().enumerate() {
            let weight = self.weight(place, *standing, wanted);
            if left < weight {
                return u32::try_from(place + 1).ok();
            }
            left -= weight;
        }
        None
    }

    // Whether the job of the last step did something, and goes on by chance.
    fn stays(&mut self, jobs: &[Standing]) -> bool {
        let Some(place) = (self.last as usize).checked_sub(1) else {
            return false;
        };
        jobs.get(place).copied() == Some(Standing::Goes) && self.comes(self.stays)
    }

    // The next step.
    fn next(&mut self, jobs: &[Standing]) -> Option<Step> {
        if self.stays(jobs) {
            return Some(Step {
                job: self.last,
                way: Way::Go,
            });
        }
        if self.comes(self.lates)
            && let Some(job) = self.pick(jobs, Standing::WaitsTimed)
        {
            return Some(Step {
                job,
                way: Way::Late,
            });
        }
        match self.pick(jobs, Standing::Goes) {
            Some(job) => Some(Step { job, way: Way::Go }),
            None => Some(Step {
                job: self.pick(jobs, Standing::WaitsTimed)?,
                way: Way::Late,
            }),
        }
    }
}

impl Chooser for Chance {
    fn choose(&mut self, jobs: &[Standing]) -> Option<Step> {
        let step = self.next(jobs)?;
        self.last = step.job;
        Some(step)
    }
}
