// A record answers what a job asks devices: no device is called.
//
// What a device is recorded to have answered is given with the step, and told where the device protocol allows it (`specs/Recorded.antt`).

ghost use Rattle.std.specs.Prelude.{◌≡◌, ◌≤◌, [], ℕ, List, length, replicate, Bool, true, false, None, Some, if◌then◌else◌, IfOk, IfSome};
ghost use Rattle.std.specs.Str.{bytes_eq};
ghost use Rattle.mj_text.specs.declared.limit.Limit.TheVariants.{V2};
ghost use Rattle.mj_dev.specs.Pools.{shelves_of};
ghost use Rattle.mj_dev.specs.Shelves.{principal, left_of};
ghost use Rattle.mj_jobs.specs.Rows.{rows_limit};
ghost use Rattle.mj_sessions.specs.Events.{Log};
ghost use Rattle.mj_sys.specs.Opening.{opening_of, are_bare};
ghost use Rattle.mj_sys.specs.Shared.{are_global};
ghost use Rattle.mj_expect.specs.Heeds.{AreHeeds};
ghost use Rattle.mj_core.specs.Answering.{Answers};
ghost use Rattle.mj_core.specs.ByRecord.{by_record};
ghost use Rattle.mj_core.specs.Meaning.{IsOfDevice};
ghost use Rattle.mj_core.specs.Shown.{begun};
ghost use Rattle.mj_core.specs.Recorded.{IsHeard, is_early, RecordStepGives};

use crate::answerer::{Answerer, Fresh, Unplaced};
use crate::seen::Seen;
use crate::together::Core;
use mj_ask::{Ask, Reply, Start, is_timed_out};
use mj_dev::{Blank, Device, pool_of};
use mj_expect::Heeds;
use mj_globs::Globals;
use mj_load::Image;
use mj_sessions::Answer;
use mj_steps::{Refusal, Step};
use mj_sys::Opening;
use mj_text::Text;
use std::alloc::{AllocError, Global};

impl<D: Device> Answerer<Fresh<D>> for Heeds {
    ghost answering = { by_record };

    fn new(alloc: Global) -> Heeds {
        Heeds::new(alloc)
    }

    fn make_room(&mut self, name: &Text) -> Result<(), Unplaced> {
        Ok(())
    }

    // The session isn't kept.
    fn open(&mut self, name: Text, session: Fresh<D>)
        requires { by_record.HasRoom self.old name }
        ensures of { (log : Log) → by_record.IsOf self.old log → by_record.IsOf self.new log }
        ensures there { (other : List ℕ) (has : Bool) → by_record.Has self.old other has
            → by_record.Has self.new other (if bytes_eq name other then true else has) }
    {
        drop(name);
        drop(session);
    }

    fn answer(&mut self, ask: &Ask, late: bool, given: Option<&Reply>) -> Answer {
        match given {
            None => Answer::Unfit,
            Some(reply) => hear(self, ask, late, reply),
        }
    }
}

// Answers by this reply of a device, if it may be one.
fn hear(heeds: &mut Heeds, ask: &Ask, late: bool, reply: &Reply) -> Answer
    requires { IsOfDevice ask.now }
    ensures { Answers by_record heeds.old ask.now late (Some reply.now) result heeds.new }
{
    if !ask.fits(reply) {
        return Answer::Unfit;
    }
    if is_early(ask, late, reply) {
        return Answer::Unfit;
    }
    match heard_with(heeds, ask, reply) {
        Err(_) => Answer::Memory,
        Ok(None) => Answer::Unfit,
        Ok(Some((heard, told))) => {
            *heeds = heard;
            Answer::Told(told)
        }
    }
}

// What is known of a job's talks behind this reply, with the reply; none where no device may have answered so.
fn heard_with(heeds: &Heeds, ask: &Ask, reply: &Reply) -> Result<Option<(Heeds, Reply)>, AllocError>
    requires { IsOfDevice ask.now }
    ensures heard { (log : Log) → AreHeeds log heeds.now → IfOk result (λ found. IsHeard log ask.now reply.now found) }
    ensures told { IfOk result (λ found. IfSome found (λ h. h.1 ≡ reply.now)) }
{
    let mut heard = heeds.try_clone()?;
    match heard.hear(ask, reply) {
        Err(_) => {
            drop(heard);
            Err(AllocError)
        }
        Ok(false) => {
            drop(heard);
            Ok(None)
        }
        Ok(true) => with_reply(heard, reply),
    }
}

// Copies the reply beside what is known.
fn with_reply(heard: Heeds, reply: &Reply) -> Result<Option<(Heeds, Reply)>, AllocError>
    ensures { IfOk result (λ found. found ≡ Some (heard, reply.now)) }
{
    match reply.try_clone() {
        Ok(told) => Ok(Some((heard, told))),
        Err(_) => {
            drop(heard);
            Err(AllocError)
        }
    }
}

// Whether the reply says that the timeout is over, and it isn't.
fn is_early(ask: &Ask, late: bool, reply: &Reply) -> bool
    ensures { result ≡ is_early ask.now late reply.now }
{
    match reply {
        Reply::Late => !is_timed_out(ask.timeout(), late),
        _ => false,
    }
}

impl<O: Opening> Core<Blank, Heeds, O> {
    /// A core of which nothing was asked yet, with so many sessions of each name, and a row for each of the starts. Only names of globals may have texts
    /// in its globals, and the image's limit is the greater one.
    pub fn blank(
        alloc: Global,
        image: Image,
        globals: Globals,
        sessions: Vec<(Text, u32)>,
        starts: Vec<Start>,
    ) -> Result<Core<Blank, Heeds, O>, AllocError>
        requires long { image.bounds.limit ≡ V2 }
        requires opening { opening_of globals.content (shelves_of sessions.items) starts.items ≡ O.opening }
        requires global { are_global globals.content ≡ true }
        requires some { 1 ≤ length starts.items }
        requires few { length starts.items ≤ rows_limit }
        requires fits { length starts.items ≤ left_of principal (shelves_of sessions.items) }
        requires bare { are_bare starts.items ≡ true }
        ensures ok { IfOk result (λ core. core ≡ begun image) }
    {
        match pool_of(alloc, &sessions) {
            Ok(pool) => match Core::<Blank, Heeds, O>::new(alloc, image, globals, pool, starts) {
                Ok(core) => Ok(core),
                Err(back) => {
                    drop(back);
                    Err(AllocError)
                }
            },
            Err(_) => {
                drop(image);
                drop(globals);
                drop(starts);
                Err(AllocError)
            }
        }
    }

    /// Makes a step: the job goes on for at most 10,000 turns to its next ask, which is served, where it isn't one to a device. Where it isn't made, nothing
    /// is asked or told.
    pub fn step(&mut self, step: Step) -> Result<Seen, Refusal>
        ensures { RecordStepGives O.opening self.old step None result self.new }
    {
        self.make(step, None)
    }

    /// Makes a step in which this reply is told where a device is asked. Any other ask is served.
    pub fn step_with(&mut self, step: Step, reply: &Reply) -> Result<Seen, Refusal>
        ensures { RecordStepGives O.opening self.old step (Some reply.now) result self.new }
    {
        self.make(step, Some(reply))
    }
}
