// A job.

ghost use Rattle.std.specs.Prelude.{◌≡◌, ◌++◌, ◌∷◌, [], Some, None, true, IsSome, Ok, IfOk, OnOk, OnErr, option_copied};
ghost use Rattle.mj_ask.specs.declared.ask.Ask as asks;
ghost use Rattle.mj_ask.specs.Within.{is_reply_within};
ghost use Rattle.mj_semantics.specs.State.{place_of};
ghost use Rattle.mj_semantics.specs.Job.{Start as Starts};
ghost use Rattle.mj_turn.specs.Starts.{start_of};
ghost use Rattle.mj_load.specs.Image.{Loaded, program_of};
ghost use Rattle.mj_frames.specs.Frames.{frames_of, place_at};
ghost use Rattle.mj_jobvm.specs.Jobs.{FitsPending, IsRunOf, IsRunOfAfter, GoesForward, IsIn, given_of, opened, opening_at};
ghost use Rattle.mj_pcode.specs.Sound.{AreChecked};
ghost use Rattle.mj_turn.specs.Sound.{IsSound};
ghost use Rattle.mj_machine.specs.Standing.{Steps};
ghost use Rattle.mj_machine.specs.Kept.{standing, replied, state_of};
ghost use Rattle.mj_jobvm.specs.Places.{ArePlaces};
ghost use Rattle.mj_jobvm.specs.Run.{IsTrace, replies_of};
ghost use Rattle.mj_jobvm.specs.Limit.{IsLimited};
ghost use Rattle.mj_jobvm.specs.Told.{AdvanceTells, IsWaitingAt, told_of, spent_after};
ghost use Rattle.mj_turn.specs.Units.{AreSmall};

use crate::places::Places;
use mj_ask::{Ask, Bounds, Entry, Reply};
use mj_frames::{Frame, Frames};
use mj_load::Image;
use mj_locals::Locals;
use mj_machine::{Control, Machine, TurnOutcome};
use mj_open_devices::Devices;
use mj_pcode::Unit;
use mj_segment::run_segment;
use mj_store::Nodes;
use mj_text::Text;
use mj_turn::{Start, make_turn};
use std::alloc::{AllocError, Global};
use std::marker::Model;

/// The greatest number of turns that is counted.
pub const SPENT_LIMIT: u64 = 1 << 63;

/// How a call of `advance` ends.
#[derive(Clone, Copy, PartialEq, Eq, Debug)]
pub enum Turn {
    /// the job asks, and waits for its reply
    Asks,
    /// its fuel is used up
    Ran,
    /// it is over
    Ended,
}

// How a turn goes, whether it took the reply at hand or not.
#[derive(Drop)]
enum Went {
    On,
    Asks(Box<Ask>),
    Over,
}

/// One job: what it asked and was told, and where it stands.
#[derive(Drop)]
pub struct Job {
    alloc: Global,
    start: Start,
    machine: Machine,
    log: Vec<(Ask, Reply)>,
    // where the asks in it came from
    places: Places,
    // whether the log's last reply is still to be taken
    given: bool,
    // with room for it in the log, and for its place, which is noted
    pending: Option<Ask>,
    spent: u64,
}

impl Model for Job {
    ghost use Rattle.std.specs.Prelude.{◌≡◌, ◌<◌, IsSome, true};
    ghost use Rattle.mj_turn.specs.Starts.{start_of};
    ghost use Rattle.mj_semantics.specs.State.{place_of};
    ghost use Rattle.mj_machine.specs.Kept.{state_of};
    ghost use Rattle.mj_jobvm.specs.Jobs.{Running, running};

    ghost Value = { Running };

    ghost view = { λ j. running (start_of j.start) j.machine j.log.items j.places.places j.given j.pending j.spent };

    ghost invariant = { λ j. IsSome j.pending
        → (j.log.len < j.log.cap) × (j.places.room ≡ true) × (j.places.next ≡ place_of (state_of j.machine)) };
}

impl Job {
    /// Makes a job with this number that starts at this entry, with these values for the formals of its line, before its first turn. Where the
    /// image has no such line, it begins all the same, and ends by a fault. Where memory is refused, its locals are found less fast.
    pub fn start(
        alloc: Global,
        image: &Image,
        job: u32,
        entry: Entry,
        values: Vec<Option<Text>>,
    ) -> Job
        ensures opening { result ≡ opened image.now.bounds (record { job = job; entry = entry; values = values.items }) }
        ensures run { IsRunOfAfter image.now (record { job = job; entry = entry; values = values.items }) 0 result }
    {
        let _ = image.units(); // for the proof
        Job::at(alloc, image, Start { job, entry, values })
    }

    fn at(alloc: Global, image: &Image, start: Start) -> Job
        ensures { result ≡ opened image.now.bounds (start_of start) }
    {
        let machine = opening(alloc, image.words(), start.job, image.bounds());
        Job {
            alloc,
            start,
            machine,
            log: Vec::new(alloc),
            places: Places::new(alloc),
            given: false,
            pending: None,
            spent: 0,
        }
    }

    /// Goes on for at most `fuel` turns, in the image where it started, and for exactly as many where it answers `Ran`. A job that waits
    /// for a reply asks again, and stays as it is. With want of memory its log and its ask are as before, and it stands at some later or
    /// equal place of the same run.
    pub fn advance(&mut self, image: &Image, fuel: u64) -> Result<Turn, AllocError>
        requires { IsIn image.now self.old }
        ensures run { (start : Starts) → IsRunOf image.now start self.old → IsRunOf image.now start self.new }
        ensures forward { (start : Starts) → GoesForward image.now start result fuel self.old self.new }
        ensures again { IsSome self.old.run.pending → (result ≡ Ok Turn.Asks) × (self.new ≡ self.old) }
        ensures waits { IfOk result (λ turn. IsWaitingAt turn self.new.run.pending) }
        ensures told { (start : Starts) → IsRunOf image.now start self.old
            → IfOk result (λ turn. AdvanceTells (program_of image.now) start turn self.new.run) }
        ensures log { self.new.run.log ≡ self.old.run.log }
        ensures places { self.new.run.places ≡ self.old.run.places }
        ensures spent { self.new.run.spent ≡ spent_after result fuel self.old.run.spent }
        ensures err { OnErr result (self.new.run.pending ≡ self.old.run.pending) }
    {
        if let Some(_) = self.pending {
            return Ok(Turn::Asks);
        }
        self.log.reserve(1)?;
        let units = image.units();
        let compacts = image.compacts();
        let mut done = 0;
        'turns: while done < fuel {
            let made = run_segment(self.alloc, units, compacts, fuel - done, &mut self.machine);
            done += made;
            if done == fuel {
                continue 'turns;
            }
            let went = match go_on(
                self.alloc,
                units,
                &self.start,
                &mut self.machine,
                &self.log,
                &mut self.given,
            ) {
                Ok(went) => went,
                Err(error) => return Err(error),
            };
            match went {
                Went::On => done += 1,
                Went::Asks(ask) => {
                    note_place(&mut self.places, &self.machine)?;
                    wait(&mut self.pending, ask);
                    return Ok(Turn::Asks);
                }
                Went::Over => return Ok(Turn::Ended),
            }
        }
        self.spent = self.spent.saturating_add(fuel).min(SPENT_LIMIT);
        Ok(Turn::Ran)
    }

    /// What the job asks, if it waits for a reply.
    pub fn ask(&self) -> Option<&Ask>
        ensures { option_copied result ≡ self.now.run.pending }
    {
        self.pending.as_ref()
    }

    /// Replies to what the job asks, with texts that its program may have. It takes no memory.
    pub fn answer(&mut self, reply: Reply)
        requires { FitsPending self.old.run.pending reply }
        ensures run { (image : Loaded) (start : Starts) → is_reply_within image.bounds.limit reply ≡ true
            → IsRunOf image start self.old → IsRunOf image start self.new }
        ensures state { self.new.run.at.state ≡ self.old.run.at.state }
        ensures log { (a : asks.Ask) → self.old.run.pending ≡ Some a → self.new.run.log ≡ self.old.run.log ++ (a, reply) ∷ [] }
        ensures places { self.new.run.places ≡ self.old.run.places ++ place_of self.old.run.at.state ∷ [] }
        ensures pending { self.new.run.pending ≡ None }
        ensures spent { self.new.run.spent ≡ 0 }
    {
        if let Some(ask) = self.pending.take() {
            self.log.push_reserved((ask, reply));
            self.places.keep();
            self.given = true;
            self.spent = 0;
        }
    }

    /// What it asked, with the replies, in order: at most as many entries as its image's bounds say, and those of its ending.
    pub fn log(&self) -> &[(Ask, Reply)]
        ensures which { result.now ≡ self.now.run.log }
        ensures trace { (image : Loaded) (start : Starts) → IsRunOf image start self.now → IsTrace (program_of image) start result.now }
        ensures limit { (image : Loaded) (start : Starts) → IsRunOf image start self.now → IsLimited image.bounds.events result.now }
    {
        self.log.as_slice()
    }

    /// Where the asks in its log came from, in order: as many places as the log has entries, each that of the command that asked, or none.
    pub fn places(&self) -> &Places
        ensures which { result.now.places ≡ self.now.run.places }
        ensures are { (image : Loaded) (start : Starts) → IsRunOf image start self.now
            → ArePlaces (program_of image) start (replies_of self.now.run.log) result.now.places }
    {
        &self.places
    }

    /// Gives up a job for its log, and where the asks in it came from.
    pub fn into_log(self) -> (Vec<(Ask, Reply)>, Places)
        ensures log { result.0.items ≡ self.run.log }
        ensures places { result.1.places ≡ self.run.places }
    {
        (self.log, self.places)
    }

    /// Its locals, which can be asked as every store can.
    pub fn locals(&self) -> &Locals
        ensures { result.now.now ≡ self.now.run.at.state.locals }
    {
        &self.machine.locals
    }

    /// Its frames, the outermost first.
    pub fn frames(&self) -> &[Frame]
        ensures { frames_of result.now ≡ self.now.run.at.state.frames }
    {
        self.machine.frames.as_slice()
    }

    /// The routine and the line where its innermost frame stands, if it has a frame.
    pub fn place(&self) -> Option<(&Text, u32)>
        ensures { place_at result ≡ place_of self.now.run.at.state }
    {
        match self.machine.frames.last() {
            None => None,
            Some(frame) => Some((&frame.place.routine, frame.place.line)),
        }
    }

    /// Its `$TEST`.
    pub fn test(&self) -> bool
        ensures { result ≡ self.now.run.at.state.test }
    {
        self.machine.test
    }

    /// Its `$TLEVEL`.
    pub fn level(&self) -> u8
        ensures { result ≡ self.now.run.at.state.level }
    {
        self.machine.level
    }

    /// The turns that it was let go on for since the last reply, by calls of `advance` that used their fuel up.
    pub fn spent(&self) -> u64
        ensures { result ≡ self.now.run.spent }
    {
        self.spent
    }
}

// Where a job with this number stands before its first turn. Its locals lie in the order of these words.
fn opening(alloc: Global, words: &[Text], job: u32, bounds: Bounds) -> Machine
    ensures { standing result None ≡ opening_at bounds job }
{
    let _events = bounds.events; // for the proof
    Machine {
        bounds,
        job,
        control: Control::Begin,
        stack: Vec::new(alloc),
        locals: Locals::with_words(alloc, words),
        test: false,
        frames: Frames::new(alloc),
        unit: 0,
        loops: Vec::new(alloc),
        calls: Vec::new(alloc),
        devices: Devices::new(alloc),
        level: 0,
        restarts: 0,
        mark: None,
        restart: None,
        replied: 0,
        held: Nodes::new(alloc),
    }
}

// Notes where the ask comes from that a job makes as it stands here.
fn note_place(places: &mut Places, machine: &Machine) -> Result<(), AllocError>
    ensures places { places.new.places ≡ places.old.places }
    ensures ok { OnOk result ((places.new.room ≡ true) × (places.new.next ≡ place_of (state_of machine.now))) }
{
    places.note(machine.unit, machine.frames.place())
}

// Keeps an ask until its reply comes. What waited before, which is nothing, goes to `drop`: an assignment would drop an ask with all its parts here.
fn wait(pending: &mut Option<Ask>, ask: Box<Ask>)
    ensures { pending.new ≡ Some ask.value }
{
    drop(pending.replace(Box::into_inner(ask)));
}

// Makes a turn, with the last reply of the log, if it is still to be taken.
fn go_on(
    alloc: Global,
    units: &[Unit],
    start: &Start,
    machine: &mut Machine,
    log: &[(Ask, Reply)],
    given: &mut bool,
) -> Result<Went, AllocError>
    requires small { AreSmall units.now }
    requires checked { AreChecked units.now }
    requires sound { IsSound units.now (standing machine.old None) }
    ensures ok { IfOk result (λ w. Steps (record { units = units.now; start = start_of start.now })
        (standing machine.old (given_of given.old log.now)) (told_of w) (standing machine.new (given_of given.new log.now))) }
    ensures err { OnErr result (standing machine.new (given_of given.new log.now) ≡ standing machine.old (given_of given.old log.now)) }
    ensures sound { IsSound units.now (standing machine.new None) }
{
    // Matched as it comes: a `?` here would move the room of an ask in each turn.
    match make_turn(alloc, units, start, machine, reply_in(log, *given)) {
        Ok(TurnOutcome::Next) => Ok(Went::On),
        Ok(TurnOutcome::Took) => {
            *given = false;
            Ok(Went::On)
        }
        Ok(TurnOutcome::Asks(ask)) => Ok(Went::Asks(ask)),
        Ok(TurnOutcome::Ends) => Ok(Went::Over),
        Err(error) => Err(error),
    }
}

// The last reply of a log, where it is still to be taken.
fn reply_in(log: &[(Ask, Reply)], given: bool) -> Option<&Reply>
    ensures { replied result ≡ given_of given log.now }
{
    if !given {
        return None;
    }
    match log.last() {
        Some((_, reply)) => Some(reply),
        None => None,
    }
}
