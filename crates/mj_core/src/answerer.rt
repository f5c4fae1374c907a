// Who answers what a job asks a device.

ghost use Rattle.std.specs.Prelude.{◌≡◌, [], ℕ, List, Bool, true, false, if◌then◌else◌, IfOk, IfErr, option_copied};
ghost use Rattle.std.specs.Str.{bytes_eq};
ghost use Rattle.mj_dev.specs.Heard.{IsNew};
ghost use Rattle.mj_sessions.specs.Events.{Log};
ghost use Rattle.mj_core.specs.Meaning.{IsOfDevice};
ghost use Rattle.mj_core.specs.Answering.{Answering, Answers, Stays, IsRefused};

use mj_ask::{Ask, Reply};
use mj_dev::{Device, Session};
use mj_sessions::Answer;
use mj_text::Text;
use std::alloc::Global;
use std::marker::Model;

/// Why there is no room for a session.
#[derive(Clone, Copy, PartialEq, Eq, Debug)]
pub enum Unplaced {
    /// the job has one with that device
    Taken,
    /// memory was refused
    Memory,
}

/// A session with a device that wasn't asked yet.
#[derive(Drop)]
pub struct Fresh<D: Device> {
    session: Session<D>,
}

impl<D: Device> Model for Fresh<D> {
    ghost use Rattle.mj_dev.specs.Heard.{Heard, IsNew};

    ghost Value = { Heard };

    ghost view = { λ f. f.session };

    ghost invariant = { λ f. IsNew f.session };
}

impl<D: Device> Fresh<D> {
    /// This session.
    pub fn new(session: Session<D>) -> Fresh<D>
        requires { IsNew session }
        ensures { result ≡ session }
    {
        Fresh { session }
    }

    /// The session.
    pub fn session(self) -> Session<D>
        ensures value { result ≡ self }
        ensures new { IsNew result }
    {
        self.session
    }
}

/// Who answers what one job asks devices, and keeps the job's sessions with them. A session that wasn't asked yet is an `S`.
pub trait Answerer<S: Drop>: Drop {
    /// what is known of it
    ghost answering: { Answering Self };

    /// Of a job that hasn't asked yet, and has no session.
    fn new(alloc: Global) -> Self
        ensures of { answering.IsOf result [] }
        ensures none { (name : List ℕ) → answering.Has result name false };

    /// Makes room for a session with the device of this name.
    fn make_room(&mut self, name: &Text) -> Result<(), Unplaced>
        ensures room { IfOk result (λ _. answering.HasRoom self.new name.now) }
        ensures stays { Stays answering self.old self.new }
        ensures refused { IfErr result (λ why. IsRefused answering self.old name.now why) };

    /// Takes a session that the job has from now on. It takes no memory.
    fn open(&mut self, name: Text, session: S)
        requires { answering.HasRoom self.old name }
        ensures of { (log : Log) → answering.IsOf self.old log → answering.IsOf self.new log }
        ensures there { (other : List ℕ) (has : Bool) → answering.Has self.old other has
            → answering.Has self.new other (if bytes_eq name other then true else has) };

    /// Answers an ask of a device. The reply that a device is recorded to have given comes with the step, or none.
    fn answer(&mut self, ask: &Ask, late: bool, given: Option<&Reply>) -> Answer
        requires { IsOfDevice ask.now }
        ensures { Answers answering self.old ask.now late (option_copied given.entry) result self.new };
}
