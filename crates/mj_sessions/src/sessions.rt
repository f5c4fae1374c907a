// The sessions that a job has.

ghost use Rattle.std.specs.Prelude.{◌≡◌, ◌<◌, ◌+◌, ◌≤◌, ◌++◌, ◌∷◌, [], ℕ, List, Some, None, false, true, position, is_some, if◌then◌else◌, IfOk, IfSome};
ghost use Rattle.std.specs.Prelude.{IfNone, OnErr};
ghost use Rattle.mj_ask.specs.Fits.{is_shared};
ghost use Rattle.mj_dev.specs.Heard.{IsNew};
ghost use Rattle.mj_dev.specs.Told.{IsToldBy};
ghost use Rattle.mj_sessions.specs.Answers.{Answers, AnswersOf, Asked, SessionEnds, IsCall};
ghost use Rattle.mj_sessions.specs.Asked.{AreAsked, AreAskedOf, IsAskedOf, IsOverOf};
ghost use Rattle.mj_ask.specs.declared.ask.Ask as asks;
ghost use Rattle.mj_ask.specs.declared.ask.Reply as replies;
ghost use Rattle.mj_sessions.specs.Events.{Log};
ghost use Rattle.mj_sessions.specs.Follow.{ends_on};
ghost use Rattle.mj_sessions.specs.Named.{is_named, session_of, AreTold};

use crate::answer::Answer;
use crate::held::Held;
use mj_ask::{Ask, DeviceAsk, Reply};
use mj_dev::{Device, Session};
use mj_text::Text;
use std::alloc::{AllocError, Global};
use std::marker::Model;

/// The sessions that a job has, by the names of their devices, in order of opening. No two have one name.
#[derive(Drop)]
pub struct Sessions<D: Device> {
    held: Vec<Held<D>>,
}

impl<D: Device> Model for Sessions<D> {
    ghost use Rattle.std.specs.Prelude.{◌-◌};
    ghost use Rattle.mj_sessions.specs.Named.{Roomy, AreApart};

    ghost Value = { Roomy };

    ghost view = { λ s. record { sessions = s.held.items; room = s.held.cap - s.held.len } };

    ghost invariant = { λ s. AreApart s.held.items };
}

impl<D: Device> Sessions<D> {
    /// No sessions.
    pub fn new(alloc: Global) -> Sessions<D>
        ensures { result.sessions ≡ [] }
    {
        Sessions {
            held: Vec::new(alloc),
        }
    }

    /// Makes room for one more.
    pub fn reserve(&mut self) -> Result<(), AllocError>
        ensures room { IfOk result (λ _. 0 < self.new.room) }
        ensures sessions { self.new.sessions ≡ self.old.sessions }
    {
        self.held.reserve(1)
    }

    /// Whether the job has a session with the device of this name.
    pub fn has(&self, name: &Text) -> bool
        ensures { result ≡ is_some (session_of name.now self.now.sessions) }
    {
        match self.place(name) {
            None => false,
            Some(_) => true,
        }
    }

    /// The job has this session too, with the device of a name of which it has none. It takes no memory.
    pub fn open(&mut self, name: Text, session: Session<D>)
        requires room { 0 < self.old.room }
        requires absent { session_of name self.old.sessions ≡ None }
        requires new { IsNew session }
        ensures sessions { self.new.sessions ≡ self.old.sessions ++ record { name = name; session = session } ∷ [] }
        ensures told { (log : Log) (ask : asks.Ask) (reply : replies.Reply) → is_shared ask ≡ true
            → AreTold log self.old.sessions → AreTold (log ++ (ask, reply) ∷ []) self.new.sessions }
    {
        self.held.push_reserved(Held::new(name, session));
    }

    /// The bytes that the open session with the device of this name took.
    pub fn taken(&self, name: &Text) -> Option<&[u8]>
        ensures none { IfNone result (session_of name.now self.now.sessions ≡ None) }
        ensures some { IfSome result (λ bytes. (s : _) × (session_of name.now self.now.sessions ≡ Some s) × (bytes.now ≡ s.session.taken)) }
    {
        match self.place(name) {
            None => None,
            Some(place) => Some(self.held[place].taken()),
        }
    }

    /// Serves an ask that isn't one to the shared state: a rest is over at once, and any other is one call to the session of its device.
    pub fn serve(&mut self, ask: &Ask, late: bool) -> Answer
        requires { is_shared ask.now ≡ false }
        ensures answers { Answers self.old.sessions ask.now late result self.new.sessions }
        ensures asked { AreAsked (IsToldBy D.inside D.failures D.taken D.given D.IsTold) self.old.sessions ask.now late result self.new.sessions }
        ensures told { (log : Log) (reply : replies.Reply) → result ≡ Answer.Told reply
            → AreTold log self.old.sessions → AreTold (log ++ (ask.now, reply) ∷ []) self.new.sessions }
        ensures there { (name : List ℕ) (reply : replies.Reply) → result ≡ Answer.Told reply
            → is_some (session_of name self.new.sessions) ≡ (if ends_on name ask.now then false else is_some (session_of name self.old.sessions)) }
    {
        let _held = &self.held; // for the proof
        self.asked(ask, late)
    }

    // Serves such an ask.
    fn asked(&mut self, ask: &Ask, late: bool) -> Answer
        requires { is_shared ask.now ≡ false }
        ensures answers { Answers self.old.sessions ask.now late result self.new.sessions }
        ensures asked { AreAsked (IsToldBy D.inside D.failures D.taken D.given D.IsTold) self.old.sessions ask.now late result self.new.sessions }
    {
        match ask {
            Ask::Device(device, ask) => self.asked_of(device, ask, late),
            Ask::Rest(_) => Answer::Told(Reply::Done),
            Ask::Shared(_) => unreachable!(),
        }
    }

    // Serves an ask of the device of this name.
    fn asked_of(&mut self, name: &Text, ask: &DeviceAsk, late: bool) -> Answer
        ensures answers { AnswersOf name.now self.old.sessions ask.now late result self.new.sessions }
        ensures asked { AreAskedOf (IsToldBy D.inside D.failures D.taken D.given D.IsTold) name.now self.old.sessions ask.now late result self.new.sessions }
    {
        match ask {
            DeviceAsk::End => self.end(name),
            _ => self.call(name, ask, late),
        }
    }

    // Calls the session with the device of this name.
    fn call(&mut self, name: &Text, ask: &DeviceAsk, late: bool) -> Answer
        requires { IsCall ask.now }
        ensures answers { Asked name.now self.old.sessions ask.now late result self.new.sessions }
        ensures asked { IsAskedOf (IsToldBy D.inside D.failures D.taken D.given D.IsTold) name.now self.old.sessions ask.now late result self.new.sessions }
    {
        match self.place(name) {
            None => Answer::Unfit,
            Some(place) => {
                let held = &mut self.held[place];
                held.serve(ask, late)
            }
        }
    }

    // Ends the session with the device of this name.
    fn end(&mut self, name: &Text) -> Answer
        ensures ends { SessionEnds name.now self.old.sessions result self.new.sessions }
        ensures asked { IsOverOf (IsToldBy D.inside D.failures D.taken D.given D.IsTold) name.now self.old.sessions result }
    {
        match self.place(name) {
            None => Answer::Unfit,
            Some(place) => {
                let held = self.held.remove(place);
                held.end()
            }
        }
    }

    // Where the session with the device of this name stands.
    fn place(&self, name: &Text) -> Option<usize>
        ensures { result ≡ position (is_named name.now) self.now.sessions }
    {
        self.held.iter().position(|held| held.is_named(name))
    }
}
