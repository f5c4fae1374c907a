// One session of a job.

ghost use Rattle.std.specs.Prelude.{◌≡◌, ◌⊎◌, Bool};
ghost use Rattle.mj_ask.specs.declared.ask.DeviceAsk.TheVariants as device_asks;
ghost use Rattle.mj_sessions.specs.Answers.{Hears, IsCall, IsEnding};
ghost use Rattle.mj_sessions.specs.Asked.{Calls, IsAsked, IsOver};
ghost use Rattle.mj_sessions.specs.Named.{is_named};
ghost use Rattle.mj_sessions.specs.declared.answer.Answer.TheVariants as answers;
ghost use Rattle.mj_dev.specs.Told.{DeviceCall, IsToldBy};

use crate::answer::{Answer, to_byte, to_call, to_line};
use mj_ask::{DeviceAsk, is_timed_out};
use mj_dev::{Device, Session, State};
use mj_num::Num;
use mj_text::{Digits, Text};
use std::marker::Model;

// A session with the device of a name.
#[derive(Drop)]
pub struct Held<D: Device> {
    name: Text,
    session: Session<D>,
}

impl<D: Device> Model for Held<D> {
    ghost use Rattle.mj_sessions.specs.Named.{Named};

    ghost Value = { Named };

    ghost view = { λ h. record { name = h.name; session = h.session } };
}

impl<D: Device> Held<D> {
    pub fn new(name: Text, session: Session<D>) -> Held<D>
        ensures { result ≡ record { name = name; session = session } }
    {
        Held { name, session }
    }

    // Whether its device has this name.
    pub fn is_named(&self, name: &Text) -> bool
        ensures { result ≡ is_named name.now self.now }
    {
        self.name == *name
    }

    // The bytes that its device took.
    pub fn taken(&self) -> &[u8]
        ensures { result.now ≡ self.now.session.taken }
    {
        self.session.taken()
    }

    // Serves an ask that is a call to the session.
    pub fn serve(&mut self, ask: &DeviceAsk, late: bool) -> Answer
        requires { IsCall ask.now }
        ensures heard { Hears self.old.session ask.now late result self.new.session }
        ensures asked { (result ≡ answers.Unfit)
            ⊎ IsAsked (IsToldBy D.inside D.failures D.taken D.given D.IsTold) self.old.session ask.now late result self.new.session }
        ensures name { self.new.name ≡ self.old.name }
    {
        match ask {
            DeviceAsk::Begin => self.begin(),
            DeviceAsk::Write(bytes) => self.write(bytes),
            DeviceAsk::Line(timeout) => self.line(*timeout, late),
            DeviceAsk::Byte(timeout) => self.byte(*timeout, late),
            DeviceAsk::End => unreachable!(),
        }
    }

    // The device begins.
    fn begin(&mut self) -> Answer
        ensures heard { (late : Bool) → Hears self.old.session device_asks.Begin late result self.new.session }
        ensures asked { (result ≡ answers.Unfit)
            ⊎ Calls (IsToldBy D.inside D.failures D.taken D.given D.IsTold) DeviceCall.Begun self.old.session result self.new.session }
        ensures name { self.new.name ≡ self.old.name }
    {
        match self.session.state() {
            State::Open => to_call(self.session.begin()),
            State::Failed | State::Ended => Answer::Unfit,
        }
    }

    // The bytes go to the device.
    fn write(&mut self, bytes: &Text) -> Answer
        ensures heard { (late : Bool) → Hears self.old.session (device_asks.Write bytes.now) late result self.new.session }
        ensures asked { (result ≡ answers.Unfit)
            ⊎ Calls (IsToldBy D.inside D.failures D.taken D.given D.IsTold) (DeviceCall.Wrote bytes.now) self.old.session result self.new.session }
        ensures name { self.new.name ≡ self.old.name }
    {
        let mut digits = Digits::new();
        match self.session.state() {
            State::Open => to_call(self.session.write(bytes.bytes(&mut digits))),
            State::Failed | State::Ended => Answer::Unfit,
        }
    }

    // The device gives a line.
    fn line(&mut self, timeout: Option<Num>, late: bool) -> Answer
        ensures heard { Hears self.old.session (device_asks.Line timeout) late result self.new.session }
        ensures asked { (result ≡ answers.Unfit)
            ⊎ IsAsked (IsToldBy D.inside D.failures D.taken D.given D.IsTold) self.old.session (device_asks.Line timeout) late result self.new.session }
        ensures name { self.new.name ≡ self.old.name }
    {
        match self.session.state() {
            State::Open => to_line(self.session.line(), is_timed_out(timeout, late)),
            State::Failed | State::Ended => Answer::Unfit,
        }
    }

    // The device gives a byte.
    fn byte(&mut self, timeout: Option<Num>, late: bool) -> Answer
        ensures heard { Hears self.old.session (device_asks.Byte timeout) late result self.new.session }
        ensures asked { (result ≡ answers.Unfit)
            ⊎ IsAsked (IsToldBy D.inside D.failures D.taken D.given D.IsTold) self.old.session (device_asks.Byte timeout) late result self.new.session }
        ensures name { self.new.name ≡ self.old.name }
    {
        match self.session.state() {
            State::Open => to_byte(self.session.byte(), is_timed_out(timeout, late)),
            State::Failed | State::Ended => Answer::Unfit,
        }
    }

    // The device ends, and is dropped.
    pub fn end(self) -> Answer
        ensures ending { IsEnding self.session result }
        ensures asked { IsOver (IsToldBy D.inside D.failures D.taken D.given D.IsTold) self.session result }
    {
        let Held { session, .. } = self;
        let (did, device) = session.end();
        drop(device);
        to_call(did)
    }
}
