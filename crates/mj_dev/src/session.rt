// A session with a device.

ghost use Rattle.std.specs.Prelude.{◌≡◌, List, None};
ghost use Rattle.mj_dev.specs.Did.{IsAnswered};
ghost use Rattle.mj_dev.specs.Heard.{Heard, IsNew, IsFresh, DeviceBegins, Writes, Lines, Bytes, DeviceEnds};
ghost use Rattle.mj_dev.specs.Told.{DeviceCall, IsToldBy, IsToldCodeBy};
ghost use Rattle.mj_dev.specs.Talk.{Exchange, Talks, FollowsProtocol, GoesToEnd, BeginsOnce, IsTalk, output_of, stand_of};

use crate::device::{Device, Did, Input};
use crate::rest::Rest;
use crate::talk::{Code, Cursor, State};
use std::marker::Model;

/// A device, and what the job that has it knows of it. Once the device has failed there is only the session's end.
#[derive(Drop)]
pub struct Session<D: Device> {
    device: D,
    state: State,
    cursor: Cursor,
    rest: Rest,
}

impl<D: Device> Model for Session<D> {
    ghost use Rattle.mj_dev.specs.Heard.{Heard, IsSession};

    ghost Value = { Heard };

    ghost view = { λ s. record {
      rest = s.rest;
      state = s.state;
      cursor = s.cursor;
      inside = D.inside s.device;
      failures = D.failures s.device;
      taken = D.taken s.device;
      given = D.given s.device;
    } };

    ghost invariant = { λ s. IsSession (record {
      rest = s.rest;
      state = s.state;
      cursor = s.cursor;
      inside = D.inside s.device;
      failures = D.failures s.device;
      taken = D.taken s.device;
      given = D.given s.device;
    }) };
}

impl<D: Device> Session<D> {
    /// A session with a device of which nothing was asked yet.
    pub fn new(device: D) -> Session<D>
        requires { IsFresh (D.failures device) (D.taken device) (D.given device) }
        ensures new { IsNew result }
        ensures inside { result.inside ≡ D.inside device }
        ensures failures { result.failures ≡ D.failures device }
    {
        Session {
            device,
            state: State::Open,
            cursor: Cursor { column: 0, row: 0 },
            rest: Rest::none(),
        }
    }

    /// Whether the session may be used: it may until its device fails.
    pub fn state(&self) -> State
        ensures state { result ≡ self.now.state }
        ensures protocol { (old : Heard) → (talk : List Exchange) → Talks old talk self.now → FollowsProtocol (stand_of old) talk (stand_of self.now) }
        ensures talk { (old : Heard) → (talk : List Exchange) → IsNew old → BeginsOnce talk → Talks old talk self.now → IsTalk talk }
    {
        self.state
    }

    /// Where the next byte that is written stands: `$X` and `$Y`.
    pub fn cursor(&self) -> Cursor
        ensures { result ≡ self.now.cursor }
    {
        self.cursor
    }

    /// The bytes that the device took: since the session was new, the output of its talk.
    pub fn taken(&self) -> &[u8]
        ensures taken { result.now ≡ self.now.taken }
        ensures output { (old : Heard) → (talk : List Exchange) → IsNew old → Talks old talk self.now → result.now ≡ output_of talk }
    {
        self.device.taken()
    }

    /// Begins the device.
    pub fn begin(&mut self) -> Did
        requires { self.old.state ≡ State.Open }
        ensures heard { DeviceBegins self.old result self.new }
        ensures told { IsToldBy D.inside D.failures D.taken D.given D.IsTold self.old self.new (DeviceCall.Begun result) }
    {
        let did = self.device.begin();
        if did == Did::Failed {
            self.state = State::Failed;
        }
        did
    }

    /// Writes some bytes, all or none.
    pub fn write(&mut self, bytes: &[u8]) -> Did
        requires { self.old.state ≡ State.Open }
        ensures heard { Writes self.old bytes.now result self.new }
        ensures told { IsToldBy D.inside D.failures D.taken D.given D.IsTold self.old self.new (DeviceCall.Wrote bytes.now result) }
    {
        match self.device.write(bytes) {
            Did::Done => {
                // there are no more rows and columns than bytes that were taken, which lie in memory: so none of the two overflows
                let _bytes_taken = self.device.taken().len(); // for the proof
                self.cursor = self.cursor.behind(bytes);
                Did::Done
            }
            Did::Failed => {
                self.state = State::Failed;
                Did::Failed
            }
            Did::Memory => Did::Memory,
        }
    }

    /// Reads a line: the rest of one that was begun, else the device's next. Want of memory loses nothing of a rest.
    pub fn line(&mut self) -> Input
        requires { self.old.state ≡ State.Open }
        ensures heard { Lines self.old self.old.rest result self.new }
        ensures told { self.old.rest ≡ None → IsToldBy D.inside D.failures D.taken D.given D.IsTold self.old self.new (DeviceCall.Gave result) }
    {
        if self.rest.is_begun() {
            return self.rest.take_line();
        }
        let input = self.device.read();
        if let Input::Failed = input {
            self.state = State::Failed;
        }
        input
    }

    /// Reads a byte's code: of a line that was begun, else of the device's next. At a line's end it is 10.
    pub fn byte(&mut self) -> Code
        requires { self.old.state ≡ State.Open }
        ensures heard { Bytes self.old self.old.rest result self.new }
        ensures told { self.old.rest ≡ None → IsToldCodeBy D.inside D.failures D.taken D.given D.IsTold self.old self.new result }
    {
        if !self.rest.is_begun() {
            match self.device.read() {
                Input::Line(line) => {
                    self.rest = Rest::whole(line);
                }
                Input::End => return Code::End,
                Input::NotYet => return Code::NotYet,
                Input::Failed => {
                    self.state = State::Failed;
                    return Code::Failed;
                }
                Input::Memory => return Code::Memory,
            }
        }
        self.rest.take_byte()
    }

    /// Ends the device, which comes back to be dropped. It has one failure more exactly where the end failed.
    pub fn end(self) -> (Did, D)
        ensures answered { IsAnswered result.0 }
        ensures protocol { GoesToEnd self result.0 }
        ensures device { DeviceEnds self result.0 (D.failures result.1) (D.taken result.1) (D.given result.1) }
        ensures told { D.IsTold result.1 self.inside (DeviceCall.Over result.0) }
    {
        let Session { mut device, .. } = self;
        let did = device.end();
        (did, device)
    }
}
