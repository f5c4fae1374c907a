// The open devices.

ghost use Rattle.std.specs.Prelude.{◌≡◌, ◌+◌, ◌*◌, ◌≤◌, ◌<◌, ◌^◌, ◌∷◌, [], false, length, position, slice_get, IfOk, IfSome, OnOk, OnErr};
ghost use Rattle.std.specs.Str.{bytes_eq};
ghost use Rattle.mj_text.specs.declared.text.TheConstants.{TEXT_LIMIT};
ghost use Rattle.mj_semantics.specs.State as states;
ghost use Rattle.mj_open_devices.specs.Opened.{alone, after_write, after_fail, after_add, after_drop, after_leave, after_use, is_named, spot_at, went, writes_limit};

use crate::column::{are_plain, column_after, row_after};
use mj_text::{Digits, Text};
use std::alloc::{AllocError, Global};
use std::marker::Model;

/// The name of the principal device.
pub fn principal(alloc: Global) -> Text
    ensures { result ≡ states.principal }
{
    Text::from_number(alloc, 0)
}

// Whether it is that name.
fn is_principal(name: &Text) -> bool
    ensures { result ≡ bytes_eq states.principal name.now }
{
    b"0".as_slice() == name.bytes(&mut Digits::new())
}

// A device: `$X` and `$Y` there, and whether a call of its session failed.
#[derive(Clone, Copy, Drop)]
struct Spot {
    column: u64,
    row: u64,
    failed: bool,
}

impl Spot {
    // As a job finds it.
    fn new() -> Spot
        ensures { result ≡ record { column = 0; row = 0; failed = false } }
    {
        Spot {
            column: 0,
            row: 0,
            failed: false,
        }
    }

    // As these bytes leave it.
    fn go(&mut self, bytes: &[u8])
        requires column { self.old.column + length bytes.now < 2 ^ 64 }
        requires row { self.old.row + length bytes.now < 2 ^ 64 }
        ensures value { self.new ≡ went bytes.now self.old }
        ensures bound { (self.new.column ≤ self.old.column + length bytes.now) × (self.new.row ≤ self.old.row + length bytes.now) }
    {
        if are_plain(bytes) {
            self.column += bytes.len() as u64;
            return;
        }
        self.column = column_after(self.column, bytes);
        self.row = row_after(self.row, bytes);
    }
}

// A device beside the principal one.
#[derive(Drop)]
struct Other {
    name: Text,
    spot: Spot,
}

/// The devices that a job has open, and which is the current one.
#[derive(Drop)]
pub struct Devices {
    principal: Spot,
    // in order of opening
    others: Vec<Other>,
    // the name of the current one, where it isn't the principal one
    current: Option<Text>,
    writes: u64,
}

impl Model for Devices {
    ghost use Rattle.mj_open_devices.specs.Opened.{Opened, opened_by, IsWithinWrites};

    ghost Value = { Opened };

    ghost view = { λ d. opened_by d.principal d.others.items d.current d.writes };

    ghost invariant = { λ d. IsWithinWrites d.principal d.others.items d.current d.writes };
}

impl Devices {
    /// The principal device alone, as a job finds it. It takes no memory.
    pub fn new(alloc: Global) -> Devices
        ensures { result ≡ record { devices = states.untouched ∷ []; current = states.principal; writes = 0 } }
    {
        Devices {
            principal: Spot::new(),
            others: Vec::new(alloc),
            current: None,
            writes: 0,
        }
    }

    /// The name of the current one.
    pub fn current(&self, alloc: Global) -> Result<Text, AllocError>
        ensures { IfOk result (λ name. name ≡ self.now.current) }
    {
        match &self.current {
            None => Ok(principal(alloc)),
            Some(name) => name.try_clone(),
        }
    }

    /// How many are open, the principal one among them.
    pub fn len(&self) -> usize
        ensures { result ≡ length self.now.devices }
    {
        self.others.len() + 1
    }

    /// Whether the job has a device of this name open.
    pub fn has(&self, name: &Text) -> bool
        ensures { result ≡ states.is_open name.now (alone self.now) }
    {
        is_principal(name) || place(&self.others, name).is_some()
    }

    /// Whether the job may close the device of this name.
    pub fn may_close(&self, name: &Text) -> bool
        ensures { result ≡ states.may_close name.now (alone self.now) }
    {
        !is_principal(name) && place(&self.others, name).is_some()
    }

    /// `$X` at the current one.
    pub fn column(&self) -> u64
        ensures value { result ≡ states.column_at self.now.current (alone self.now) }
        ensures bound { result ≤ TEXT_LIMIT * self.now.writes }
    {
        self.current_spot().column
    }

    /// `$Y` at the current one.
    pub fn row(&self) -> u64
        ensures value { result ≡ states.row_at self.now.current (alone self.now) }
        ensures bound { result ≤ TEXT_LIMIT * self.now.writes }
    {
        self.current_spot().row
    }

    // What the current one is like; as untouched where it isn't open.
    fn current_spot(&self) -> Spot
        ensures value { result ≡ spot_at self.now.current self.now.devices }
        ensures bound { (result.column ≤ TEXT_LIMIT * self.now.writes) × (result.row ≤ TEXT_LIMIT * self.now.writes) }
    {
        match &self.current {
            None => self.principal,
            Some(name) => match place(&self.others, name) {
                None => Spot::new(),
                Some(at) => self.others[at].spot,
            },
        }
    }

    /// Whether a call of the principal device's session failed.
    pub fn principal_failed(&self) -> bool
        ensures { result ≡ states.has_failed states.principal (alone self.now) }
    {
        self.principal.failed
    }

    /// `$X` at the principal device.
    pub fn principal_column(&self) -> u64
        ensures { result ≡ states.column_at states.principal (alone self.now) }
    {
        self.principal.column
    }

    /// The name of the device that ends behind so many others, where the job ends, if there is one: the principal one ends last.
    pub fn ending(&self, alloc: Global, done: usize) -> Result<Option<Text>, AllocError>
        ensures name { IfOk result (λ name. name ≡ slice_get (states.ending_order self.now.devices) done) }
        ensures bound { IfOk result (λ name. IfSome name (λ _. done + 1 < 2 ^ 64)) }
    {
        if done == self.others.len() {
            return Ok(Some(principal(alloc)));
        }
        match self.others.get(done) {
            Some(other) => Ok(Some(other.name.try_clone()?)),
            None => Ok(None),
        }
    }

    /// These bytes were written to the current one.
    pub fn write(&mut self, bytes: &[u8])
        requires short { length bytes.now ≤ TEXT_LIMIT }
        requires more { self.old.writes < writes_limit }
        ensures { self.new ≡ after_write bytes.now self.old }
    {
        self.writes += 1;
        match &self.current {
            None => self.principal.go(bytes),
            Some(name) => {
                if let Some(at) = place(&self.others, name) {
                    let other = &mut self.others[at];
                    other.spot.go(bytes);
                }
            }
        }
    }

    /// A call of the current one's session failed.
    pub fn fail_current(&mut self)
        ensures { self.new ≡ after_fail self.old.current self.old }
    {
        match &self.current {
            None => self.principal.failed = true,
            Some(name) => {
                if let Some(at) = place(&self.others, name) {
                    let other = &mut self.others[at];
                    other.spot.failed = true;
                }
            }
        }
    }

    /// A call of the session of the device of this name failed.
    pub fn fail(&mut self, name: &Text)
        ensures { self.new ≡ after_fail name.now self.old }
    {
        if is_principal(name) {
            self.principal.failed = true;
            return;
        }
        if let Some(at) = place(&self.others, name) {
            let other = &mut self.others[at];
            other.spot.failed = true;
        }
    }

    /// A call of the principal one's session failed.
    pub fn fail_principal(&mut self)
        ensures { self.new ≡ after_fail states.principal self.old }
    {
        self.principal.failed = true;
    }

    /// One more device is open, the last in the order of opening.
    pub fn add(&mut self, name: Text) -> Result<(), AllocError>
        ensures ok { OnOk result (self.new ≡ after_add name self.old) }
        ensures err { OnErr result (self.new ≡ self.old) }
    {
        self.others.reserve(1)?;
        let spot = Spot::new();
        self.others.push_reserved(Other { name, spot });
        Ok(())
    }

    /// The device of this name isn't open any more; where it was the current one, the principal one is.
    pub fn remove(&mut self, name: &Text)
        requires apart { bytes_eq name.now states.principal ≡ false }
        ensures { self.new ≡ after_drop name.now self.old }
    {
        self.leave(name);
        self.others.retain(|other| other.name != *name);
    }

    // Where the device of this name is the current one, the principal one becomes it.
    fn leave(&mut self, name: &Text)
        requires apart { bytes_eq name.now states.principal ≡ false }
        ensures { self.new ≡ after_leave name.now self.old }
    {
        if self.is_current(name) {
            self.current = None;
        }
    }

    // Whether it is the name of the current one, which isn't the principal one.
    fn is_current(&self, name: &Text) -> bool
        requires apart { bytes_eq name.now states.principal ≡ false }
        ensures { result ≡ bytes_eq self.now.current name.now }
    {
        match &self.current {
            None => false,
            Some(current) => *current == *name,
        }
    }

    /// The device of this name becomes the current one.
    pub fn select(&mut self, name: Text)
        ensures { self.new ≡ after_use name self.old }
    {
        self.current = if is_principal(&name) {
            None
        } else {
            Some(name)
        };
    }
}

// Where the device of this name stands.
fn place(others: &[Other], name: &Text) -> Option<usize>
    ensures { result ≡ position (is_named name.now) others.now }
{
    others.iter().position(|other| other.name == *name)
}
