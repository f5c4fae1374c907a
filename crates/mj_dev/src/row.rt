// The devices of one name.

ghost use Rattle.std.specs.Prelude.{◌≡◌, ◌+◌, ◌<◌, ◌^◌, length, IfOk, IfErr, OnOk, OnErr, IfSome, IfNone};
ghost use Rattle.mj_dev.specs.Heard.{IsFresh, IsNew};
ghost use Rattle.mj_dev.specs.Shelves.{new_shelf, one_more, shelf_of, more_by, one_taken, is_before, is_named, count_of};

use crate::blank::Blank;
use crate::device::Device;
use crate::session::Session;
use mj_text::Text;
use std::alloc::{AllocError, Global};
use std::collections::VecDeque;
use std::marker::Model;

// The most devices that a name may have, all together.
const ROW_LIMIT: u32 = u32::MAX;

// A name, its devices that no session has yet in order of adding, and how many were taken.
#[derive(Drop)]
pub struct Row<D: Device> {
    name: Text,
    waiting: VecDeque<D>,
    taken: u32,
}

impl<D: Device> Model for Row<D> {
    ghost use Rattle.std.specs.Prelude.{◌+◌, ◌<◌, ◌^◌, length, All};
    ghost use Rattle.mj_dev.specs.Heard.{IsFresh};
    ghost use Rattle.mj_dev.specs.Shelves.{Shelf};

    ghost Value = { Shelf };

    ghost view = { λ r. record {
      name = r.name;
      left = length r.waiting.items;
      taken = r.taken;
    } };

    ghost invariant = { λ r.
        record {
          few : length r.waiting.items + r.taken < 2 ^ 32;
          fresh : All (λ d. IsFresh (D.failures d) (D.taken d) (D.given d)) r.waiting.items;
        } };
}

impl<D: Device> Row<D> {
    // A name with its first device, which comes back for want of memory.
    pub fn new(alloc: Global, name: &Text, device: D) -> Result<Row<D>, D>
        requires { IsFresh (D.failures device) (D.taken device) (D.given device) }
        ensures ok { IfOk result (λ row. row ≡ new_shelf name.now) }
        ensures back { IfErr result (λ d. d ≡ device) }
    {
        let Ok(name) = name.try_clone() else {
            return Err(device);
        };
        let mut waiting = VecDeque::new(alloc);
        if waiting.reserve(1).is_err() {
            return Err(device);
        }
        waiting.push_back_reserved(device);
        Ok(Row {
            name,
            waiting,
            taken: 0,
        })
    }

    // Adds a device, which comes back for want of memory, or where the name has as many as it may have.
    pub fn add(&mut self, device: D) -> Result<(), D>
        requires { IsFresh (D.failures device) (D.taken device) (D.given device) }
        ensures added { OnOk result (self.new ≡ one_more self.old) }
        ensures kept { OnErr result (self.new ≡ self.old) }
        ensures back { IfErr result (λ d. d ≡ device) }
    {
        if self.count() == ROW_LIMIT || self.waiting.reserve(1).is_err() {
            return Err(device);
        }
        self.waiting.push_back_reserved(device);
        Ok(())
    }

    // A session with the first device, which leaves the row.
    pub fn take(&mut self) -> Option<Session<D>>
        ensures none { IfNone result (self.old.left ≡ 0) }
        ensures kept { IfNone result (self.new ≡ self.old) }
        ensures some { IfSome result (λ _. 0 < self.old.left) }
        ensures taken { IfSome result (λ _. self.new ≡ one_taken self.old) }
        ensures new { IfSome result (λ session. IsNew session) }
    {
        let device = self.waiting.pop_front()?;
        self.taken += 1;
        Some(Session::new(device))
    }

    // Whether the row has this name.
    pub fn is_named(&self, name: &Text) -> bool
        ensures { result ≡ is_named name.now self.now }
    {
        self.name == *name
    }

    // Whether the row's name comes before this one.
    pub fn is_before(&self, name: &Text) -> bool
        ensures { result ≡ is_before self.now.name name.now }
    {
        self.name.cmp_bytes(name).is_lt()
    }

    // How many devices no session has yet.
    pub fn left(&self) -> u32
        ensures { result ≡ self.now.left }
    {
        self.waiting.len() as u32
    }

    // How many devices were taken.
    pub fn taken(&self) -> u32
        ensures { result ≡ self.now.taken }
    {
        self.taken
    }

    // How many devices there are, those that were taken among them.
    pub fn count(&self) -> u32
        ensures { result ≡ self.now.left + self.now.taken }
    {
        self.waiting.len() as u32 + self.taken
    }

    // The name with that number.
    pub fn named_count(&self) -> Result<(Text, u32), AllocError>
        ensures { IfOk result (λ count. count ≡ count_of self.now) }
    {
        Ok((self.name.try_clone()?, self.count()))
    }
}

impl Row<Blank> {
    // A name with so many devices.
    pub fn of(alloc: Global, name: &Text, count: u32) -> Result<Row<Blank>, AllocError>
        ensures { IfOk result (λ row. row ≡ shelf_of count name.now) }
    {
        Ok(Row {
            name: name.try_clone()?,
            waiting: blanks(alloc, count)?,
            taken: 0,
        })
    }

    // Adds so many devices at once; `Err` for want of memory, or where the name would have more than it may have.
    pub fn add_many(&mut self, alloc: Global, count: u32) -> Result<(), AllocError>
        ensures added { OnOk result (self.new ≡ more_by count self.old) }
        ensures kept { OnErr result (self.new ≡ self.old) }
    {
        if ROW_LIMIT - self.count() < count {
            return Err(AllocError);
        }
        self.waiting = blanks(alloc, self.left() + count)?;
        Ok(())
    }
}

// So many devices, which take no memory: the compiler sees that no loop is needed to make them or to drop them.
fn blanks(alloc: Global, count: u32) -> Result<VecDeque<Blank>, AllocError>
    ensures { IfOk result (λ devices. length devices.items ≡ count) }
{
    let mut devices = Vec::new(alloc);
    devices.resize(count as usize, Blank)?;
    Ok(VecDeque::from_vec(devices))
}
