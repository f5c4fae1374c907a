// The devices that no job has yet.

ghost use Rattle.std.specs.Prelude.{◌≡◌, ◌≤◌, ◌<◌, ◌↔◌, [], map, length, position, IsTrue, IfOk, IfErr, IfSome, IfNone, OnOk, OnErr};
ghost use Rattle.mj_dev.specs.Heard.{IsFresh, IsNew};
ghost use Rattle.mj_dev.specs.Shelves.{Shelf, AreRising, added, after_take, left_of, taken_of, count_of, principal, is_named, is_behind, IsThere, Belongs};
ghost use Rattle.mj_dev.specs.Pools.{with_more};

use crate::blank::Blank;
use crate::device::Device;
use crate::row::Row;
use crate::session::Session;
use mj_text::Text;
use std::alloc::{AllocError, Global};
use std::marker::Model;

/// Devices by name, those of one name in order of adding, of which nothing was asked yet. Contracts see each name once, in order of bytes, with
/// how many of its devices are left and how many were taken.
#[derive(Drop)]
pub struct Pool<D: Device> {
    alloc: Global,
    rows: Vec<Row<D>>,
}

impl<D: Device> Model for Pool<D> {
    ghost use Rattle.std.specs.Prelude.{List};
    ghost use Rattle.mj_dev.specs.Shelves.{Shelf, AreRising};

    ghost Value = { List Shelf };

    ghost view = { λ p. p.rows.items };

    ghost invariant = { λ p. AreRising p.rows.items };
}

impl<D: Device> Pool<D> {
    /// No devices.
    pub fn new(alloc: Global) -> Pool<D>
        ensures { result ≡ [] }
    {
        Pool {
            alloc,
            rows: Vec::new(alloc),
        }
    }

    /// Adds a device of which nothing was asked yet. It comes back for want of memory, or where the name has 4,294,967,295 already.
    pub fn add(&mut self, name: &Text, device: D) -> Result<(), D>
        requires { IsFresh (D.failures device) (D.taken device) (D.given device) }
        ensures added { OnOk result (self.new ≡ added name.now self.old) }
        ensures kept { OnErr result (self.new ≡ self.old) }
        ensures back { IfErr result (λ d. d ≡ device) }
    {
        match place_for(self.rows.as_slice(), name) {
            Ok(place) => {
                let row = &mut self.rows[place];
                row.add(device)
            }
            Err(place) => {
                if self.rows.reserve(1).is_err() {
                    return Err(device);
                }
                let row = Row::new(self.alloc, name, device)?;
                match self.rows.insert(place, row) {
                    Ok(()) => Ok(()),
                    Err(_) => unreachable!(),
                }
            }
        }
    }

    /// A session with the first device of a name that is left, which leaves the pool. There is none where none is left, as of an unknown name.
    pub fn take(&mut self, name: &Text) -> Option<Session<D>>
        ensures none { IfNone result (left_of name.now self.old ≡ 0) }
        ensures kept { IfNone result (self.new ≡ self.old) }
        ensures some { IfSome result (λ _. 0 < left_of name.now self.old) }
        ensures taken { IfSome result (λ _. self.new ≡ after_take name.now self.old) }
        ensures new { IfSome result (λ session. IsNew session) }
    {
        let place = place_of(self.rows.as_slice(), name)?;
        let row = &mut self.rows[place];
        row.take()
    }

    /// How many devices of a name are left.
    pub fn left(&self, name: &Text) -> u32
        ensures { result ≡ left_of name.now self.now }
    {
        match place_of(self.rows.as_slice(), name) {
            Some(place) => self.rows[place].left(),
            None => 0,
        }
    }

    /// How many devices of a name were taken.
    pub fn taken(&self, name: &Text) -> u32
        ensures { result ≡ taken_of name.now self.now }
    {
        match place_of(self.rows.as_slice(), name) {
            Some(place) => self.rows[place].taken(),
            None => 0,
        }
    }

    /// Whether as many jobs can start: each takes a device of the name `0`.
    pub fn fits(&self, jobs: u32) -> bool
        ensures { IsTrue result ↔ (jobs ≤ left_of principal self.now) }
    {
        jobs <= self.left(&Text::from_number(self.alloc, 0))
    }

    /// How many names there are.
    pub fn len(&self) -> usize
        ensures { result ≡ length self.now }
    {
        self.rows.len()
    }

    /// Where a name stands among the names. It stays there as long as none is added.
    pub fn place(&self, name: &Text) -> Option<usize>
        ensures { result ≡ position (is_named name.now) self.now }
    {
        place_of(self.rows.as_slice(), name)
    }

    /// Each name with the number of all its devices, those that were taken among them, in order of the names by bytes.
    pub fn counts(&self) -> Result<Vec<(Text, u32)>, AllocError>
        ensures counts { IfOk result (λ counts. counts.items ≡ map count_of self.now) }
        ensures rising { AreRising self.now }
    {
        let mut counts = Vec::with_capacity(self.alloc, self.rows.len())?;
        for row in &self.rows {
            counts.push(row.named_count()?)?;
        }
        Ok(counts)
    }
}

impl Pool<Blank> {
    // Adds so many devices of a name at once, in a time that doesn't grow with their number; `Err` for want of memory, or of room for so many of the name.
    pub(crate) fn add_many(&mut self, name: &Text, count: u32) -> Result<(), AllocError>
        ensures added { OnOk result (self.new ≡ with_more count name.now self.old) }
        ensures kept { OnErr result (self.new ≡ self.old) }
    {
        if count == 0 {
            return Ok(());
        }
        match place_for(self.rows.as_slice(), name) {
            Ok(place) => {
                let row = &mut self.rows[place];
                row.add_many(self.alloc, count)
            }
            Err(place) => {
                if self.rows.reserve(1).is_err() {
                    return Err(AllocError);
                }
                let row = Row::of(self.alloc, name, count)?;
                match self.rows.insert(place, row) {
                    Ok(()) => Ok(()),
                    Err(_) => unreachable!(),
                }
            }
        }
    }
}

// Where the row of a name stands.
fn place_of<D: Device>(rows: &[Row<D>], name: &Text) -> Option<usize>
    ensures { result ≡ position (is_named name.now) rows.now }
{
    rows.iter().position(|row| row.is_named(name))
}

// Where the row of a name stands, or else where it belongs.
fn place_for<D: Device>(rows: &[Row<D>], name: &Text) -> Result<usize, usize>
    ensures there { IfOk result (λ place. IsThere name.now rows.now place) }
    ensures absent { IfErr result (λ place. Belongs name.now rows.now place) }
{
    match first_behind(rows, name) {
        Some(place) => {
            if rows[place].is_named(name) {
                Ok(place)
            } else {
                Err(place)
            }
        }
        None => Err(rows.len()),
    }
}

// The first row whose name doesn't come before this one.
fn first_behind<D: Device>(rows: &[Row<D>], name: &Text) -> Option<usize>
    ensures { result ≡ position (is_behind name.now) rows.now }
{
    rows.iter().position(|row| !row.is_before(name))
}
