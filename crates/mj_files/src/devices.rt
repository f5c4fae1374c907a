// The devices of a run: a principal one for each job that there may be, and those that words name.

ghost use Rattle.std.specs.Prelude.{◌≡◌, ◌≢◌, ◌++◌, List, [], ℕ, IfOk, OnOk, IfSome, IfNone};
ghost use Rattle.mj_dev.specs.Heard.{IsFresh};
ghost use Rattle.mj_dev.specs.Shelves.{principal, added};
ghost use Rattle.mj_files.specs.Named.{side_text, IsDevice, IsNoDevice, names_of, with_principals, with_devices};
ghost use Rattle.mj_files.specs.Ported.{IsUntouched};

use crate::port::Port;
use mj_dev::{Device, Pool};
use mj_text::{Failure, Text};
use std::alloc::{AllocError, Global};
use std::rt::Files;

/// What a device does with its file.
#[derive(Clone, Copy)]
pub enum Side {
    /// it gives the lines of the file
    In,
    /// what is written to it goes to the file
    Out,
}

/// A device that a word names.
#[derive(Drop)]
pub struct Named<'a> {
    pub name: Text,
    pub side: Side,
    pub file: &'a str,
}

/// The device that a word names: its name, which isn't that of the principal ones, an `=`, `in:` or `out:`, and its file. There is none where the
/// word is no such one, or the name is longer than a text.
pub fn read_device<'a>(alloc: Global, word: &'a str) -> Result<Option<Named<'a>>, AllocError>
    ensures some { IfOk result (λ device. IfSome device (λ d. IsDevice word.now d.name d.side d.file.now)) }
    ensures none { IfOk result (λ device. IfNone device (IsNoDevice word.now)) }
{
    let Some((name, rest)) = word.split_once('=') else {
        return Ok(None);
    };
    let Some((side, file)) = sided(rest) else {
        return Ok(None);
    };
    if name == "0" {
        return Ok(None);
    }
    match Text::from(alloc, name.as_bytes()) {
        Ok(name) => Ok(Some(Named { name, side, file })),
        Err(Failure::Memory) => Err(AllocError),
        Err(Failure::Fault(_)) => Ok(None),
    }
}

// What a device does, and with which file.
fn sided(rest: &str) -> Option<(Side, &str)>
    ensures some { IfSome result (λ found. rest.now ≡ side_text found.0 ++ found.1.now) }
    ensures none { IfNone result ((side : Side) (file : List ℕ) → rest.now ≢ side_text side ++ file) }
{
    if let Some(file) = rest.strip_prefix("in:") {
        return Some((Side::In, file));
    }
    let file = rest.strip_prefix("out:")?;
    Some((Side::Out, file))
}

/// A pool of so many principal devices, of which the first gives the lines of this input, and of these devices, in order.
pub fn pool_of<R: Files + Copy + Drop>(
    alloc: Global,
    files: R,
    principals: u32,
    input: Vec<u8>,
    devices: &[Named<'_>],
) -> Result<Pool<Port<R>>, AllocError>
    ensures { IfOk result (λ pool. pool ≡ with_devices (names_of devices.now) (with_principals principals)) }
{
    let mut pool = Pool::new(alloc);
    add_principals(alloc, &mut pool, principals, input)?;
    'devices: for device in devices {
        let port = port_of(alloc, files, device)?;
        put(&mut pool, &device.name, port)?;
    }
    Ok(pool)
}

// Adds so many principal devices, of which the first gives the lines of this input.
fn add_principals<R: Files + Drop>(
    alloc: Global,
    pool: &mut Pool<Port<R>>,
    count: u32,
    input: Vec<u8>,
) -> Result<(), AllocError>
    requires none { pool.old ≡ [] }
    ensures added { OnOk result (pool.new ≡ with_principals count) }
{
    let name = Text::from_number(alloc, 0);
    let mut first = Some(input);
    'principals: for _ in 0..count {
        let lines = match first.take() {
            Some(input) => input,
            None => Vec::new(alloc),
        };
        put(pool, &name, Port::of_lines(alloc, lines))?;
    }
    Ok(())
}

/// Adds a device of this name, which nobody has talked to yet.
pub fn put<D: Device>(pool: &mut Pool<D>, name: &Text, device: D) -> Result<(), AllocError>
    requires { IsFresh (D.failures device) (D.taken device) (D.given device) }
    ensures { OnOk result (pool.new ≡ added name.now pool.old) }
{
    match pool.add(name, device) {
        Ok(()) => Ok(()),
        Err(device) => {
            drop(device); // for the proof
            Err(AllocError)
        }
    }
}

// A device over its file.
fn port_of<R: Files + Copy + Drop>(
    alloc: Global,
    files: R,
    device: &Named<'_>,
) -> Result<Port<R>, AllocError>
    ensures { IfOk result IsUntouched }
{
    let path = device.file.to_owned(alloc)?;
    Ok(match device.side {
        Side::In => Port::from_file(alloc, files, path),
        Side::Out => Port::to_file(alloc, files, path),
    })
}
