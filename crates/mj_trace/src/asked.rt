// What a job asked is found in a line.

ghost use Rattle.std.specs.Prelude.{◌≡◌, Some, IfOk};
ghost use Rattle.std.specs.Option.{option_map};
ghost use Rattle.mj_trace.specs.Reading.{timeout_in, start_in, fault_of, halt_in, way_of, access_with, access_in, begin_in, unlock_in, try_in, open_in};
ghost use Rattle.mj_trace.specs.Reading.{close_in, shared_with, device_with, device_in, on_device, rest_in, ask_with, ask_in};

use crate::devices::timed_ask;
use crate::found::{Found, find_text, read_count, read_number};
use crate::members::{find_names, find_shared_name, find_subtree, find_values};
use crate::run::{Run, begins_with, skip, split};
use mj_ask::{Ask, BoxedStart, DeviceAsk, Entry, Kind, SharedAsk, Start};
use mj_num::Num;
use mj_store::{Access, Direction};
use mj_subs::SharedName;
use mj_text::Fault;
use std::alloc::{AllocError, Global};

/// Finds the ask at the front.
pub(crate) fn find_ask<'a>(alloc: Global, bytes: &'a [u8]) -> Result<Found<'a, Ask>, AllocError>
    ensures { IfOk result (λ r. option_map (λ p. (p.0, p.1.now)) r ≡ ask_in bytes.now) }
{
    let (word, rest) = split(bytes, Run::Letters);
    find_ask_with(alloc, word, rest)
}

// Finds the ask with this word.
fn find_ask_with<'a>(
    alloc: Global,
    word: &[u8],
    rest: &'a [u8],
) -> Result<Found<'a, Ask>, AllocError>
    ensures { IfOk result (λ r. option_map (λ p. (p.0, p.1.now)) r ≡ ask_with word.now rest.now) }
{
    if word == b"dev".as_slice() {
        find_device(alloc, skip(rest))
    } else if word == b"rest".as_slice() {
        Ok(find_rest(skip(rest)))
    } else {
        match find_shared(alloc, word, rest)? {
            Some((ask, behind)) => Ok(Some((Ask::Shared(ask), behind))),
            None => Ok(None),
        }
    }
}

// Finds what is asked of what all jobs share, which has this word.
fn find_shared<'a>(
    alloc: Global,
    word: &[u8],
    rest: &'a [u8],
) -> Result<Found<'a, SharedAsk>, AllocError>
    ensures { IfOk result (λ r. option_map (λ p. (p.0, p.1.now)) r ≡ shared_with word.now rest.now) }
{
    if word == b"try".as_slice() {
        find_try(alloc, skip(rest))
    } else if word == b"unlock".as_slice() {
        find_unlock(alloc, skip(rest))
    } else if word == b"begin".as_slice() {
        let (kind, behind) = split(skip(rest), Run::Letters);
        Ok(Some(begin_of(rest, kind, behind)))
    } else if word == b"commit".as_slice() {
        Ok(Some((SharedAsk::Commit, rest)))
    } else if word == b"rollback".as_slice() {
        Ok(Some((SharedAsk::Rollback, rest)))
    } else if word == b"open".as_slice() {
        find_open(alloc, skip(rest))
    } else if word == b"close".as_slice() {
        find_close(alloc, skip(rest))
    } else if word == b"start".as_slice() {
        find_start(alloc, skip(rest))
    } else if word == b"halt".as_slice() {
        Ok(find_halt(rest))
    } else {
        find_access(alloc, word, skip(rest))
    }
}

// Reads the timeout at the front, if there is one, and gives what follows it.
fn read_timeout(bytes: &[u8]) -> (Option<Num>, &[u8])
    ensures { (result.0, result.1.now) ≡ timeout_in bytes.now }
{
    if !begins_with(b':', skip(bytes)) {
        return (None, bytes);
    }
    match read_number(skip(skip(bytes))) {
        Some((number, rest)) => (Some(number), rest),
        None => (None, bytes),
    }
}

// Finds an ask of a device: its name, and what is asked of it.
fn find_device<'a>(alloc: Global, bytes: &'a [u8]) -> Result<Found<'a, Ask>, AllocError>
    ensures { IfOk result (λ r. option_map (λ p. (p.0, p.1.now)) r ≡ on_device bytes.now) }
{
    let Some((device, behind)) = find_text(alloc, bytes)? else {
        return Ok(None);
    };
    match find_device_ask(alloc, skip(behind))? {
        Some((ask, rest)) => Ok(Some((Ask::Device(device, ask), rest))),
        None => Ok(None),
    }
}

// Finds what is asked of a session of a device.
fn find_device_ask<'a>(alloc: Global, bytes: &'a [u8]) -> Result<Found<'a, DeviceAsk>, AllocError>
    ensures { IfOk result (λ r. option_map (λ p. (p.0, p.1.now)) r ≡ device_in bytes.now) }
{
    let (word, rest) = split(bytes, Run::Letters);
    find_device_ask_with(alloc, word, rest)
}

// Finds what is asked of a session of a device by this word.
fn find_device_ask_with<'a>(
    alloc: Global,
    word: &[u8],
    rest: &'a [u8],
) -> Result<Found<'a, DeviceAsk>, AllocError>
    ensures { IfOk result (λ r. option_map (λ p. (p.0, p.1.now)) r ≡ device_with word.now rest.now) }
{
    if word == b"write".as_slice() {
        return match find_text(alloc, skip(rest))? {
            Some((text, behind)) => Ok(Some((DeviceAsk::Write(text), behind))),
            None => Ok(None),
        };
    }
    let (timeout, behind) = read_timeout(rest);
    match timed_ask(word, timeout) {
        Some(ask) => Ok(Some((ask, behind))),
        None => Ok(None),
    }
}

// Finds the names to take.
fn find_try<'a>(alloc: Global, bytes: &'a [u8]) -> Result<Found<'a, SharedAsk>, AllocError>
    ensures { IfOk result (λ r. option_map (λ p. (p.0, p.1.now)) r ≡ try_in bytes.now) }
{
    let Some((names, behind)) = find_names(alloc, bytes)? else {
        return Ok(None);
    };
    let (timeout, rest) = read_timeout(behind);
    Ok(Some((SharedAsk::Try(names, timeout), rest)))
}

// Finds the names to give up, or that it is all.
fn find_unlock<'a>(alloc: Global, bytes: &'a [u8]) -> Result<Found<'a, SharedAsk>, AllocError>
    ensures { IfOk result (λ r. option_map (λ p. (p.0, p.1.now)) r ≡ unlock_in bytes.now) }
{
    if begins_with(b'*', bytes) {
        return Ok(Some((SharedAsk::UnlockAll, skip(bytes))));
    }
    match find_names(alloc, bytes)? {
        Some((names, rest)) => Ok(Some((SharedAsk::Unlock(names), rest))),
        None => Ok(None),
    }
}

// Tells by the word behind it which transaction begins, and gives what follows.
fn begin_of<'a>(rest: &'a [u8], word: &[u8], behind: &'a [u8]) -> (SharedAsk, &'a [u8])
    ensures { Some (result.0, result.1.now) ≡ begin_in rest.now word.now behind.now }
{
    if word == b"serial".as_slice() {
        (SharedAsk::Begin(Kind::Serial), behind)
    } else {
        (SharedAsk::Begin(Kind::Plain), rest)
    }
}

// Finds a device that is opened.
fn find_open<'a>(alloc: Global, bytes: &'a [u8]) -> Result<Found<'a, SharedAsk>, AllocError>
    ensures { IfOk result (λ r. option_map (λ p. (p.0, p.1.now)) r ≡ open_in bytes.now) }
{
    let Some((device, behind)) = find_text(alloc, bytes)? else {
        return Ok(None);
    };
    let (timeout, rest) = read_timeout(behind);
    Ok(Some((SharedAsk::Open(device, timeout), rest)))
}

// Finds a device that is closed.
fn find_close<'a>(alloc: Global, bytes: &'a [u8]) -> Result<Found<'a, SharedAsk>, AllocError>
    ensures { IfOk result (λ r. option_map (λ p. (p.0, p.1.now)) r ≡ close_in bytes.now) }
{
    match find_text(alloc, bytes)? {
        Some((device, rest)) => Ok(Some((SharedAsk::Close(device), rest))),
        None => Ok(None),
    }
}

// Finds the start of another job.
fn find_start<'a>(alloc: Global, bytes: &'a [u8]) -> Result<Found<'a, SharedAsk>, AllocError>
    ensures { IfOk result (λ r. option_map (λ p. (p.0, p.1.now)) r ≡ start_in bytes.now) }
{
    let (entry, behind) = split(bytes, Run::Filled);
    let Some(entry) = Entry::read(alloc, entry)? else {
        return Ok(None);
    };
    match find_values(alloc, skip(behind)) {
        Ok(Some((values, more))) => {
            let (timeout, rest) = read_timeout(more);
            let start = Start::new(entry, values.into_list());
            let boxed = BoxedStart::new(alloc, start)?;
            Ok(Some((SharedAsk::Start(boxed, timeout), rest)))
        }
        Ok(None) => {
            drop(entry);
            Ok(None)
        }
        Err(refused) => {
            drop(entry);
            Err(refused)
        }
    }
}

// Finds seconds to wait.
fn find_rest(bytes: &[u8]) -> Found<'_, Ask>
    ensures { option_map (λ p. (p.0, p.1.now)) result ≡ rest_in bytes.now }
{
    match read_number(bytes) {
        Some((seconds, rest)) => Some((Ask::Rest(seconds), rest)),
        None => None,
    }
}

// Finds the end of a job.
fn find_halt(bytes: &[u8]) -> Found<'_, SharedAsk>
    ensures { option_map (λ p. (p.0, p.1.now)) result ≡ halt_in bytes.now }
{
    if !begins_with(b'F', skip(bytes)) {
        return Some((SharedAsk::Halt(None), bytes));
    }
    let Some((code, rest)) = read_count(skip(skip(bytes))) else {
        return None;
    };
    match fault_of(code) {
        Some(fault) => Some((SharedAsk::Halt(Some(fault)), rest)),
        None => None,
    }
}

// Gives the fault of this number.
fn fault_of(code: u32) -> Option<Fault>
    ensures { result ≡ fault_of code }
{
    match code {
        1 => Some(Fault::Undefined),
        2 => Some(Fault::Divide),
        3 => Some(Fault::Fraction),
        4 => Some(Fault::Range),
        5 => Some(Fault::Length),
        6 => Some(Fault::Subscript),
        7 => Some(Fault::Select),
        8 => Some(Fault::NoLine),
        9 => Some(Fault::Quit),
        10 => Some(Fault::QuitInTransaction),
        11 => Some(Fault::NoTransaction),
        12 => Some(Fault::NoRestart),
        13 => Some(Fault::InTransaction),
        14 => Some(Fault::Overlap),
        15 => Some(Fault::NoDevice),
        16 => Some(Fault::Device),
        17 => Some(Fault::Depth),
        18 => Some(Fault::Limit),
        19 => Some(Fault::Steps),
        20 => Some(Fault::ForIndex),
        21 => Some(Fault::Char),
        22 => Some(Fault::Params),
        _ => None,
    }
}

// Finds an access, whose word stands before.
fn find_access<'a>(
    alloc: Global,
    word: &[u8],
    bytes: &'a [u8],
) -> Result<Found<'a, SharedAsk>, AllocError>
    ensures { IfOk result (λ r. option_map (λ p. (p.0, p.1.now)) r ≡ access_in word.now bytes.now) }
{
    let Some((name, behind)) = find_shared_name(alloc, bytes)? else {
        return Ok(None);
    };
    match find_access_with(alloc, word, name, behind)? {
        Some((access, rest)) => Ok(Some((SharedAsk::Access(access), rest))),
        None => Ok(None),
    }
}

// Finds the access with this word.
fn find_access_with<'a>(
    alloc: Global,
    word: &[u8],
    name: SharedName,
    rest: &'a [u8],
) -> Result<Found<'a, Access>, AllocError>
    ensures { IfOk result (λ r. option_map (λ p. (p.0, p.1.now)) r ≡ access_with word.now name rest.now) }
{
    if word == b"value".as_slice() {
        Ok(Some((Access::Value(name), rest)))
    } else if word == b"data".as_slice() {
        Ok(Some((Access::Data(name), rest)))
    } else if word == b"query".as_slice() {
        Ok(Some((Access::Query(name), rest)))
    } else if word == b"subtree".as_slice() {
        Ok(Some((Access::Subtree(name), rest)))
    } else if word == b"kill".as_slice() {
        Ok(Some((Access::Kill(name), rest)))
    } else if word == b"order".as_slice() {
        match read_number(skip(rest)) {
            Some((way, behind)) => Ok(Some((Access::Order(name, way_of(way)), behind))),
            None => {
                drop(name);
                Ok(None)
            }
        }
    } else if word == b"set".as_slice() {
        match find_text(alloc, skip(rest)) {
            Ok(Some((text, behind))) => Ok(Some((Access::Set(name, text), behind))),
            Ok(None) => {
                drop(name);
                Ok(None)
            }
            Err(refused) => {
                drop(name);
                Err(refused)
            }
        }
    } else if word == b"put".as_slice() {
        match find_subtree(alloc, skip(rest)) {
            Ok(Some((nodes, behind))) => Ok(Some((Access::Put(name, nodes), behind))),
            Ok(None) => {
                drop(name);
                Ok(None)
            }
            Err(refused) => {
                drop(name);
                Err(refused)
            }
        }
    } else {
        drop(name);
        Ok(None)
    }
}

// Gives the direction of a search.
fn way_of(number: Num) -> Direction
    ensures { result ≡ way_of number }
{
    if number.value() < 0 {
        Direction::Backward
    } else {
        Direction::Forward
    }
}
