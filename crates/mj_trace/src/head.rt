// The lines of a trace are written. A trace is put into bytes that its writer keeps: first its opening, then each event.
#![tactic(auto, using(mj_gfile::proofs::Longer::begins_same, mj_gfile::proofs::Longer::begins_more, mj_gfile::proofs::Longer::begins_trans))]

ghost use Rattle.std.specs.Prelude.{◌≡◌, ◌++◌, ◌∷◌, [], true, ◌&&◌, if◌then◌else◌, is_ok, IfOk, OnOk};
ghost use Rattle.std.specs.List.{list_all};
ghost use Rattle.mj_gfile.specs.Begins.{HasFront};
ghost use Rattle.std.specs.Option.{option_copied};
ghost use Rattle.mj_trace.specs.Sized.{is_count, ask_fits, reply_fits, spot_fits, device_count_fits, event_fits};
ghost use Rattle.mj_trace.specs.Spelling.{spaced, ask_text, reply_text, told_text, spot_text, spot_part, event_text};
ghost use Rattle.mj_trace.specs.Trace.{limit_line, head_text, pool_line, pool_lines, start_lines, opening_text};

use crate::asks::put_ask;
use crate::fields::{put_count, put_entry};
use crate::form::{FIRST, Form, SECOND, limit_line};
use crate::replies::put_reply;
use mj_ask::{Ask, Entry, Reply, Spot};
use mj_gfile::put_text;
use mj_text::{Digits, Text};
use std::alloc::{AllocError, Global};

/// Puts what a trace has before its events to the end of some bytes: the lines of its form, one for each device with the number of its sessions, and one for
/// each start. Where memory is refused the bytes stay as they were. What is put is within the sizes of its values.
pub fn put_opening(
    alloc: Global,
    bytes: &mut Vec<u8>,
    form: Form,
    pool: &[(Text, u32)],
    starts: &[Entry],
) -> Result<(), AllocError>
    ensures text { bytes.new.items ≡ (if is_ok result then bytes.old.items ++ opening_text form pool.now starts.now else bytes.old.items) }
    ensures fits { OnOk result (list_all device_count_fits pool.now ≡ true) }
{
    let before = bytes.len();
    let put = add_opening(alloc, bytes, form, pool, starts);
    if put.is_err() {
        bytes.truncate(before);
    }
    put
}

// Puts what a trace has before its events to the end. After want of memory a part of it may stand there.
fn add_opening(
    alloc: Global,
    bytes: &mut Vec<u8>,
    form: Form,
    pool: &[(Text, u32)],
    starts: &[Entry],
) -> Result<(), AllocError>
    ensures ok { OnOk result (bytes.new.items ≡ bytes.old.items ++ opening_text form pool.now starts.now) }
    ensures kept { HasFront bytes.old.items bytes.new.items }
    ensures fits { OnOk result (list_all device_count_fits pool.now ≡ true) }
{
    put_head(bytes, form)?;
    put_pool(bytes, pool)?;
    put_starts(alloc, bytes, starts)
}

// Puts the lines that tell a form to the end.
fn put_head(bytes: &mut Vec<u8>, form: Form) -> Result<(), AllocError>
    ensures ok { OnOk result (bytes.new.items ≡ bytes.old.items ++ head_text form) }
    ensures kept { HasFront bytes.old.items bytes.new.items }
{
    match form {
        Form::First => {
            bytes.extend_from_slice(FIRST)?;
            bytes.push(b'\n')?;
        }
        Form::Second(limit) => {
            bytes.extend_from_slice(SECOND)?;
            bytes.push(b'\n')?;
            bytes.extend_from_slice(limit_line(limit))?;
            bytes.push(b'\n')?;
        }
    }
    Ok(())
}

// Puts the lines of devices to the end.
fn put_pool(bytes: &mut Vec<u8>, pool: &[(Text, u32)]) -> Result<(), AllocError>
    ensures ok { OnOk result (bytes.new.items ≡ bytes.old.items ++ pool_lines pool.now) }
    ensures kept { HasFront bytes.old.items bytes.new.items }
    ensures fits { OnOk result (list_all device_count_fits pool.now ≡ true) }
{
    for (device, count) in pool {
        put_device(bytes, device, *count)?;
        bytes.push(b'\n')?;
    }
    Ok(())
}

// Puts the line of a device to the end, without its byte 10.
pub(crate) fn put_device(bytes: &mut Vec<u8>, device: &Text, count: u32) -> Result<(), AllocError>
    ensures ok { OnOk result (bytes.new.items ≡ bytes.old.items ++ pool_line (device.now, count)) }
    ensures kept { HasFront bytes.old.items bytes.new.items }
    ensures fits { OnOk result (device_count_fits (device.now, count) ≡ true) }
{
    bytes.extend_from_slice(b"pool ")?;
    put_text(bytes, device)?;
    bytes.push(b' ')?;
    put_count(bytes, count)
}

// Puts the lines of starts to the end.
fn put_starts(alloc: Global, bytes: &mut Vec<u8>, starts: &[Entry]) -> Result<(), AllocError>
    ensures ok { OnOk result (bytes.new.items ≡ bytes.old.items ++ start_lines starts.now) }
    ensures kept { HasFront bytes.old.items bytes.new.items }
{
    for start in starts {
        put_entry(alloc, bytes, start)?;
        bytes.push(b'\n')?;
    }
    Ok(())
}

/// Puts an event to the end of some bytes: its line, and byte 10. Where memory is refused the bytes stay as they were. What is put is within the sizes of its
/// values.
pub fn put_event(
    alloc: Global,
    bytes: &mut Vec<u8>,
    form: Form,
    job: u32,
    spot: Option<&Spot>,
    ask: &Ask,
    reply: &Reply,
) -> Result<(), AllocError>
    ensures text { bytes.new.items ≡ (if is_ok result
        then bytes.old.items ++ (event_text form (record { job = job; spot = option_copied spot.entry; ask = ask.now; reply = reply.now }) ++ 10 ∷ [])
        else bytes.old.items) }
    ensures fits { OnOk result (event_fits (record { job = job; spot = option_copied spot.entry; ask = ask.now; reply = reply.now }) ≡ true) }
{
    let before = bytes.len();
    let put = add_event(alloc, bytes, form, job, spot, ask, reply);
    if put.is_err() {
        bytes.truncate(before);
    }
    put
}

// Puts an event to the end. After want of memory a part of it may stand there.
fn add_event(
    alloc: Global,
    bytes: &mut Vec<u8>,
    form: Form,
    job: u32,
    spot: Option<&Spot>,
    ask: &Ask,
    reply: &Reply,
) -> Result<(), AllocError>
    ensures ok { OnOk result (bytes.new.items
        ≡ bytes.old.items ++ (event_text form (record { job = job; spot = option_copied spot.entry; ask = ask.now; reply = reply.now }) ++ 10 ∷ [])) }
    ensures kept { HasFront bytes.old.items bytes.new.items }
    ensures fits { OnOk result (event_fits (record { job = job; spot = option_copied spot.entry; ask = ask.now; reply = reply.now }) ≡ true) }
{
    put_line(alloc, bytes, form, job, spot, ask, reply)?;
    bytes.push(b'\n')?;
    Ok(())
}

// Puts the line of an event to the end, without its byte 10.
fn put_line(
    alloc: Global,
    bytes: &mut Vec<u8>,
    form: Form,
    job: u32,
    spot: Option<&Spot>,
    ask: &Ask,
    reply: &Reply,
) -> Result<(), AllocError>
    ensures ok { OnOk result (bytes.new.items
        ≡ bytes.old.items ++ event_text form (record { job = job; spot = option_copied spot.entry; ask = ask.now; reply = reply.now })) }
    ensures kept { HasFront bytes.old.items bytes.new.items }
    ensures fits { OnOk result (event_fits (record { job = job; spot = option_copied spot.entry; ask = ask.now; reply = reply.now }) ≡ true) }
{
    put_count(bytes, job)?;
    bytes.push(b' ')?;
    put_part(bytes, form, spot)?;
    put_told(alloc, bytes, ask, reply)
}

// Puts where an ask came from to the end, and a blank, where the form says that.
fn put_part(bytes: &mut Vec<u8>, form: Form, spot: Option<&Spot>) -> Result<(), AllocError>
    ensures ok { OnOk result (bytes.new.items ≡ bytes.old.items ++ spot_part form (option_copied spot.entry)) }
    ensures kept { HasFront bytes.old.items bytes.new.items }
    ensures fits { OnOk result (spot_fits (option_copied spot.entry) ≡ true) }
{
    match form {
        Form::First => {
            if let Some(spot) = spot {
                is_counted(spot.line); // for the proof
            }
            Ok(())
        }
        Form::Second(_) => {
            put_spot(bytes, spot)?;
            bytes.push(b' ')?;
            Ok(())
        }
    }
}

// A line of a routine is a count.
fn is_counted(line: u32)
    ensures { is_count line ≡ true }
{}

// Puts the line of a routine to the end, or that there is none.
fn put_spot(bytes: &mut Vec<u8>, spot: Option<&Spot>) -> Result<(), AllocError>
    ensures ok { OnOk result (bytes.new.items ≡ bytes.old.items ++ spot_text (option_copied spot.entry)) }
    ensures kept { HasFront bytes.old.items bytes.new.items }
    ensures fits { OnOk result (spot_fits (option_copied spot.entry) ≡ true) }
{
    match spot {
        None => {
            bytes.push(b'-')?;
            Ok(())
        }
        Some(spot) => {
            let mut digits = Digits::new();
            bytes.extend_from_slice(spot.routine.bytes(&mut digits))?;
            bytes.push(b':')?;
            put_count(bytes, spot.line)
        }
    }
}

// Puts what was asked and what was told to the end.
fn put_told(alloc: Global, bytes: &mut Vec<u8>, ask: &Ask, reply: &Reply) -> Result<(), AllocError>
    ensures ok { OnOk result (bytes.new.items ≡ bytes.old.items ++ told_text ask.now reply.now) }
    ensures kept { HasFront bytes.old.items bytes.new.items }
    ensures fits { OnOk result ((ask_fits ask.now && reply_fits reply.now) ≡ true) }
{
    put_ask(alloc, bytes, ask)?;
    bytes.push(b' ')?;
    put_reply(bytes, reply)
}

/// Gives the line of an event, without its byte 10: the job's number, where its ask came from, what it asked, and what it was told.
pub fn event_line(
    alloc: Global,
    form: Form,
    job: u32,
    spot: Option<&Spot>,
    ask: &Ask,
    reply: &Reply,
) -> Result<Vec<u8>, AllocError>
    ensures { IfOk result
        (λ bytes. bytes.items ≡ event_text form (record { job = job; spot = option_copied spot.entry; ask = ask.now; reply = reply.now })) }
{
    let mut bytes = Vec::new(alloc);
    put_line(alloc, &mut bytes, form, job, spot, ask, reply)?;
    Ok(bytes)
}
