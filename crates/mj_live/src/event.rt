// What is shown of one event.

ghost use Rattle.std.specs.Prelude.{◌≡◌, ◌-◌, IfSome, OnOk, if◌then◌else◌};
ghost use Rattle.std.specs.Str.{bytes_eq};
ghost use Rattle.std.specs.Io.KnownBytes.{Appends};
ghost use Rattle.mj_dev.specs.Shelves.{principal};
ghost use Rattle.mj_sessions.specs.Follow.{ends_on, written_on};
ghost use Rattle.mj_live.specs.Events.{IsShown, IsShownAt};

use mj_ask::{Ask, DeviceAsk, Reply};
use mj_core::Core;
use mj_dev::Device;
use mj_num::Num;
use mj_sessions::Sessions;
use mj_sys::Opening;
use mj_text::{Digits, Text};
use std::io::{self, Write};
use std::rt::Clock;
use std::thread;
use std::time::Duration;

/// Writes what the first job's principal session of this number takes by the event at a place of the history, if there is one there, and lets the time of a
/// rest go by. Gives the number behind the event; none where the bytes can't be written.
pub fn show_event<R, D, O, W>(
    rt: &R,
    core: &Core<D, Sessions<D>, O>,
    place: usize,
    session: u32,
    out: &mut W,
) -> Option<u32>
where
    R: Clock,
    D: Device,
    O: Opening,
    W: Write,
    ensures { IfSome result (λ behind. IsShownAt core.now.history place session (W.contents out.old) behind (W.contents out.new)) }
{
    let Some((job, ask, reply)) = core.event(place) else {
        return Some(session);
    };
    if let Ask::Rest(seconds) = ask {
        rest(rt, *seconds);
    }
    if job == 1 {
        show_first(ask, reply, session, out)
    } else {
        Some(session)
    }
}

/// Lets so many seconds go by: none, where the number is below 0.
pub fn rest<R: Clock>(rt: &R, seconds: Num) {
    let seconds = u64::try_from(seconds.value()).unwrap_or(0);
    thread::sleep(rt, Duration::from_secs(seconds));
}

// Writes what the session of this number takes by an ask of its job, and gives the number behind it. None where the bytes can't be written.
fn show_first<W: Write>(ask: &Ask, reply: &Reply, session: u32, out: &mut W) -> Option<u32>
    ensures { IfSome result (λ behind. IsShown ask.now reply.now session (W.contents out.old) behind (W.contents out.new)) }
{
    if session == 1 {
        match write(ask, reply, out) {
            Ok(()) => Some(behind(session, ask)),
            Err(_) => None,
        }
    } else {
        Some(behind(session, ask))
    }
}

// Which session is looked at behind an ask.
fn behind(session: u32, ask: &Ask) -> u32
    ensures { result ≡ (if ends_on principal ask.now then session - 1 else session) }
{
    if ends(ask) {
        session.saturating_sub(1)
    } else {
        session
    }
}

// Writes the bytes that the principal device takes by an ask, and flushes them.
fn write<W: Write>(ask: &Ask, reply: &Reply, out: &mut W) -> io::Result<()>
    ensures { OnOk result (Appends (W.contents out.old) (W.contents out.new) (written_on principal ask.now reply.now)) }
{
    let mut digits = Digits::new();
    let bytes = taken(ask, reply, &mut digits);
    out.write_all(bytes)?;
    out.flush()
}

// The bytes that the principal device takes by an ask.
fn taken<'a>(ask: &'a Ask, reply: &Reply, digits: &'a mut Digits) -> &'a [u8]
    ensures { result.now ≡ written_on principal ask.now reply.now }
{
    match (ask, reply) {
        (Ask::Device(device, DeviceAsk::Write(bytes)), Reply::Done) if is_principal(device) =>
            bytes.bytes(digits),
        _ => &[],
    }
}

// Whether an ask ends a session with the principal device.
fn ends(ask: &Ask) -> bool
    ensures { result ≡ ends_on principal ask.now }
{
    match ask {
        Ask::Device(device, DeviceAsk::End) => is_principal(device),
        _ => false,
    }
}

// Whether it is the name of the principal device.
fn is_principal(device: &Text) -> bool
    ensures { result ≡ bytes_eq device.now principal }
{
    device.bytes(&mut Digits::new()) == b"0".as_slice()
}
