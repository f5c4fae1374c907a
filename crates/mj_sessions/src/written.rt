// What the devices of a job took, by its log.

ghost use Rattle.std.specs.Prelude.{◌≡◌, IfOk};
ghost use Rattle.mj_sessions.specs.Follow.{output_of_log, ends_on, written_on};

use mj_ask::{Ask, DeviceAsk, Reply};
use mj_text::{Digits, Text};
use std::alloc::{AllocError, Global};

/// The bytes that one session with the device of this name took: the first is 1, and one more is counted behind each end.
pub fn output(
    alloc: Global,
    log: &[(Ask, Reply)],
    name: &Text,
    session: u32,
) -> Result<Vec<u8>, AllocError>
    ensures { IfOk result (λ bytes. bytes.items ≡ output_of_log log.now name.now session) }
{
    let mut bytes = Vec::new(alloc);
    let mut left = session;
    for entry in log {
        let (ask, reply) = entry;
        if ends(ask, name) {
            left = left.saturating_sub(1);
        } else if left == 1 {
            let mut digits = Digits::new();
            bytes.extend_from_slice(written(ask, reply, name, &mut digits))?;
        }
    }
    Ok(bytes)
}

// Whether the ask ends a session with the device of this name.
fn ends(ask: &Ask, name: &Text) -> bool
    ensures { result ≡ ends_on name.now ask.now }
{
    match ask {
        Ask::Device(device, DeviceAsk::End) => *device == *name,
        _ => false,
    }
}

// The bytes that the device of this name took by this ask.
fn written<'a>(ask: &'a Ask, reply: &Reply, name: &Text, digits: &'a mut Digits) -> &'a [u8]
    ensures { result.now ≡ written_on name.now ask.now reply.now }
{
    match (ask, reply) {
        (Ask::Device(device, DeviceAsk::Write(bytes)), Reply::Done) if *device == *name =>
            bytes.bytes(digits),
        _ => &[],
    }
}
