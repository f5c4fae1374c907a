// What the jobs of a core wait for.

ghost use Rattle.std.specs.Prelude.{◌≡◌, OnSome};

use crate::taken::last_taking;
use crate::wait::{put_idle, put_taken, put_wait};
use mj_core::{Core, Seen};
use mj_dev::Device;
use mj_gfile::{put_name, put_text};
use mj_sessions::Sessions;
use mj_steps::{Step, Way};
use mj_sys::{Held, Opening};
use mj_text::Text;
use std::alloc::{AllocError, Global};

/// Writes a line for each job that waits: for what, and who has it; and behind it, if that is to be told, one on where that one took it. Each is stepped once
/// more, which changes nothing, since all wait. None for want of memory, and where a job goes on, since then not all wait.
pub fn waits<D: Device, O: Opening>(
    alloc: Global,
    core: &mut Core<D, Sessions<D>, O>,
    since: bool,
) -> Option<Vec<u8>>
    ensures { OnSome result (core.new.history ≡ core.old.history) }
{
    // A job stands where it waits once it was stepped: so all are, before a line says where one stands.
    let mut early = Vec::new(alloc);
    put_all(core, &mut early, since)?;
    drop(early);
    let mut bytes = Vec::new(alloc);
    put_all(core, &mut bytes, since)?;
    Some(bytes)
}

// Writes the lines of all jobs that wait. None for want of memory, and where a job goes on.
fn put_all<D: Device, O: Opening>(
    core: &mut Core<D, Sessions<D>, O>,
    bytes: &mut Vec<u8>,
    since: bool,
) -> Option<()>
    ensures { OnSome result (core.new.history ≡ core.old.history) }
{
    'jobs: for done in 0..core.jobs() as u32 {
        put_waiting(core, bytes, done + 1, since)?;
    }
    Some(())
}

// Writes the line of one job, if it waits. None for want of memory, and where it goes on.
#[tactic(auto, using(crate::proofs::Waiting::step_stays))]
fn put_waiting<D: Device, O: Opening>(
    core: &mut Core<D, Sessions<D>, O>,
    bytes: &mut Vec<u8>,
    job: u32,
    since: bool,
) -> Option<()>
    ensures { OnSome result (core.new.history ≡ core.old.history) }
{
    let step = Step { job, way: Way::Go };
    match core.step(step) {
        Ok(Seen::Busy { holder, held }) => put_busy(core, bytes, job, holder, &held, since).ok(),
        Ok(Seen::NotYet) => put_idle(bytes, job).ok(),
        Ok(Seen::Event(_)) => None,
        Ok(Seen::Unfit) | Ok(Seen::Ran) | Ok(Seen::Ended) | Err(_) => Some(()),
    }
}

// Writes the line of a job that waits for what another has.
fn put_busy<D: Device, O: Opening>(
    core: &Core<D, Sessions<D>, O>,
    bytes: &mut Vec<u8>,
    job: u32,
    holder: u32,
    held: &Held,
    since: bool,
) -> Result<(), AllocError> {
    let what = held_bytes(*bytes.allocator(), held)?;
    put_wait(bytes, job, &what, holder, place(core, holder))?;
    if since {
        put_since(core, bytes, holder, &what, held)?;
    }
    Ok(())
}

// Writes the line on where a job took what it has, if it took it.
fn put_since<D: Device, O: Opening>(
    core: &Core<D, Sessions<D>, O>,
    bytes: &mut Vec<u8>,
    holder: u32,
    what: &[u8],
    held: &Held,
) -> Result<(), AllocError> {
    match last_taking(core, holder, held) {
        None => Ok(()),
        Some(at) => put_taken(bytes, holder, what, core.place_of(at)),
    }
}

// Where a job stands, if it stands anywhere.
fn place<D: Device, O: Opening>(core: &Core<D, Sessions<D>, O>, job: u32) -> Option<(&Text, u32)> {
    match core.job(job) {
        None => None,
        Some(found) => found.place(),
    }
}

// Writes what is held, as a listing has it: a name, or a device in quotes.
fn held_bytes(alloc: Global, held: &Held) -> Result<Vec<u8>, AllocError> {
    let mut bytes = Vec::new(alloc);
    match held {
        Held::Name(name) => put_name(&mut bytes, name.get())?,
        Held::Device(device) => put_text(&mut bytes, device)?,
    }
    Ok(bytes)
}
