// What a job's device sessions may be told.

ghost use Rattle.std.specs.Prelude.{◌≡◌, ◌++◌, ◌∷◌, [], false, IfOk, OnOk};
ghost use Rattle.mj_ask.specs.Fits.{is_shared};
ghost use Rattle.mj_sessions.specs.Events.{Log, did_of, input_of, code_of};
ghost use Rattle.mj_expect.specs.Heeds.{heed_of, with_heed, heed_by, after_call, after_end, after_line, rest_line, after_byte, one_more, AreHeeds, Heard};
ghost use Rattle.mj_expect.specs.Heeds.{TakesIn};

use mj_ask::{Ask, DeviceAsk, Reply};
use mj_text::{TEXT_LIMIT, Text};
use std::alloc::{AllocError, Global};
use std::marker::Model;

/// Where the talk with a device may stand.
#[derive(Clone, Copy, PartialEq, Eq, Debug)]
pub enum Heed {
    /// the session may be used, and no line was begun
    Quiet,
    /// it may be used, and so many bytes of a line were read; whether that may be over
    Rest(usize, bool),
    /// its device failed: only its end may follow
    Failed,
}

/// What is known of the talks of one job with devices, whose answers are recorded: those that the device protocol allows, whatever the devices are.
#[derive(Drop)]
pub struct Heeds {
    list: Vec<(Text, Heed)>,
}

impl Model for Heeds {
    ghost use Rattle.mj_expect.specs.Heeds.{Heeds as Kept};

    ghost Value = { Kept };

    ghost view = { λ h. h.list.items };
}

impl Heeds {
    /// Makes what is known before anything was told.
    pub fn new(alloc: Global) -> Heeds
        ensures { AreHeeds [] result }
    {
        Heeds {
            list: Vec::new(alloc),
        }
    }

    /// Copies it.
    pub fn try_clone(&self) -> Result<Heeds, AllocError>
        ensures { IfOk result (λ copy. copy ≡ self.now) }
    {
        let mut list = Vec::with_capacity(*self.list.allocator(), self.list.len())?;
        for (name, heed) in &self.list {
            list.push((name.try_clone()?, *heed))?;
        }
        Ok(Heeds { list })
    }

    /// Takes in what a job's session was told, or a rest, and answers whether some device may have answered so.
    pub fn hear(&mut self, ask: &Ask, reply: &Reply) -> Result<bool, AllocError>
        requires { is_shared ask.now ≡ false }
        ensures { (log : Log) → AreHeeds log self.old → IfOk result (λ heard. Heard log ask.now reply.now heard self.new) }
    {
        self.take(ask, reply)
    }

    // Takes in what a job's session was told, if it is that.
    fn take(&mut self, ask: &Ask, reply: &Reply) -> Result<bool, AllocError>
        ensures { IfOk result (λ heard. TakesIn self.old ask.now reply.now heard self.new) }
    {
        let Ask::Device(device, ask) = ask else {
            return Ok(true);
        };
        match after(self.of(device), ask, reply) {
            None => Ok(false),
            Some(heed) => {
                self.put(device, heed)?;
                Ok(true)
            }
        }
    }

    // Where the talk with a device may stand.
    fn of(&self, device: &Text) -> Heed
        ensures { result ≡ heed_of device.now self.now }
    {
        for (name, heed) in &self.list {
            if name == device {
                return *heed;
            }
        }
        Heed::Quiet
    }

    // Sets where the talk with a device may stand.
    fn put(&mut self, device: &Text, heed: Heed) -> Result<(), AllocError>
        ensures { OnOk result (self.new ≡ with_heed device.now heed self.old) }
    {
        self.list.retain(|entry| entry.0 != *device);
        match heed {
            Heed::Quiet => Ok(()),
            Heed::Rest(read, over) => self.keep(device, Heed::Rest(read, over)),
            Heed::Failed => self.keep(device, Heed::Failed),
        }
    }

    // Adds a device of which more is known.
    fn keep(&mut self, device: &Text, heed: Heed) -> Result<(), AllocError>
        ensures { OnOk result (self.new ≡ self.old ++ (device.now, heed) ∷ []) }
    {
        let name = device.try_clone()?;
        self.list.push((name, heed))?;
        Ok(())
    }
}

// Where the talk with a device may stand behind one ask more with its reply; none where no device may have answered so.
fn after(heed: Heed, ask: &DeviceAsk, reply: &Reply) -> Option<Heed>
    ensures { result ≡ heed_by heed ask.now reply.now }
{
    match ask {
        DeviceAsk::Begin | DeviceAsk::Write(_) => after_call(heed, reply),
        DeviceAsk::Line(_) => after_line(heed, reply),
        DeviceAsk::Byte(_) => after_byte(heed, reply),
        DeviceAsk::End => after_end(reply),
    }
}

fn after_call(heed: Heed, reply: &Reply) -> Option<Heed>
    ensures { result ≡ after_call heed (did_of reply.now) }
{
    if heed == Heed::Failed {
        return None;
    }
    match reply {
        Reply::Failed => Some(Heed::Failed),
        _ => Some(heed),
    }
}

fn after_end(reply: &Reply) -> Option<Heed>
    ensures { result ≡ after_end (did_of reply.now) }
{
    match reply {
        Reply::Done | Reply::Failed => Some(Heed::Quiet),
        _ => None,
    }
}

fn after_line(heed: Heed, reply: &Reply) -> Option<Heed>
    ensures { result ≡ after_line heed (input_of reply.now) }
{
    match heed {
        Heed::Quiet => match reply {
            Reply::Failed => Some(Heed::Failed),
            _ => Some(Heed::Quiet),
        },
        Heed::Rest(read, over) => rest_line(read, over, reply),
        Heed::Failed => None,
    }
}

fn rest_line(read: usize, over: bool, reply: &Reply) -> Option<Heed>
    ensures { result ≡ rest_line read over (input_of reply.now) }
{
    let fits = match reply {
        Reply::Line(line) => over || read <= TEXT_LIMIT && line.len() <= TEXT_LIMIT - read,
        Reply::End | Reply::Late | Reply::Failed => over,
        _ => return Some(Heed::Rest(read, over)),
    };
    if !fits {
        return None;
    }
    match reply {
        Reply::Failed => Some(Heed::Failed),
        _ => Some(Heed::Quiet),
    }
}

fn after_byte(heed: Heed, reply: &Reply) -> Option<Heed>
    ensures { result ≡ after_byte heed (code_of reply.now) }
{
    match heed {
        Heed::Quiet => new_byte(reply),
        Heed::Rest(read, false) => match reply {
            Reply::Byte(code) => one_more(read, *code),
            _ => None,
        },
        Heed::Rest(_, true) => new_byte(reply),
        Heed::Failed => None,
    }
}

fn new_byte(reply: &Reply) -> Option<Heed>
    ensures { result ≡ after_byte Heed.Quiet (code_of reply.now) }
{
    match reply {
        Reply::Byte(code) => Some(Heed::Rest(1, *code == 10)),
        Reply::Failed => Some(Heed::Failed),
        _ => Some(Heed::Quiet),
    }
}

fn one_more(read: usize, code: u8) -> Option<Heed>
    ensures { result ≡ one_more read code }
{
    if read < TEXT_LIMIT {
        Some(Heed::Rest(read + 1, code == 10))
    } else if code == 10 {
        Some(Heed::Quiet)
    } else {
        None
    }
}
