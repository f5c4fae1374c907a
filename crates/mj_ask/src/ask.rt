// Questions and replies.

ghost use Rattle.std.specs.Prelude.{◌≡◌, ◌↔◌, IfOk, IsTrue};
ghost use Rattle.mj_ask.specs.Fits.{fits, is_reply_to, is_shared_reply, is_device_reply, is_late, is_shared};
ghost use Rattle.mj_ask.specs.Fits.{timeout_of, shared_timeout, device_timeout, answers, is_data, gives_up, given_seen};

use crate::clash::BoxedClash;
use crate::names::Names;
use crate::same::{are_same_names, is_same_access, is_same_clash, is_same_start};
use crate::start::BoxedStart;
use mj_num::Num;
use mj_store::{Access, Answer, is_same_answer};
use mj_text::{Fault, Text};
use std::alloc::{AllocError, Global};

/// Whether a transaction's reads must hold at its commit.
#[derive(Clone, Copy, PartialEq, Eq, Debug)]
pub enum Kind {
    /// it clashes where one of its reads has another answer by then
    Serial,
    /// it puts its writes in, whatever it read
    Plain,
}

/// A question of a job, by who serves it.
#[derive(Drop)]
pub enum Ask {
    /// what all jobs share serves it
    Shared(SharedAsk),
    /// the job's own session of the device with this name serves it. The principal device is `0`
    Device(Text, DeviceAsk),
    /// the clock serves it: the job waits so many seconds
    Rest(Num),
}

/// A question on what all jobs share, or a change of it. Where a timeout may stand and none does, the job waits.
#[derive(Drop)]
pub enum SharedAsk {
    /// a question on the globals, or a change of them
    Access(Access),
    /// the names are locked, all or none
    Try(Names, Option<Num>),
    /// one lock of each name is given up
    Unlock(Names),
    /// all locks are given up
    UnlockAll,
    /// a transaction begins
    Begin(Kind),
    /// the transaction's changes are made
    Commit,
    /// the transaction's changes are forgotten
    Rollback,
    /// the job takes a device of this name
    Open(Text, Option<Num>),
    /// the job gives the device up
    Close(Text),
    /// another job starts
    Start(BoxedStart, Option<Num>),
    /// the job is over, by a fault or without one
    Halt(Option<Fault>),
}

/// Which of its locks a job gives up.
#[derive(Clone, Copy)]
pub enum GivenUp<'a> {
    /// one of each of these names
    Names(&'a Names),
    /// all
    All,
}

/// A question of a job to its session of a device. Where a timeout may stand and none does, the job waits.
#[derive(Drop)]
pub enum DeviceAsk {
    /// the session begins
    Begin,
    /// these bytes go to the device
    Write(Text),
    /// the device gives the rest of a line, or the next line
    Line(Option<Num>),
    /// the device gives the next byte
    Byte(Option<Num>),
    /// the session ends
    End,
}

/// What a job is told.
#[derive(Drop)]
pub enum Reply {
    /// it is done
    Done,
    /// the answer to an access
    Answer(Answer),
    /// a limit would be passed, and nothing is done
    Limit,
    /// the job has it now
    Got,
    /// the timeout was over before
    Late,
    /// the device isn't known, or has no session left
    NoSession,
    /// the device failed
    Failed,
    /// the device's input has ended
    End,
    /// a line of the device's input, without its end
    Line(Text),
    /// the code of a byte of the device's input
    Byte(u8),
    /// the number of the job that was started
    Job(u32),
    /// the transaction's changes aren't made
    Clash(BoxedClash),
}

impl Ask {
    /// Whether this is a reply to this ask at all: one that the table has for it, and late only where a timeout was given.
    pub fn fits(&self, reply: &Reply) -> bool
        ensures { result ≡ fits self.now reply.now }
    {
        self.has_reply(reply) && (!matches!(reply, Reply::Late) || self.timeout().is_some())
    }

    /// Whether the table has this reply for it, whatever its timeout.
    pub fn has_reply(&self, reply: &Reply) -> bool
        ensures { result ≡ is_reply_to self.now reply.now }
    {
        match self {
            Ask::Shared(ask) => ask.has_reply(reply),
            Ask::Device(_, ask) => ask.has_reply(reply),
            Ask::Rest(_) => matches!(reply, Reply::Done),
        }
    }

    /// Whether the state that all jobs share serves it. The others are served by the job's own device sessions, or by the clock.
    pub fn is_shared(&self) -> bool
        ensures { result ≡ is_shared self.now }
    {
        matches!(self, Ask::Shared(_))
    }

    /// How many seconds it waits, where it has a timeout.
    pub fn timeout(&self) -> Option<Num>
        ensures { result ≡ timeout_of self.now }
    {
        match self {
            Ask::Shared(ask) => ask.timeout(),
            Ask::Device(_, ask) => ask.timeout(),
            Ask::Rest(_) => None,
        }
    }

    /// Which locks are given up by it, if it is an unlock.
    pub fn gives_up(&self) -> Option<GivenUp<'_>>
        ensures { given_seen result ≡ gives_up self.now }
    {
        match self {
            Ask::Shared(SharedAsk::Unlock(names)) => Some(GivenUp::Names(names)),
            Ask::Shared(SharedAsk::UnlockAll) => Some(GivenUp::All),
            _ => None,
        }
    }

    /// Copies the ask.
    pub fn try_clone(&self) -> Result<Ask, AllocError>
        ensures { IfOk result (λ ask. ask ≡ self.now) }
    {
        Ok(match self {
            Ask::Shared(ask) => Ask::Shared(ask.try_clone()?),
            Ask::Device(device, ask) => Ask::Device(device.try_clone()?, ask.try_clone()?),
            Ask::Rest(time) => Ask::Rest(*time),
        })
    }
}

impl SharedAsk {
    /// Whether the table has this reply for it, whatever its timeout.
    pub fn has_reply(&self, reply: &Reply) -> bool
        ensures { result ≡ is_shared_reply self.now reply.now }
    {
        match self {
            SharedAsk::Access(access) => match reply {
                Reply::Answer(answer) => answers(access, answer),
                _ => false,
            },
            SharedAsk::Try(_, _) => matches!(reply, Reply::Got | Reply::Late | Reply::Limit),
            SharedAsk::Unlock(_) | SharedAsk::UnlockAll => {
                matches!(reply, Reply::Done | Reply::Limit)
            }
            SharedAsk::Commit => matches!(reply, Reply::Done | Reply::Clash(_)),
            SharedAsk::Open(_, _) => matches!(reply, Reply::Got | Reply::Late | Reply::NoSession),
            SharedAsk::Start(_, _) => matches!(reply, Reply::Job(_) | Reply::Limit),
            SharedAsk::Begin(_) | SharedAsk::Rollback | SharedAsk::Close(_) | SharedAsk::Halt(_) =>
                { matches!(reply, Reply::Done) }
        }
    }

    /// How many seconds it waits, where it has a timeout.
    pub fn timeout(&self) -> Option<Num>
        ensures { result ≡ shared_timeout self.now }
    {
        match self {
            SharedAsk::Try(_, timeout)
            | SharedAsk::Open(_, timeout)
            | SharedAsk::Start(_, timeout) => *timeout,
            _ => None,
        }
    }

    /// Copies the ask.
    pub fn try_clone(&self) -> Result<SharedAsk, AllocError>
        ensures { IfOk result (λ ask. ask ≡ self.now) }
    {
        Ok(match self {
            SharedAsk::Access(access) => SharedAsk::Access(access.try_clone()?),
            SharedAsk::Try(names, timeout) => SharedAsk::Try(names.try_clone()?, *timeout),
            SharedAsk::Unlock(names) => SharedAsk::Unlock(names.try_clone()?),
            SharedAsk::UnlockAll => SharedAsk::UnlockAll,
            SharedAsk::Begin(kind) => SharedAsk::Begin(*kind),
            SharedAsk::Commit => SharedAsk::Commit,
            SharedAsk::Rollback => SharedAsk::Rollback,
            SharedAsk::Open(device, timeout) => SharedAsk::Open(device.try_clone()?, *timeout),
            SharedAsk::Close(device) => SharedAsk::Close(device.try_clone()?),
            SharedAsk::Start(start, timeout) => SharedAsk::Start(start.try_clone()?, *timeout),
            SharedAsk::Halt(fault) => SharedAsk::Halt(*fault),
        })
    }
}

impl DeviceAsk {
    /// Whether the table has this reply for it, whatever its timeout.
    pub fn has_reply(&self, reply: &Reply) -> bool
        ensures { result ≡ is_device_reply self.now reply.now }
    {
        match self {
            DeviceAsk::Begin | DeviceAsk::Write(_) | DeviceAsk::End => {
                matches!(reply, Reply::Done | Reply::Failed)
            }
            DeviceAsk::Line(_) => matches!(
                reply,
                Reply::Line(_) | Reply::End | Reply::Late | Reply::Failed
            ),
            DeviceAsk::Byte(_) => matches!(
                reply,
                Reply::Byte(_) | Reply::End | Reply::Late | Reply::Failed
            ),
        }
    }

    /// How many seconds it waits, where it has a timeout.
    pub fn timeout(&self) -> Option<Num>
        ensures { result ≡ device_timeout self.now }
    {
        match self {
            DeviceAsk::Line(timeout) | DeviceAsk::Byte(timeout) => *timeout,
            _ => None,
        }
    }

    /// Copies the ask.
    pub fn try_clone(&self) -> Result<DeviceAsk, AllocError>
        ensures { IfOk result (λ ask. ask ≡ self.now) }
    {
        Ok(match self {
            DeviceAsk::Begin => DeviceAsk::Begin,
            DeviceAsk::Write(bytes) => DeviceAsk::Write(bytes.try_clone()?),
            DeviceAsk::Line(timeout) => DeviceAsk::Line(*timeout),
            DeviceAsk::Byte(timeout) => DeviceAsk::Byte(*timeout),
            DeviceAsk::End => DeviceAsk::End,
        })
    }
}

impl Reply {
    /// Copies the reply.
    pub fn try_clone(&self) -> Result<Reply, AllocError>
        ensures { IfOk result (λ reply. reply ≡ self.now) }
    {
        Ok(match self {
            Reply::Done => Reply::Done,
            Reply::Answer(answer) => Reply::Answer(answer.try_clone()?),
            Reply::Limit => Reply::Limit,
            Reply::Got => Reply::Got,
            Reply::Late => Reply::Late,
            Reply::NoSession => Reply::NoSession,
            Reply::Failed => Reply::Failed,
            Reply::End => Reply::End,
            Reply::Line(text) => Reply::Line(text.try_clone()?),
            Reply::Byte(code) => Reply::Byte(*code),
            Reply::Job(number) => Reply::Job(*number),
            Reply::Clash(clash) => Reply::Clash(clash.try_clone()?),
        })
    }
}

/// Whether the asks are the same.
pub fn is_same_ask(one: &Ask, other: &Ask) -> bool
    ensures { IsTrue result ↔ (one.now ≡ other.now) }
{
    match (one, other) {
        (Ask::Shared(a), Ask::Shared(b)) => is_same_shared_ask(a, b),
        (Ask::Device(a, c), Ask::Device(b, d)) => a == b && is_same_device_ask(c, d),
        (Ask::Rest(a), Ask::Rest(b)) => a == b,
        _ => false,
    }
}

// Whether the asks of what all jobs share are the same.
fn is_same_shared_ask(one: &SharedAsk, other: &SharedAsk) -> bool
    ensures { IsTrue result ↔ (one.now ≡ other.now) }
{
    match (one, other) {
        (SharedAsk::Access(a), SharedAsk::Access(b)) => is_same_access(a, b),
        (SharedAsk::Try(a, c), SharedAsk::Try(b, d)) => {
            are_same_names(a.as_slice(), b.as_slice()) && c == d
        }
        (SharedAsk::Unlock(a), SharedAsk::Unlock(b)) => are_same_names(a.as_slice(), b.as_slice()),
        (SharedAsk::UnlockAll, SharedAsk::UnlockAll)
        | (SharedAsk::Commit, SharedAsk::Commit)
        | (SharedAsk::Rollback, SharedAsk::Rollback) => true,
        (SharedAsk::Begin(a), SharedAsk::Begin(b)) => a == b,
        (SharedAsk::Open(a, c), SharedAsk::Open(b, d)) => a == b && c == d,
        (SharedAsk::Close(a), SharedAsk::Close(b)) => a == b,
        (SharedAsk::Start(a, c), SharedAsk::Start(b, d)) => is_same_start(a.get(), b.get())
            && c == d,
        (SharedAsk::Halt(a), SharedAsk::Halt(b)) => a == b,
        _ => false,
    }
}

// Whether the asks of a device are the same.
fn is_same_device_ask(one: &DeviceAsk, other: &DeviceAsk) -> bool
    ensures { IsTrue result ↔ (one.now ≡ other.now) }
{
    match (one, other) {
        (DeviceAsk::Write(a), DeviceAsk::Write(b)) => a == b,
        (DeviceAsk::Line(a), DeviceAsk::Line(b)) => a == b,
        (DeviceAsk::Byte(a), DeviceAsk::Byte(b)) => a == b,
        (DeviceAsk::Begin, DeviceAsk::Begin) | (DeviceAsk::End, DeviceAsk::End) => true,
        _ => false,
    }
}

/// Whether the replies are the same.
pub fn is_same_reply(one: &Reply, other: &Reply) -> bool
    ensures { IsTrue result ↔ (one.now ≡ other.now) }
{
    match (one, other) {
        (Reply::Answer(a), Reply::Answer(b)) => is_same_answer(a, b),
        (Reply::Line(a), Reply::Line(b)) => a == b,
        (Reply::Byte(a), Reply::Byte(b)) => a == b,
        (Reply::Job(a), Reply::Job(b)) => a == b,
        (Reply::Clash(a), Reply::Clash(b)) => is_same_clash(a.get(), b.get()),
        (Reply::Done, Reply::Done)
        | (Reply::Limit, Reply::Limit)
        | (Reply::Got, Reply::Got)
        | (Reply::Late, Reply::Late)
        | (Reply::NoSession, Reply::NoSession)
        | (Reply::Failed, Reply::Failed)
        | (Reply::End, Reply::End) => true,
        _ => false,
    }
}

// Whether it is an answer to the access at all: one of its kind, or that a limit is passed.
fn answers(access: &Access, answer: &Answer) -> bool
    ensures { result ≡ answers access.now answer.now }
{
    match answer {
        Answer::Limit => true,
        Answer::Value(_) => matches!(access, Access::Value(_)),
        Answer::Data(data) => matches!(access, Access::Data(_)) && is_data(*data),
        Answer::Order(_) => matches!(access, Access::Order(_, _)),
        Answer::Query(_) => matches!(access, Access::Query(_)),
        Answer::Subtree(_) => matches!(access, Access::Subtree(_)),
        Answer::Done => matches!(
            access,
            Access::Set(_, _) | Access::Kill(_) | Access::Put(_, _)
        ),
    }
}

// Whether `$DATA` gives it.
fn is_data(digits: u8) -> bool
    ensures { result ≡ is_data digits }
{
    matches!(digits, 0 | 1 | 10 | 11)
}
