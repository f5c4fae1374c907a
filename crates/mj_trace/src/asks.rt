// What a job asks is written.
#![tactic(auto, using(mj_gfile::proofs::Longer::begins_same, mj_gfile::proofs::Longer::begins_more, mj_gfile::proofs::Longer::begins_trans))]

ghost use Rattle.std.specs.Prelude.{◌≡◌, ◌++◌, true, ◌&&◌, codes, OnOk};
ghost use Rattle.std.specs.List.{list_all};
ghost use Rattle.mj_gfile.specs.Spelling.{listed_name};
ghost use Rattle.mj_gfile.specs.Begins.{HasFront};
ghost use Rattle.mj_trace.specs.Sized.{access_fits, ask_fits, device_fits, name_fits, shared_fits, timeout_fits, value_fits};
ghost use Rattle.mj_trace.specs.Spelling.{values_text, timeout_text, start_text, direction_text, access_text, kind_text, shared_text, device_text, ask_text};

use crate::devices::device_word;
use crate::fields::{
    put_entry, put_fault, put_names, put_number, put_subtree, put_timeout, put_values,
};
use mj_ask::{Ask, DeviceAsk, Kind, SharedAsk, Start};
use mj_gfile::{put_name, put_text};
use mj_num::Num;
use mj_store::{Access, Direction};
use mj_subs::Name;
use mj_text::Text;
use std::alloc::{AllocError, Global};

/// Puts an ask to the end of some bytes, as a trace has it. After want of memory a part of it may stand there.
pub fn put_ask(alloc: Global, bytes: &mut Vec<u8>, ask: &Ask) -> Result<(), AllocError>
    ensures ok { OnOk result (bytes.new.items ≡ bytes.old.items ++ ask_text ask.now) }
    ensures kept { HasFront bytes.old.items bytes.new.items }
    ensures fits { OnOk result (ask_fits ask.now ≡ true) }
{
    match ask {
        Ask::Shared(ask) => put_shared(alloc, bytes, ask),
        Ask::Device(device, ask) => {
            bytes.extend_from_slice(b"dev ")?;
            put_text(bytes, device)?;
            bytes.push(b' ')?;
            put_device_ask(bytes, ask)
        }
        Ask::Rest(seconds) => {
            bytes.extend_from_slice(b"rest ")?;
            put_number(bytes, *seconds)
        }
    }
}

// Puts what is asked of what all jobs share to the end.
fn put_shared(alloc: Global, bytes: &mut Vec<u8>, ask: &SharedAsk) -> Result<(), AllocError>
    ensures ok { OnOk result (bytes.new.items ≡ bytes.old.items ++ shared_text ask.now) }
    ensures kept { HasFront bytes.old.items bytes.new.items }
    ensures fits { OnOk result (shared_fits ask.now ≡ true) }
{
    match ask {
        SharedAsk::Access(access) => put_access(bytes, access),
        SharedAsk::Try(names, timeout) => {
            bytes.extend_from_slice(b"try ")?;
            put_names(bytes, names.as_slice())?;
            put_timeout(bytes, *timeout)
        }
        SharedAsk::Unlock(names) => {
            bytes.extend_from_slice(b"unlock ")?;
            put_names(bytes, names.as_slice())
        }
        SharedAsk::UnlockAll => bytes.extend_from_slice(b"unlock *"),
        SharedAsk::Begin(kind) => put_begin(bytes, *kind),
        SharedAsk::Commit => bytes.extend_from_slice(b"commit"),
        SharedAsk::Rollback => bytes.extend_from_slice(b"rollback"),
        SharedAsk::Open(device, timeout) => {
            bytes.extend_from_slice(b"open ")?;
            put_text(bytes, device)?;
            put_timeout(bytes, *timeout)
        }
        SharedAsk::Close(device) => {
            bytes.extend_from_slice(b"close ")?;
            put_text(bytes, device)
        }
        SharedAsk::Start(start, timeout) => put_start(alloc, bytes, start.get(), *timeout),
        SharedAsk::Halt(fault) => {
            bytes.extend_from_slice(b"halt")?;
            put_fault(bytes, *fault)
        }
    }
}

// Puts what is asked of a session of a device to the end.
fn put_device_ask(bytes: &mut Vec<u8>, ask: &DeviceAsk) -> Result<(), AllocError>
    ensures ok { OnOk result (bytes.new.items ≡ bytes.old.items ++ device_text ask.now) }
    ensures kept { HasFront bytes.old.items bytes.new.items }
    ensures fits { OnOk result (device_fits ask.now ≡ true) }
{
    match ask {
        DeviceAsk::Write(text) => {
            bytes.extend_from_slice(b"write ")?;
            put_text(bytes, text)
        }
        _ => {
            bytes.extend_from_slice(device_word(ask))?;
            put_timeout(bytes, ask.timeout())
        }
    }
}

// Puts an access to the end.
fn put_access(bytes: &mut Vec<u8>, access: &Access) -> Result<(), AllocError>
    ensures ok { OnOk result (bytes.new.items ≡ bytes.old.items ++ access_text access.now) }
    ensures kept { HasFront bytes.old.items bytes.new.items }
    ensures fits { OnOk result (access_fits access.now ≡ true) }
{
    match access {
        Access::Value(name) => put_named(bytes, b"value ", name.get()),
        Access::Data(name) => put_named(bytes, b"data ", name.get()),
        Access::Order(name, direction) => {
            put_named(bytes, b"order ", name.get())?;
            bytes.push(b' ')?;
            put_direction(bytes, *direction)
        }
        Access::Query(name) => put_named(bytes, b"query ", name.get()),
        Access::Subtree(name) => put_named(bytes, b"subtree ", name.get()),
        Access::Set(name, text) => {
            put_named(bytes, b"set ", name.get())?;
            bytes.push(b' ')?;
            put_text(bytes, text)
        }
        Access::Kill(name) => put_named(bytes, b"kill ", name.get()),
        Access::Put(name, nodes) => {
            put_named(bytes, b"put ", name.get())?;
            bytes.push(b' ')?;
            put_subtree(bytes, nodes)
        }
    }
}

// Puts a word, which has its blank, and a name to the end.
fn put_named(bytes: &mut Vec<u8>, word: &[u8], name: &Name) -> Result<(), AllocError>
    ensures ok { OnOk result (bytes.new.items ≡ bytes.old.items ++ (word.now ++ listed_name name.now)) }
    ensures kept { HasFront bytes.old.items bytes.new.items }
    ensures fits { OnOk result (name_fits name.now ≡ true) }
{
    bytes.extend_from_slice(word)?;
    put_name(bytes, name)
}

// Puts the direction of a search to the end.
fn put_direction(bytes: &mut Vec<u8>, direction: Direction) -> Result<(), AllocError>
    ensures ok { OnOk result (bytes.new.items ≡ bytes.old.items ++ direction_text direction) }
    ensures kept { HasFront bytes.old.items bytes.new.items }
{
    match direction {
        Direction::Forward => bytes.extend_from_slice(b"1"),
        Direction::Backward => bytes.extend_from_slice(b"-1"),
    }
}

// Puts the begin of a transaction to the end.
fn put_begin(bytes: &mut Vec<u8>, kind: Kind) -> Result<(), AllocError>
    ensures ok { OnOk result (bytes.new.items ≡ bytes.old.items ++ (codes "begin" ++ kind_text kind)) }
    ensures kept { HasFront bytes.old.items bytes.new.items }
{
    bytes.extend_from_slice(match kind {
        Kind::Serial => b"begin serial".as_slice(),
        Kind::Plain => b"begin".as_slice(),
    })
}

// Puts the start of another job to the end.
fn put_start(
    alloc: Global,
    bytes: &mut Vec<u8>,
    start: &Start,
    timeout: Option<Num>,
) -> Result<(), AllocError>
    ensures ok { OnOk result (bytes.new.items ≡ bytes.old.items ++ start_text start.now timeout) }
    ensures kept { HasFront bytes.old.items bytes.new.items }
    ensures fits { OnOk result ((list_all value_fits start.now.values && timeout_fits timeout) ≡ true) }
{
    put_entry(alloc, bytes, start.entry())?;
    bytes.push(b' ')?;
    put_given(bytes, start.values(), timeout)
}

// Puts what the start of a job gives it to the end: its values, and how long it may wait.
fn put_given(
    bytes: &mut Vec<u8>,
    values: &[Option<Text>],
    timeout: Option<Num>,
) -> Result<(), AllocError>
    ensures ok { OnOk result (bytes.new.items ≡ bytes.old.items ++ (values_text values.now ++ timeout_text timeout)) }
    ensures kept { HasFront bytes.old.items bytes.new.items }
    ensures fits { OnOk result ((list_all value_fits values.now && timeout_fits timeout) ≡ true) }
{
    put_values(bytes, values)?;
    put_timeout(bytes, timeout)
}
