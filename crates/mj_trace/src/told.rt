// What a job was told is found in a line.

ghost use Rattle.std.specs.Prelude.{◌≡◌, IfOk};
ghost use Rattle.std.specs.Option.{option_map};
ghost use Rattle.mj_trace.specs.Reading.{is_absent, answer_in, number_kept, kept_in, clash_in, job_in, given_as, given_in, done_of, limit_of, reply_in};

use crate::devices::{Given, given_by};
use crate::found::{Found, find_subscript, find_text, read_code, read_count, read_number};
use crate::members::{find_shared_name, find_subtree};
use crate::run::{Run, begins_with, skip, split};
use mj_ask::{Ask, BoxedClash, Clash, Kept, Reply, SharedAsk};
use mj_store::{Access, Answer};
use std::alloc::{AllocError, Global};

/// Finds the reply to an ask.
pub(crate) fn find_reply(
    alloc: Global,
    ask: &Ask,
    bytes: &[u8],
) -> Result<Option<Reply>, AllocError>
    ensures { IfOk result (λ r. r ≡ reply_in ask.now bytes.now) }
{
    Ok(if bytes == b"done".as_slice() {
        Some(done_of(ask))
    } else if bytes == b"limit".as_slice() {
        Some(limit_of(ask))
    } else if bytes == b"got".as_slice() {
        Some(Reply::Got)
    } else if bytes == b"late".as_slice() {
        Some(Reply::Late)
    } else if bytes == b"none".as_slice() {
        Some(Reply::NoSession)
    } else if bytes == b"failed".as_slice() {
        Some(Reply::Failed)
    } else if bytes == b"end".as_slice() {
        Some(Reply::End)
    } else {
        find_given(alloc, ask, bytes)?
    })
}

// Gives the reply that it is done: an access is answered so.
fn done_of(ask: &Ask) -> Reply
    ensures { result ≡ done_of ask.now }
{
    match ask {
        Ask::Shared(SharedAsk::Access(_)) => Reply::Answer(Answer::Done),
        _ => Reply::Done,
    }
}

// Gives the reply that a limit would be passed: an access is answered so.
fn limit_of(ask: &Ask) -> Reply
    ensures { result ≡ limit_of ask.now }
{
    match ask {
        Ask::Shared(SharedAsk::Access(_)) => Reply::Answer(Answer::Limit),
        _ => Reply::Limit,
    }
}

// Finds a reply that is no word.
fn find_given(alloc: Global, ask: &Ask, bytes: &[u8]) -> Result<Option<Reply>, AllocError>
    ensures { IfOk result (λ r. r ≡ given_in ask.now bytes.now) }
{
    match ask {
        Ask::Shared(SharedAsk::Access(access)) => match find_answer(alloc, access, bytes)? {
            Some(answer) => Ok(Some(Reply::Answer(answer))),
            None => Ok(None),
        },
        Ask::Device(_, ask) => find_given_as(alloc, given_by(ask), bytes),
        Ask::Shared(SharedAsk::Start(_, _)) => Ok(read_job(bytes)),
        Ask::Shared(SharedAsk::Commit) => find_clash(alloc, bytes),
        _ => Ok(None),
    }
}

// Finds what a device gives.
fn find_given_as(alloc: Global, given: Given, bytes: &[u8]) -> Result<Option<Reply>, AllocError>
    ensures { IfOk result (λ r. r ≡ given_as given bytes.now) }
{
    match given {
        Given::Nothing => Ok(None),
        Given::Text => match find_text(alloc, bytes)? {
            Some((text, _)) => Ok(Some(Reply::Line(text))),
            None => Ok(None),
        },
        Given::Code => match read_code(bytes) {
            Some((code, _)) => Ok(Some(Reply::Byte(code))),
            None => Ok(None),
        },
    }
}

// Finds what an access is answered.
fn find_answer(alloc: Global, access: &Access, bytes: &[u8]) -> Result<Option<Answer>, AllocError>
    ensures { IfOk result (λ r. r ≡ answer_in access.now bytes.now) }
{
    match access {
        Access::Value(_) => {
            if is_absent(bytes) {
                return Ok(Some(Answer::Value(None)));
            }
            match find_text(alloc, bytes)? {
                Some((text, _)) => Ok(Some(Answer::Value(Some(text)))),
                None => Ok(None),
            }
        }
        Access::Data(_) => match read_code(bytes) {
            Some((data, _)) => Ok(Some(Answer::Data(data))),
            None => Ok(None),
        },
        Access::Order(_, _) => {
            if is_absent(bytes) {
                return Ok(Some(Answer::Order(None)));
            }
            match find_subscript(alloc, bytes)? {
                Some((sub, _)) => Ok(Some(Answer::Order(Some(sub)))),
                None => Ok(None),
            }
        }
        Access::Query(_) => {
            if is_absent(bytes) {
                return Ok(Some(Answer::Query(None)));
            }
            match find_shared_name(alloc, bytes)? {
                Some((name, _)) => Ok(Some(Answer::Query(Some(name)))),
                None => Ok(None),
            }
        }
        Access::Subtree(_) => match find_subtree(alloc, bytes)? {
            Some((nodes, _)) => Ok(Some(Answer::Subtree(nodes))),
            None => Ok(None),
        },
        Access::Set(_, _) | Access::Kill(_) | Access::Put(_, _) => Ok(None),
    }
}

// Whether the bytes say that there is nothing.
fn is_absent(bytes: &[u8]) -> bool
    ensures { result ≡ is_absent bytes.now }
{
    bytes == b"-".as_slice()
}

// Reads the number of a job, behind its word.
fn read_job(bytes: &[u8]) -> Option<Reply>
    ensures { result ≡ job_in bytes.now }
{
    let (_, behind) = split(bytes, Run::Letters);
    match read_count(skip(behind)) {
        Some((job, _)) => Some(Reply::Job(job)),
        None => None,
    }
}

// Finds a clash, behind its word.
fn find_clash(alloc: Global, bytes: &[u8]) -> Result<Option<Reply>, AllocError>
    ensures { IfOk result (λ r. r ≡ clash_in bytes.now) }
{
    let (_, behind) = split(bytes, Run::Letters);
    let Some((place, rest)) = read_count(skip(behind)) else {
        return Ok(None);
    };
    let Some((then, rest)) = find_kept(alloc, skip(rest))? else {
        return Ok(None);
    };
    match find_kept(alloc, skip(rest)) {
        Ok(Some((now, _))) => {
            let clash = BoxedClash::new(alloc, Clash { place, then, now })?;
            Ok(Some(Reply::Clash(clash)))
        }
        Ok(None) => {
            drop(then);
            Ok(None)
        }
        Err(refused) => {
            drop(then);
            Err(refused)
        }
    }
}

// Finds what a clash keeps.
fn find_kept<'a>(alloc: Global, bytes: &'a [u8]) -> Result<Found<'a, Kept>, AllocError>
    ensures { IfOk result (λ r. option_map (λ p. (p.0, p.1.now)) r ≡ kept_in bytes.now) }
{
    if begins_with(b'"', bytes) {
        match find_text(alloc, bytes)? {
            Some((text, rest)) => Ok(Some((Kept::Text(text), rest))),
            None => Ok(None),
        }
    } else if begins_with(b'^', bytes) {
        match find_shared_name(alloc, bytes)? {
            Some((name, rest)) => Ok(Some((Kept::Name(name), rest))),
            None => Ok(None),
        }
    } else if begins_with(b'{', bytes) {
        match find_subtree(alloc, bytes)? {
            Some((nodes, rest)) => Ok(Some((Kept::Subtree(nodes), rest))),
            None => Ok(None),
        }
    } else {
        Ok(read_kept_number(bytes))
    }
}

// Reads a number that a clash keeps, or nothing.
fn read_kept_number(bytes: &[u8]) -> Found<'_, Kept>
    ensures { option_map (λ p. (p.0, p.1.now)) result ≡ number_kept bytes.now }
{
    let (sign, behind) = split(bytes, Run::Number);
    if is_absent(sign) {
        return Some((Kept::Nothing, behind));
    }
    match read_number(bytes) {
        Some((number, rest)) => Some((Kept::Number(number), rest)),
        None => None,
    }
}
