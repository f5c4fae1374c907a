// The request of a line.

ghost use Rattle.std.specs.Prelude.{◌≡◌, ◌≢◌, codes, ◌++◌, ◌∷◌, [], ◌<◌, ℕ, List, length, decimal, position, true, IfOk, IfSome, IfNone};
ghost use Rattle.mj_subs.specs.Name.{Name as NameOf};
ghost use Rattle.mj_ask.specs.Written.{is_entry, entry_text};
ghost use Rattle.mj_ask.specs.declared.entry.Entry.{Entry as EntryOf};
ghost use Rattle.mj_gfile.specs.Spelling.{listed_name};
ghost use Rattle.mj_steps.specs.Steps.{IsJob};
ghost use Rattle.mj_dialogue.specs.Commands.{IsSpot, spot_text};
ghost use Rattle.mj_inspect.specs.declared.special.Special.{Special as SpecialOf};
ghost use Rattle.mj_guide.specs.declared.request.Goal.{Goal as GoalOf};
ghost use Rattle.mj_guide.specs.declared.request.Request.{Request as RequestOf};
ghost use Rattle.mj_guide.specs.Requests.{IsLone, IsEntered, IsWatching, IsShowing, IsRequest, is_blank, is_named, request_text, special_text, goal_text, IsGoal};

use crate::request::{Goal, Request};
use mj_ask::Entry;
use mj_dialogue::spot_of;
use mj_gfile::{Field, read_name};
use mj_inspect::Special;
use mj_steps::job_of;
use mj_subs::Name;
use mj_text::Limit;
use std::alloc::{AllocError, Global};

/// Reads the request that a line spells, without its end; none where it spells none.
pub fn read(alloc: Global, line: &[u8]) -> Result<Option<Request>, AllocError>
    ensures some { IfOk result (λ found. IfSome found (λ request. IsRequest request × (line.now ≡ request_text request))) }
    ensures none { IfOk result (λ found. IfNone found ((request : RequestOf) → IsRequest request → line.now ≢ request_text request)) }
{
    if let Some(command) = mj_dialogue::read(alloc, line)? {
        return Ok(Some(Request::Plain(command)));
    }
    if let Some(request) = lone(line) {
        return Ok(Some(request));
    }
    if let Some(request) = of_entry(alloc, line)? {
        return Ok(Some(request));
    }
    if let Some(request) = of_watched(alloc, line)? {
        return Ok(Some(request));
    }
    if let Some(request) = of_shown(alloc, line)? {
        return Ok(Some(request));
    }
    if let Some(request) = source_at(alloc, line)? {
        return Ok(Some(request));
    }
    if let Some(request) = until(alloc, line)? {
        return Ok(Some(request));
    }
    keep(alloc, line)
}

// Reads a request that is a word alone.
fn lone(line: &[u8]) -> Option<Request>
    ensures some { IfSome result (λ request. IsRequest request × (line.now ≡ request_text request)) }
    ensures none { IfNone result ((request : RequestOf) → IsLone request → line.now ≢ request_text request) }
{
    if line == b"help".as_slice() {
        Some(Request::Help)
    } else if line == b"b".as_slice() {
        Some(Request::Breaks)
    } else if line == b"l".as_slice() {
        Some(Request::Source)
    } else if line == b"w".as_slice() {
        Some(Request::Waits)
    } else if line == b"watch".as_slice() {
        Some(Request::Watched)
    } else if line == b"branch".as_slice() {
        Some(Request::Branch)
    } else {
        None
    }
}

// Reads a request with an entry.
fn of_entry(alloc: Global, line: &[u8]) -> Result<Option<Request>, AllocError>
    ensures some { IfOk result (λ found. IfSome found (λ request. IsRequest request × (line.now ≡ request_text request))) }
    ensures none { IfOk result
        (λ found. IfNone found ((request : RequestOf) → IsEntered request → IsRequest request → line.now ≢ request_text request)) }
{
    if let Some(entry) = set_at(alloc, line)? {
        return Ok(Some(Request::SetAt(entry)));
    }
    if let Some(entry) = clear_at(alloc, line)? {
        return Ok(Some(Request::ClearAt(entry)));
    }
    match source_of(alloc, line)? {
        Some(entry) => Ok(Some(Request::SourceOf(entry))),
        None => Ok(None),
    }
}

// At which entry's line jobs are to stop.
fn set_at(alloc: Global, line: &[u8]) -> Result<Option<Entry>, AllocError>
    ensures some { IfOk result (λ found. IfSome found (λ entry. (is_entry entry ≡ true) × (line.now ≡ codes "b " ++ entry_text entry))) }
    ensures none { IfOk result
        (λ found. IfNone found ((entry : EntryOf) → is_entry entry ≡ true → line.now ≢ codes "b " ++ entry_text entry)) }
{
    match line.strip_prefix(b"b ") {
        Some(rest) => entry_of(alloc, rest),
        None => Ok(None),
    }
}

// At which entry's line jobs aren't to stop.
fn clear_at(alloc: Global, line: &[u8]) -> Result<Option<Entry>, AllocError>
    ensures some { IfOk result (λ found. IfSome found (λ entry. (is_entry entry ≡ true) × (line.now ≡ codes "d " ++ entry_text entry))) }
    ensures none { IfOk result
        (λ found. IfNone found ((entry : EntryOf) → is_entry entry ≡ true → line.now ≢ codes "d " ++ entry_text entry)) }
{
    match line.strip_prefix(b"d ") {
        Some(rest) => entry_of(alloc, rest),
        None => Ok(None),
    }
}

// Round which entry's line the source is to be shown.
fn source_of(alloc: Global, line: &[u8]) -> Result<Option<Entry>, AllocError>
    ensures some { IfOk result (λ found. IfSome found (λ entry. (is_entry entry ≡ true) × (line.now ≡ codes "l " ++ entry_text entry))) }
    ensures none { IfOk result
        (λ found. IfNone found ((entry : EntryOf) → is_entry entry ≡ true → line.now ≢ codes "l " ++ entry_text entry)) }
{
    match line.strip_prefix(b"l ") {
        Some(rest) => entry_of(alloc, rest),
        None => Ok(None),
    }
}

// The entry that is spelled so.
fn entry_of(alloc: Global, bytes: &[u8]) -> Result<Option<Entry>, AllocError>
    ensures some { IfOk result (λ found. IfSome found (λ entry. (is_entry entry ≡ true) × (bytes.now ≡ entry_text entry))) }
    ensures none { IfOk result (λ found. IfNone found ((entry : EntryOf) → is_entry entry ≡ true → bytes.now ≢ entry_text entry)) }
{
    match Entry::read(alloc, bytes)? {
        Some(entry) => Ok(Some(entry)),
        None => Ok(None),
    }
}

// Reads a request to watch a name, or not to.
fn of_watched(alloc: Global, line: &[u8]) -> Result<Option<Request>, AllocError>
    ensures some { IfOk result (λ found. IfSome found (λ request. IsRequest request × (line.now ≡ request_text request))) }
    ensures none { IfOk result
        (λ found. IfNone found ((request : RequestOf) → IsWatching request → IsRequest request → line.now ≢ request_text request)) }
{
    if let Some(name) = watch(alloc, line)? {
        return Ok(Some(Request::Watch(name)));
    }
    match unwatch(alloc, line)? {
        Some(name) => Ok(Some(Request::Unwatch(name))),
        None => Ok(None),
    }
}

// The name that is to be watched.
fn watch(alloc: Global, line: &[u8]) -> Result<Option<Name>, AllocError>
    ensures some { IfOk result
        (λ found. IfSome found (λ name. (name.global ≡ true) × (is_named name ≡ true) × (line.now ≡ codes "watch " ++ listed_name name))) }
    ensures none { IfOk result
        (λ found. IfNone found ((name : NameOf) → name.global ≡ true → is_named name ≡ true → line.now ≢ codes "watch " ++ listed_name name)) }
{
    match line.strip_prefix(b"watch ") {
        Some(rest) => global_of(alloc, rest),
        None => Ok(None),
    }
}

// The name that isn't to be watched.
fn unwatch(alloc: Global, line: &[u8]) -> Result<Option<Name>, AllocError>
    ensures some { IfOk result
        (λ found. IfSome found (λ name. (name.global ≡ true) × (is_named name ≡ true) × (line.now ≡ codes "unwatch " ++ listed_name name))) }
    ensures none { IfOk result
        (λ found. IfNone found ((name : NameOf) → name.global ≡ true → is_named name ≡ true → line.now ≢ codes "unwatch " ++ listed_name name)) }
{
    match line.strip_prefix(b"unwatch ") {
        Some(rest) => global_of(alloc, rest),
        None => Ok(None),
    }
}

// Reads a request to show a variable.
fn of_shown(alloc: Global, line: &[u8]) -> Result<Option<Request>, AllocError>
    ensures some { IfOk result (λ found. IfSome found (λ request. IsRequest request × (line.now ≡ request_text request))) }
    ensures none { IfOk result
        (λ found. IfNone found ((request : RequestOf) → IsShowing request → IsRequest request → line.now ≢ request_text request)) }
{
    let Some(rest) = line.strip_prefix(b"p ") else {
        return Ok(None);
    };
    if let Some(special) = special_of(rest) {
        return Ok(Some(Request::Special(special)));
    }
    if let Some(name) = name_of(alloc, rest)? {
        return Ok(Some(Request::Show(name)));
    }
    let Some((job, behind)) = job_in(rest) else {
        return Ok(None);
    };
    if let Some(special) = special_of(behind) {
        return Ok(Some(Request::SpecialOf { job, special }));
    }
    match name_of(alloc, behind)? {
        Some(name) => Ok(Some(Request::ShowOf { job, name })),
        None => Ok(None),
    }
}

// The special variable that is spelled so.
fn special_of(bytes: &[u8]) -> Option<Special>
    ensures some { IfSome result (λ special. bytes.now ≡ special_text special) }
    ensures none { IfNone result ((special : SpecialOf) → bytes.now ≢ special_text special) }
{
    if bytes == b"$TEST".as_slice() {
        Some(Special::Test)
    } else if bytes == b"$TLEVEL".as_slice() {
        Some(Special::Level)
    } else {
        None
    }
}

// The job whose number stands before the first blank, and what is behind that.
fn job_in(bytes: &[u8]) -> Option<(u32, &[u8])>
    ensures some { IfSome result (λ two. IsJob two.0 × (bytes.now ≡ decimal two.0 ++ 32 ∷ two.1.now)) }
    ensures none { IfNone result ((job : ℕ) (behind : List ℕ) → IsJob job → bytes.now ≢ decimal job ++ 32 ∷ behind) }
{
    let Some(at) = blank(bytes) else {
        return None;
    };
    let (number, behind) = (&bytes[..at], &bytes[at + 1..]);
    let Some(job) = job_of(number) else {
        return None;
    };
    Some((job, behind))
}

// Where the first blank is.
fn blank(bytes: &[u8]) -> Option<usize>
    ensures value { result ≡ position is_blank bytes.now }
    ensures within { IfSome result (λ at. at < length bytes.now) }
{
    bytes.iter().position(|byte| *byte == b' ')
}

// Reads round which line the source is to be shown.
fn source_at(alloc: Global, line: &[u8]) -> Result<Option<Request>, AllocError>
    ensures some { IfOk result (λ found. IfSome found (λ request. IsRequest request × (line.now ≡ request_text request))) }
    ensures none { IfOk result
        (λ found. IfNone found ((routine : List ℕ) (number : ℕ) → IsSpot routine number → line.now ≢ codes "l " ++ spot_text routine number)) }
{
    let Some(rest) = line.strip_prefix(b"l ") else {
        return Ok(None);
    };
    match spot_of(alloc, rest)? {
        Some((routine, line)) => Ok(Some(Request::SourceAt { routine, line })),
        None => Ok(None),
    }
}

// Reads up to what jobs are to go on.
fn until(alloc: Global, line: &[u8]) -> Result<Option<Request>, AllocError>
    ensures some { IfOk result (λ found. IfSome found (λ request. IsRequest request × (line.now ≡ request_text request))) }
    ensures none { IfOk result (λ found. IfNone found ((goal : GoalOf) → IsGoal goal → line.now ≢ codes "until " ++ goal_text goal)) }
{
    let Some(rest) = line.strip_prefix(b"until ") else {
        return Ok(None);
    };
    match goal_of(alloc, rest)? {
        Some(goal) => Ok(Some(Request::Until(goal))),
        None => Ok(None),
    }
}

// Reads to which file the steps are to be written.
fn keep(alloc: Global, line: &[u8]) -> Result<Option<Request>, AllocError>
    ensures some { IfOk result (λ found. IfSome found (λ request. IsRequest request × (line.now ≡ request_text request))) }
    ensures none { IfOk result (λ found. IfNone found ((file : List ℕ) → file ≢ [] → line.now ≢ codes "keep " ++ file)) }
{
    let Some(rest) = line.strip_prefix(b"keep ") else {
        return Ok(None);
    };
    if rest.is_empty() {
        return Ok(None);
    }
    let mut file = Vec::new(alloc);
    file.extend_from_slice(rest)?;
    Ok(Some(Request::Keep(file)))
}

// What jobs are to go on up to, which is spelled so.
fn goal_of(alloc: Global, bytes: &[u8]) -> Result<Option<Goal>, AllocError>
    ensures some { IfOk result (λ found. IfSome found (λ goal. IsGoal goal × (bytes.now ≡ goal_text goal))) }
    ensures none { IfOk result (λ found. IfNone found ((goal : GoalOf) → IsGoal goal → bytes.now ≢ goal_text goal)) }
{
    if bytes == b"clash".as_slice() {
        return Ok(Some(Goal::Clash));
    }
    if bytes == b"busy".as_slice() {
        return Ok(Some(Goal::Busy));
    }
    if bytes == b"fault".as_slice() {
        return Ok(Some(Goal::Fault));
    }
    match spot_of(alloc, bytes)? {
        Some((routine, line)) => Ok(Some(Goal::Line { routine, line })),
        None => Ok(None),
    }
}

// The name of a global that is spelled so.
fn global_of(alloc: Global, bytes: &[u8]) -> Result<Option<Name>, AllocError>
    ensures some { IfOk result (λ found. IfSome found (λ name. (name.global ≡ true) × (is_named name ≡ true) × (bytes.now ≡ listed_name name))) }
    ensures none { IfOk result
        (λ found. IfNone found ((name : NameOf) → name.global ≡ true → is_named name ≡ true → bytes.now ≢ listed_name name)) }
{
    let Some(name) = name_of(alloc, bytes)? else {
        return Ok(None);
    };
    if !name.is_global() {
        return Ok(None);
    }
    Ok(Some(name))
}

// The name that is spelled so, as a listing has it.
fn name_of(alloc: Global, bytes: &[u8]) -> Result<Option<Name>, AllocError>
    ensures some { IfOk result (λ found. IfSome found (λ name. (is_named name ≡ true) × (bytes.now ≡ listed_name name))) }
    ensures none { IfOk result (λ found. IfNone found ((name : NameOf) → is_named name ≡ true → bytes.now ≢ listed_name name)) }
{
    let Some((read, rest)) = read_name(alloc, bytes, Limit::V2)? else {
        return Ok(None);
    };
    let Field::Within(name) = read else {
        return Ok(None);
    };
    if !rest.is_empty() {
        return Ok(None);
    }
    Ok(Some(name))
}
