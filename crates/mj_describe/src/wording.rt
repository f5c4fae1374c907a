// What is told of a trace, in words.

ghost use Rattle.std.specs.Prelude.{◌≡◌, ◌++◌, ◌∷◌, [], OnOk, codes, decimal, slice_get, option_copied};
ghost use Rattle.mj_ask.specs.declared.ask.Reply.TheVariants as replies;
ghost use Rattle.mj_trace.specs.Spelling.{reply_text};
ghost use Rattle.mj_describe.specs.Words.{where_text, spot_part, spot_at, spot_text, spot_of, line_of};
ghost use Rattle.mj_describe.specs.Words.{job_of, ask_of, reply_of, job_text, asked_text, told_text};
ghost use Rattle.mj_describe.specs.Words.{made_text, cause_text, clash_head, why_text, clash_text, looks_text, ordered_text, loss_text};

use itoa::Buffer;
use mj_ask::{Noted, Reply};
use mj_explain::{Landing, Loss, ToldClash, Why};
use mj_store::Answer;
use mj_text::{Digits, Text};
use mj_trace::{put_ask, put_reply};
use std::alloc::{AllocError, Global};
use std::marker::Model;

/// Where a job stands in the routines: a routine and a line of it, or nowhere.
pub type Spot = Option<(Text, u32)>;

/// What is known of a trace.
#[derive(Drop)]
pub struct Shown<'a> {
    /// how many lines stand between its header and its events
    pub before: usize,
    /// its events
    pub events: &'a [Noted],
    /// where in the routines each of them comes from
    pub spots: &'a [Spot],
}

impl<'a> Model for Shown<'a> {
    ghost use Rattle.mj_describe.specs.Words.{Shown as Known};

    ghost Value = { Known };

    ghost view = { λ s. record { before = s.before; events = s.events.now; spots = s.spots.now } };
}

/// Puts words to the end of some bytes.
pub(crate) fn put(bytes: &mut Vec<u8>, words: &[u8]) -> Result<(), AllocError>
    ensures { OnOk result (bytes.new.items ≡ bytes.old.items ++ words.now) }
{
    bytes.extend_from_slice(words)
}

/// Puts a number to the end of some bytes.
pub(crate) fn put_number(bytes: &mut Vec<u8>, number: usize) -> Result<(), AllocError>
    ensures { OnOk result (bytes.new.items ≡ bytes.old.items ++ decimal number) }
{
    bytes.extend_from_slice(Buffer::new().format(number).as_bytes())
}

/// Puts a routine and a line to the end.
pub(crate) fn put_spot(bytes: &mut Vec<u8>, routine: &Text, line: u32) -> Result<(), AllocError>
    ensures { OnOk result (bytes.new.items ≡ bytes.old.items ++ spot_text (routine.now, line)) }
{
    bytes.extend_from_slice(routine.bytes(&mut Digits::new()))?;
    bytes.push(b':')?;
    bytes.extend_from_slice(Buffer::new().format(line).as_bytes())
}

// Puts a spot in parentheses to the end, where it is one.
fn put_spot_part(bytes: &mut Vec<u8>, spot: Option<&Spot>) -> Result<(), AllocError>
    ensures { OnOk result (bytes.new.items ≡ bytes.old.items ++ spot_part (spot_of (option_copied spot.entry))) }
{
    let Some(Some((routine, line))) = spot else {
        return Ok(());
    };
    put(bytes, b" (")?;
    put_spot(bytes, routine, *line)?;
    bytes.push(b')')?;
    Ok(())
}

/// Puts ` at` and a spot to the end, where it is one.
pub(crate) fn put_spot_at(bytes: &mut Vec<u8>, spot: Option<&Spot>) -> Result<(), AllocError>
    ensures { OnOk result (bytes.new.items ≡ bytes.old.items ++ spot_at (spot_of (option_copied spot.entry))) }
{
    let Some(Some((routine, line))) = spot else {
        return Ok(());
    };
    put(bytes, b" at ")?;
    put_spot(bytes, routine, *line)
}

// The line of a trace on which an event stands, where so many lines stand between its header and its events.
fn line_of(before: usize, place: usize) -> usize
    ensures { result ≡ line_of before place }
{
    before.saturating_add(place).saturating_add(2)
}

/// Puts the line of an event to the end, and the line of a routine from which it comes.
pub(crate) fn put_where(
    bytes: &mut Vec<u8>,
    shown: &Shown<'_>,
    place: usize,
) -> Result<(), AllocError>
    ensures { OnOk result (bytes.new.items ≡ bytes.old.items ++ where_text shown.now place) }
{
    put(bytes, b"line ")?;
    put_number(bytes, line_of(shown.before, place))?;
    put_spot_part(bytes, shown.spots.get(place))
}

// Puts `job` and the number of an event's job to the end.
fn put_job(bytes: &mut Vec<u8>, shown: &Shown<'_>, place: usize) -> Result<(), AllocError>
    ensures { OnOk result (bytes.new.items ≡ bytes.old.items ++ job_text shown.now place) }
{
    put(bytes, b"job ")?;
    put_job_of(bytes, shown.events.get(place))
}

// Puts the number of an event's job to the end.
fn put_job_of(bytes: &mut Vec<u8>, event: Option<&Noted>) -> Result<(), AllocError>
    ensures { OnOk result (bytes.new.items ≡ bytes.old.items ++ job_of (option_copied event.entry)) }
{
    match event {
        None => put(bytes, b"-"),
        Some(event) => put_number(bytes, event.job as usize),
    }
}

// Puts what a job asked to the end.
fn put_ask_of(alloc: Global, bytes: &mut Vec<u8>, event: Option<&Noted>) -> Result<(), AllocError>
    ensures { OnOk result (bytes.new.items ≡ bytes.old.items ++ ask_of (option_copied event.entry)) }
{
    match event {
        None => put(bytes, b"-"),
        Some(event) => put_ask(alloc, bytes, &event.ask),
    }
}

// Puts what a job was told to the end.
fn put_reply_of(bytes: &mut Vec<u8>, event: Option<&Noted>) -> Result<(), AllocError>
    ensures { OnOk result (bytes.new.items ≡ bytes.old.items ++ reply_of (option_copied event.entry)) }
{
    match event {
        None => put(bytes, b"-"),
        Some(event) => put_reply(bytes, &event.reply),
    }
}

// Puts to the end that a job asked something at a place.
fn put_asked(
    alloc: Global,
    bytes: &mut Vec<u8>,
    shown: &Shown<'_>,
    place: usize,
) -> Result<(), AllocError>
    ensures { OnOk result (bytes.new.items ≡ bytes.old.items ++ asked_text shown.now place) }
{
    put(bytes, b"  At ")?;
    put_where(bytes, shown, place)?;
    put(bytes, b" ")?;
    put_job(bytes, shown, place)?;
    put(bytes, b" asked ")?;
    put_ask_of(alloc, bytes, shown.events.get(place))
}

// Puts that, and what it was told.
fn put_told(
    alloc: Global,
    bytes: &mut Vec<u8>,
    shown: &Shown<'_>,
    place: usize,
) -> Result<(), AllocError>
    ensures { OnOk result (bytes.new.items ≡ bytes.old.items ++ told_text shown.now place) }
{
    put_asked(alloc, bytes, shown, place)?;
    put(bytes, b" and was told ")?;
    put_reply_of(bytes, shown.events.get(place))
}

// Puts how a change was made to the end.
fn put_made(bytes: &mut Vec<u8>, shown: &Shown<'_>, landing: Landing) -> Result<(), AllocError>
    ensures { OnOk result (bytes.new.items ≡ bytes.old.items ++ made_text shown.now landing) }
{
    if landing.made == landing.write {
        return put(bytes, b", which changed that at once.");
    }
    put(bytes, b", which changed that by the commit at ")?;
    put_where(bytes, shown, landing.made)?;
    put(bytes, b".")
}

// Puts which change it was to the end.
fn put_cause(
    alloc: Global,
    bytes: &mut Vec<u8>,
    shown: &Shown<'_>,
    cause: Option<Landing>,
) -> Result<(), AllocError>
    ensures { OnOk result (bytes.new.items ≡ bytes.old.items ++ cause_text shown.now cause) }
{
    let Some(landing) = cause else {
        return Ok(());
    };
    put_asked(alloc, bytes, shown, landing.write)?;
    put_made(bytes, shown, landing)?;
    put(bytes, b"\n")
}

// Puts which commit clashed to the end.
fn put_clash_head(
    bytes: &mut Vec<u8>,
    shown: &Shown<'_>,
    clash: &ToldClash,
) -> Result<(), AllocError>
    ensures { OnOk result (bytes.new.items ≡ bytes.old.items ++ clash_head shown.now clash.now) }
{
    put(bytes, b"Clash: ")?;
    put_job(bytes, shown, clash.commit)?;
    put(bytes, b" couldn't commit at ")?;
    put_where(bytes, shown, clash.commit)
}

// Puts the answer that a read has at the commit to the end.
fn put_answer(bytes: &mut Vec<u8>, answer: &Answer) -> Result<(), AllocError>
    ensures { OnOk result (bytes.new.items ≡ bytes.old.items ++ reply_text (replies.Answer answer.now)) }
{
    let reply = Reply::Answer(answer.try_clone()?);
    let done = put_reply(bytes, &reply);
    drop(reply);
    done
}

// Puts why a commit clashed to the end, where that is known.
fn put_why(
    alloc: Global,
    bytes: &mut Vec<u8>,
    shown: &Shown<'_>,
    why: Option<&Why>,
) -> Result<(), AllocError>
    ensures { OnOk result (bytes.new.items ≡ bytes.old.items ++ why_text shown.now (option_copied why.entry)) }
{
    let Some(why) = why else {
        return put(bytes, b".\n");
    };
    put(bytes, b" the transaction begun at ")?;
    put_where(bytes, shown, why.begin)?;
    put(bytes, b".\n")?;
    put_told(alloc, bytes, shown, why.read)?;
    put(bytes, b". At the commit it would be told ")?;
    put_answer(bytes, &why.answer)?;
    put(bytes, b".\n")?;
    put_cause(alloc, bytes, shown, why.cause)
}

/// Puts a clash to the end of some bytes.
pub(crate) fn put_clash(
    alloc: Global,
    bytes: &mut Vec<u8>,
    shown: &Shown<'_>,
    clash: &ToldClash,
) -> Result<(), AllocError>
    ensures { OnOk result (bytes.new.items ≡ bytes.old.items ++ clash_text shown.now clash.now) }
{
    put_clash_head(bytes, shown, clash)?;
    put_why(alloc, bytes, shown, clash.why.as_ref())
}

// Puts two looks to the end.
fn put_looks(
    alloc: Global,
    bytes: &mut Vec<u8>,
    shown: &Shown<'_>,
    first: usize,
    second: usize,
) -> Result<(), AllocError>
    ensures { OnOk result (bytes.new.items ≡ bytes.old.items ++ looks_text shown.now first second) }
{
    put_told(alloc, bytes, shown, first)?;
    put(bytes, b".\n")?;
    put_told(alloc, bytes, shown, second)?;
    put(bytes, b".\n")
}

// Puts the two looks of a lost update to the end, in their order.
fn put_ordered(
    alloc: Global,
    bytes: &mut Vec<u8>,
    shown: &Shown<'_>,
    loss: Loss,
) -> Result<(), AllocError>
    ensures { OnOk result (bytes.new.items ≡ bytes.old.items ++ ordered_text shown.now loss) }
{
    if loss.second_look < loss.first_look {
        put_looks(alloc, bytes, shown, loss.second_look, loss.first_look)
    } else {
        put_looks(alloc, bytes, shown, loss.first_look, loss.second_look)
    }
}

/// Puts a lost update to the end of some bytes.
pub(crate) fn put_loss(
    alloc: Global,
    bytes: &mut Vec<u8>,
    shown: &Shown<'_>,
    loss: Loss,
) -> Result<(), AllocError>
    ensures { OnOk result (bytes.new.items ≡ bytes.old.items ++ loss_text shown.now loss) }
{
    put(bytes, b"Lost update: what ")?;
    put_job(bytes, shown, loss.first_write)?;
    put(bytes, b" set is lost.\n")?;
    put_ordered(alloc, bytes, shown, loss)?;
    put_asked(alloc, bytes, shown, loss.first_write)?;
    put(bytes, b".\n")?;
    put_asked(alloc, bytes, shown, loss.second_write)?;
    put(bytes, b", without a look at that.\n")
}
