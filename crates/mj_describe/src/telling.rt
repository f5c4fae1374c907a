// What is told of a trace, in words.

ghost use Rattle.std.specs.Prelude.{◌≡◌, ◌++◌, IfOk, OnOk, map, length, codes};
ghost use Rattle.mj_describe.specs.Words.{clash_text, loss_text, deadlock_text, apart, more_text, counts_text, is_plain_begin, have_plain, plain_text, story_text};

use crate::deadlocks::{Standing, put_deadlock};
use crate::wording::{Shown, put, put_clash, put_loss, put_number};
use mj_ask::{Ask, Kind, Noted, SharedAsk};
use mj_explain::{Loss, Story, ToldClash, Wait};
use std::alloc::{AllocError, Global};

/// Tells what there is to tell of a trace in words.
pub fn words(
    alloc: Global,
    shown: &Shown<'_>,
    standing: &Standing<'_>,
    story: &Story,
) -> Result<Vec<u8>, AllocError>
    ensures { IfOk result (λ bytes. bytes.items ≡ story_text shown.now standing.now story.now) }
{
    let mut bytes = Vec::new(alloc);
    put_counts(&mut bytes, shown, story)?;
    put_clashes(alloc, &mut bytes, shown, &story.clashes)?;
    put_more(
        &mut bytes,
        b" clashes",
        story.clashes.len(),
        story.all_clashes,
    )?;
    put_deadlocks(&mut bytes, shown, standing, &story.deadlocks)?;
    put_losses(alloc, &mut bytes, shown, &story.losses)?;
    put_more(
        &mut bytes,
        b" lost updates",
        story.losses.len(),
        story.all_losses,
    )?;
    put_plain(&mut bytes, shown.events)?;
    Ok(bytes)
}

// Puts how many there are of each to the end.
fn put_counts(bytes: &mut Vec<u8>, shown: &Shown<'_>, story: &Story) -> Result<(), AllocError>
    ensures { OnOk result (bytes.new.items ≡ bytes.old.items ++ counts_text (length shown.now.events) story.now) }
{
    put(bytes, b"events: ")?;
    put_number(bytes, shown.events.len())?;
    put(bytes, b", clashes: ")?;
    put_number(bytes, story.all_clashes)?;
    put(bytes, b", deadlocks: ")?;
    put_number(bytes, story.deadlocks.len())?;
    put(bytes, b", lost updates: ")?;
    put_number(bytes, story.all_losses)?;
    put(bytes, b"\n")
}

// Puts clashes to the end, with an empty line before each.
fn put_clashes(
    alloc: Global,
    bytes: &mut Vec<u8>,
    shown: &Shown<'_>,
    clashes: &[ToldClash],
) -> Result<(), AllocError>
    ensures { OnOk result (bytes.new.items ≡ bytes.old.items ++ apart (clash_text shown.now) clashes.now) }
{
    for clash in clashes {
        put(bytes, b"\n")?;
        put_clash(alloc, bytes, shown, clash)?;
    }
    Ok(())
}

// Puts deadlocks to the end, with an empty line before each.
fn put_deadlocks(
    bytes: &mut Vec<u8>,
    shown: &Shown<'_>,
    standing: &Standing<'_>,
    deadlocks: &[Vec<Wait>],
) -> Result<(), AllocError>
    ensures { OnOk result (bytes.new.items ≡ bytes.old.items ++ apart (deadlock_text shown.now standing.now) (map (λ d. d.items) deadlocks.now)) }
{
    for waits in deadlocks {
        put(bytes, b"\n")?;
        put_deadlock(bytes, shown, standing, waits)?;
    }
    Ok(())
}

// Puts lost updates to the end, with an empty line before each.
fn put_losses(
    alloc: Global,
    bytes: &mut Vec<u8>,
    shown: &Shown<'_>,
    losses: &[Loss],
) -> Result<(), AllocError>
    ensures { OnOk result (bytes.new.items ≡ bytes.old.items ++ apart (loss_text shown.now) losses.now) }
{
    for loss in losses {
        put(bytes, b"\n")?;
        put_loss(alloc, bytes, shown, *loss)?;
    }
    Ok(())
}

// Puts to the end how many more there are than are told, if there are more.
fn put_more(bytes: &mut Vec<u8>, what: &[u8], told: usize, all: usize) -> Result<(), AllocError>
    ensures { OnOk result (bytes.new.items ≡ bytes.old.items ++ more_text what.now told all) }
{
    if told >= all {
        return Ok(());
    }
    put(bytes, b"\nAnd ")?;
    put_number(bytes, all - told)?;
    put(bytes, what)?;
    put(bytes, b" more.\n")
}

// Puts to the end that nothing compares what a transaction without SERIAL has read, if there is one: so no clash is told of it.
fn put_plain(bytes: &mut Vec<u8>, events: &[Noted]) -> Result<(), AllocError>
    ensures { OnOk result (bytes.new.items ≡ bytes.old.items ++ plain_text events.now) }
{
    if !have_plain(events) {
        return Ok(());
    }
    put(
        bytes,
        b"\nThere are transactions without SERIAL. What they read may be out of date when they commit: nothing is compared then.\n",
    )
}

// Whether one of some events begins a transaction without SERIAL.
fn have_plain(events: &[Noted]) -> bool
    ensures { result ≡ have_plain events.now }
{
    events.iter().any(|event| is_plain_begin(&event.ask))
}

// Whether it begins a transaction without SERIAL.
fn is_plain_begin(ask: &Ask) -> bool
    ensures { result ≡ is_plain_begin ask.now }
{
    matches!(ask, Ask::Shared(SharedAsk::Begin(Kind::Plain)))
}
