// What a run does in the place of an event, in words.

ghost use Rattle.std.specs.Prelude.{◌≡◌, ◌++◌, IfOk, OnOk, option_copied};
ghost use Rattle.mj_describe.specs.Words.{spot_from, then_told, instead_text};

use crate::wording::{Spot, put, put_number, put_spot};
use mj_ask::{Ask, Reply};
use mj_trace::{put_ask, put_reply};
use std::alloc::{AllocError, Global};

/// What a job asks in the place of an event, from which line of a routine, and what it is told, if that is known: a line that is shifted to the right.
pub fn instead_words(
    alloc: Global,
    job: u32,
    ask: &Ask,
    spot: &Spot,
    told: Option<&Reply>,
) -> Result<Vec<u8>, AllocError>
    ensures { IfOk result (λ bytes. bytes.items ≡ instead_text job ask.now spot.now (option_copied told.entry)) }
{
    let mut bytes = Vec::new(alloc);
    put_instead(alloc, &mut bytes, job, ask, spot, told)?;
    Ok(bytes)
}

// Puts that line to the end.
fn put_instead(
    alloc: Global,
    bytes: &mut Vec<u8>,
    job: u32,
    ask: &Ask,
    spot: &Spot,
    told: Option<&Reply>,
) -> Result<(), AllocError>
    ensures { OnOk result (bytes.new.items ≡ bytes.old.items ++ instead_text job ask.now spot.now (option_copied told.entry)) }
{
    put(bytes, b"    job ")?;
    put_number(bytes, job as usize)?;
    put(bytes, b" asks ")?;
    put_ask(alloc, bytes, ask)?;
    put_spot_from(bytes, spot)?;
    put(bytes, b" here")?;
    put_then_told(bytes, told)?;
    put(bytes, b"\n")
}

// Puts ` from` and a spot to the end, where it is one.
fn put_spot_from(bytes: &mut Vec<u8>, spot: &Spot) -> Result<(), AllocError>
    ensures { OnOk result (bytes.new.items ≡ bytes.old.items ++ spot_from spot.now) }
{
    let Some((routine, line)) = spot else {
        return Ok(());
    };
    put(bytes, b" from ")?;
    put_spot(bytes, routine, *line)
}

// Puts what is told then to the end, if that is known.
fn put_then_told(bytes: &mut Vec<u8>, told: Option<&Reply>) -> Result<(), AllocError>
    ensures { OnOk result (bytes.new.items ≡ bytes.old.items ++ then_told (option_copied told.entry)) }
{
    let Some(reply) = told else {
        return Ok(());
    };
    put(bytes, b", and is told ")?;
    put_reply(bytes, reply)
}
