// What is told of deadlocks, in words.

ghost use Rattle.std.specs.Prelude.{◌≡◌, ◌++◌, OnOk, option_copied};
ghost use Rattle.mj_describe.specs.Words.{name_text, asker_text, holder_text, wait_text, hold_text, holds_text, round_text, deadlock_text};

use crate::wording::{Shown, Spot, put, put_number, put_spot_at, put_where};
use mj_explain::{Asked, Hold, Wait, wanted_by};
use mj_gfile::put_name;
use mj_subs::Name;
use std::alloc::AllocError;
use std::marker::Model;

/// How the jobs of a trace stand at its end.
#[derive(Drop)]
pub struct Standing<'a> {
    /// what those ask that go on, and have no reply to
    pub asked: &'a [Asked],
    /// where in the routines each of these asks comes from
    pub spots: &'a [Spot],
    /// what jobs hold
    pub holds: &'a [Hold],
}

impl<'a> Model for Standing<'a> {
    ghost use Rattle.mj_describe.specs.Words.{Standing as Known};

    ghost Value = { Known };

    ghost view = { λ s. record { asked = s.asked.now; spots = s.spots.now; holds = s.holds.now } };
}

// Puts a name to the end, if there is one.
fn put_name_of(bytes: &mut Vec<u8>, name: Option<&Name>) -> Result<(), AllocError>
    ensures { OnOk result (bytes.new.items ≡ bytes.old.items ++ name_text (option_copied name.entry)) }
{
    match name {
        None => put(bytes, b"-"),
        Some(name) => put_name(bytes, name),
    }
}

// Puts the job of an ask to the end.
fn put_asker(bytes: &mut Vec<u8>, asked: Option<&Asked>) -> Result<(), AllocError>
    ensures { OnOk result (bytes.new.items ≡ bytes.old.items ++ asker_text (option_copied asked.entry)) }
{
    match asked {
        None => put(bytes, b"-"),
        Some((job, _)) => put_number(bytes, *job as usize),
    }
}

// Puts the job that holds something to the end, and the name that it holds.
fn put_holder(bytes: &mut Vec<u8>, hold: Option<&Hold>) -> Result<(), AllocError>
    ensures { OnOk result (bytes.new.items ≡ bytes.old.items ++ holder_text (option_copied hold.entry)) }
{
    let Some((job, name, _)) = hold else {
        return put(bytes, b"-");
    };
    put_number(bytes, *job as usize)?;
    put(bytes, b" holds ")?;
    put_name(bytes, name)
}

// Puts to the end that a job waits for a name that another holds.
fn put_wait(bytes: &mut Vec<u8>, standing: &Standing<'_>, wait: Wait) -> Result<(), AllocError>
    ensures { OnOk result (bytes.new.items ≡ bytes.old.items ++ wait_text standing.now wait) }
{
    let asked = standing.asked.get(wait.ask);
    put(bytes, b"  Job ")?;
    put_asker(bytes, asked)?;
    put(bytes, b" waits")?;
    put_spot_at(bytes, standing.spots.get(wait.ask))?;
    put(bytes, b" for ")?;
    put_name_of(bytes, wanted_by(asked, wait.name))?;
    put(bytes, b", while job ")?;
    put_holder(bytes, standing.holds.get(wait.hold))?;
    put(bytes, b".\n")
}

// Puts to the end that a job holds a name, and since when, if it is the job of this ask.
fn put_hold(
    bytes: &mut Vec<u8>,
    shown: &Shown<'_>,
    asked: Option<&Asked>,
    hold: &Hold,
) -> Result<(), AllocError>
    ensures { OnOk result (bytes.new.items ≡ bytes.old.items ++ hold_text shown.now (option_copied asked.entry) hold.now) }
{
    let Some((job, _)) = asked else {
        return Ok(());
    };
    let (holder, name, since) = hold;
    if *holder != *job {
        return Ok(());
    }
    put(bytes, b"  Job ")?;
    put_number(bytes, *holder as usize)?;
    put(bytes, b" holds ")?;
    put_name(bytes, name)?;
    put(bytes, b", taken at ")?;
    put_where(bytes, shown, *since)?;
    put(bytes, b".\n")
}

// Puts all that the job of an ask holds to the end.
fn put_holds(
    bytes: &mut Vec<u8>,
    shown: &Shown<'_>,
    asked: Option<&Asked>,
    holds: &[Hold],
) -> Result<(), AllocError>
    ensures { OnOk result (bytes.new.items ≡ bytes.old.items ++ holds_text shown.now (option_copied asked.entry) holds.now) }
{
    for hold in holds {
        put_hold(bytes, shown, asked, hold)?;
    }
    Ok(())
}

// Puts to the end what each job of a round holds, and what it waits for.
fn put_round(
    bytes: &mut Vec<u8>,
    shown: &Shown<'_>,
    standing: &Standing<'_>,
    waits: &[Wait],
) -> Result<(), AllocError>
    ensures { OnOk result (bytes.new.items ≡ bytes.old.items ++ round_text shown.now standing.now waits.now) }
{
    for wait in waits {
        put_holds(bytes, shown, standing.asked.get(wait.ask), standing.holds)?;
        put_wait(bytes, standing, *wait)?;
    }
    Ok(())
}

/// Puts a deadlock to the end of some bytes.
pub(crate) fn put_deadlock(
    bytes: &mut Vec<u8>,
    shown: &Shown<'_>,
    standing: &Standing<'_>,
    waits: &[Wait],
) -> Result<(), AllocError>
    ensures { OnOk result (bytes.new.items ≡ bytes.old.items ++ deadlock_text shown.now standing.now waits.now) }
{
    put(bytes, b"Deadlock of ")?;
    put_number(bytes, waits.len())?;
    put(
        bytes,
        b" jobs: each waits for the next, and the last for the first.\n",
    )?;
    put_round(bytes, shown, standing, waits)
}
