// What jobs ask of what they share, served.

ghost use Rattle.std.specs.Prelude.{◌≡◌, ◌≤◌, [], length, true, IfOk};
ghost use Rattle.mj_dev.specs.Shelves.{principal, left_of};
ghost use Rattle.mj_jobs.specs.Rows.{rows_limit};
ghost use Rattle.mj_sys.specs.Opening.{opening_of, are_bare};
ghost use Rattle.mj_sys.specs.Shared.{are_global};

use crate::histories::{if_put, put_count, put_history};
use crate::listening::{may_not_refuse, may_refuse};
use crate::script::{is_event, noted_line, script};
use crate::told::Told;
use mj_ask::{Ask, Noted, Reply, Start};
use mj_dev::{Device, Memory, Pool, Session};
use mj_gfile::read;
use mj_globs::Globals;
use mj_sys::{Claim, Opening, Refused, Served, System};
use mj_test_core::begins::{add, starts};
use mj_test_core::standing::shared;
use mj_text::{Failure, Limit, Text};
use std::alloc::{AllocError, Global};
use std::marker::Brand;

const BEFORE: &[u8] = b"mj-globals 2\n^A(1)=\"1\"\n^A(2)=\"2\"\n";

const FIRST: &str = "1 value ^A(1) \"1\"
1 data ^A 10
1 order ^A(\"\") 1 1
1 order ^A(\"\") -1 2
1 query ^A ^A(1)
1 subtree ^A {(1)=\"1\",(2)=\"2\"}
1 set ^B(1,\"x\") \"a text that is so long that it has room of its own\" done
1 put ^C {()=\"c\",(1,2)=\"d\"} done
1 kill ^A(1) done
1 try ^L,^M(1) got
2 try ^L(1) :0 late
2 try ^N,^M(2) got
1 open \"F\" got
2 open \"F\" :0 late
";

// What is busy there: it is told nothing.
const BUSY: &str = "2 try ^N,^L(1) got
2 open \"F\" got
";

const SECOND: &str = "1 unlock ^L done
1 close \"F\" done
1 open \"F\" none
1 start A^R () job 3
1 begin serial done
1 value ^A(2) \"2\"
1 set ^A(2) \"3\" done
1 kill ^B done
1 put ^D {(1)=\"1\"} done
1 unlock ^M(1) done
1 try ^P got
1 commit done
2 begin done
2 set ^E \"1\" done
2 order ^A(\"\") 1 2
2 try ^Q got
2 rollback done
2 begin serial done
2 data ^A 10
1 kill ^A done
2 commit clash 1 10 0
1 unlock * done
1 try ^R got
1 halt done
2 try ^P,^R :0 got
2 halt F2 done
";

/// Each kind of ask is served, told or busy.
pub fn make_all(alloc: Global, told: &mut Told) -> Result<(), Failure> {
    told.put(b"asks are served")?;
    let mut pool = Pool::new(alloc);
    match opened(alloc, &mut pool) {
        Ok(starts) => begun(alloc, told, pool, starts),
        Err(failure) => {
            drop(pool);
            Err(failure)
        }
    }
}

// Three principal devices, a device `F`, and two starts.
fn opened(alloc: Global, pool: &mut Pool<Memory>) -> Result<Vec<Start>, Failure>
    ensures { IfOk result (λ starts. are_bare starts.items ≡ true) }
{
    let name = Text::from_number(alloc, 0);
    let added = add_three(alloc, pool, &name);
    drop(name);
    added?;
    let name = Text::from(alloc, b"F")?;
    let added = add(alloc, pool, &name);
    drop(name);
    added?;
    starts(alloc, 2)
}

fn add_three(alloc: Global, pool: &mut Pool<Memory>, name: &Text) -> Result<(), Failure> {
    for _ in 0..3 {
        add(alloc, pool, name)?;
    }
    Ok(())
}

fn begun(
    alloc: Global,
    told: &mut Told,
    pool: Pool<Memory>,
    starts: Vec<Start>,
) -> Result<(), Failure>
    requires { are_bare starts.items ≡ true }
{
    let Ok(globals) = read(alloc, BEFORE, Limit::V2) else {
        drop(pool);
        drop(starts);
        return Err(Failure::Memory);
    };
    if starts.len() != 2 || !pool.fits(2) {
        drop(globals);
        drop(pool);
        drop(starts);
        return Err(Failure::Memory);
    }
    run::<Memory, Brand>(alloc, told, globals, pool, starts)
}

// Serves what jobs of a system that begins so ask, and drops it.
fn run<D: Device, O: Opening>(
    alloc: Global,
    told: &mut Told,
    globals: Globals,
    pool: Pool<D>,
    starts: Vec<Start>,
) -> Result<(), Failure>
    requires opening { opening_of globals.content pool starts.items ≡ O.opening }
    requires global { are_global globals.content ≡ true }
    requires some { 1 ≤ length starts.items }
    requires few { length starts.items ≤ rows_limit }
    requires fits { length starts.items ≤ left_of principal pool }
    requires bare { are_bare starts.items ≡ true }
{
    match System::<D, O>::new(alloc, globals, pool, starts) {
        Ok(mut system) => {
            let done = serve_all(alloc, told, &mut system);
            drop(system);
            done
        }
        Err(back) => {
            drop(back);
            Err(Failure::Memory)
        }
    }
}

fn serve_all<D: Device, O: Opening>(
    alloc: Global,
    told: &mut Told,
    system: &mut System<D, O>,
) -> Result<(), Failure> {
    let mut claims = Vec::new(alloc);
    let done = serve_claimed(alloc, told, system, &mut claims);
    drop(claims);
    done
}

fn serve_claimed<D: Device, O: Opening>(
    alloc: Global,
    told: &mut Told,
    system: &mut System<D, O>,
    claims: &mut Vec<Claim>,
) -> Result<(), Failure> {
    for _ in 0..2 {
        if let Some(claim) = claim(alloc, told, system)? {
            claims.push(claim)?;
        }
    }
    serve_events(alloc, told, system, claims, FIRST, true)?;
    serve_events(alloc, told, system, claims, BUSY, false)?;
    serve_events(alloc, told, system, claims, SECOND, true)?;
    put_history(alloc, &mut told.lines, system.history())?;
    let text = shared(alloc, system.globals(), system.locks())?;
    let put = told.put(&text);
    drop(text);
    Ok(put?)
}

// Claims a row: once more where memory was refused, and none is claimed more than before.
fn claim<D: Device, O: Opening>(
    alloc: Global,
    told: &mut Told,
    system: &mut System<D, O>,
) -> Result<Option<Claim>, AllocError> {
    let before = system.claimed();
    may_refuse(alloc);
    let first = system.claim();
    may_not_refuse(alloc);
    let claimed = match first {
        Ok(claimed) => claimed,
        Err(_) => {
            told.refused(b"claim", system.claimed() == before)?;
            system.claim()?
        }
    };
    match claimed {
        None => Ok(None),
        Some((claim, session)) => {
            drop(session);
            Ok(Some(claim))
        }
    }
}

fn serve_events<D: Device, O: Opening>(
    alloc: Global,
    told: &mut Told,
    system: &mut System<D, O>,
    claims: &mut [Claim],
    events: &str,
    are_told: bool,
) -> Result<(), Failure> {
    let script = script(alloc, events)?;
    let done = serve_each(alloc, told, system, claims, script.events(), are_told);
    drop(script);
    Ok(done?)
}

fn serve_each<D: Device, O: Opening>(
    alloc: Global,
    told: &mut Told,
    system: &mut System<D, O>,
    claims: &mut [Claim],
    events: &[Noted],
    are_told: bool,
) -> Result<(), AllocError> {
    for event in events {
        let at = if event.job == 1 { 0 } else { 1 };
        match claims.get_mut(at) {
            Some(claim) if event.ask.is_shared() => {
                serve(alloc, told, system, claim, event, are_told)?;
            }
            _ => told.put(b"serve: no ask")?,
        }
    }
    Ok(())
}

// Serves an ask: once more where memory was refused, and all is as before.
fn serve<D: Device, O: Opening>(
    alloc: Global,
    told: &mut Told,
    system: &mut System<D, O>,
    claim: &mut Claim,
    event: &Noted,
    are_told: bool,
) -> Result<(), AllocError> {
    if !event.ask.is_shared() {
        return Ok(());
    }
    let before = standing(alloc, system, claim, &event.ask)?;
    may_refuse(alloc);
    let first = system.serve(claim, &event.ask, false);
    may_not_refuse(alloc);
    let done = if let Err(Refused::Memory) = &first {
        again(alloc, told, system, claim, event, are_told, &before)
    } else {
        judge(alloc, told, &first, event, are_told)
    };
    drop(first);
    drop(before);
    done
}

fn again<D: Device, O: Opening>(
    alloc: Global,
    told: &mut Told,
    system: &mut System<D, O>,
    claim: &mut Claim,
    event: &Noted,
    are_told: bool,
    before: &[u8],
) -> Result<(), AllocError> {
    if !event.ask.is_shared() {
        return Ok(());
    }
    let after = standing(alloc, system, claim, &event.ask)?;
    let put = told.refused(b"serve", after.as_slice() == before);
    drop(after);
    put?;
    let again = system.serve(claim, &event.ask, false);
    let done = judge(alloc, told, &again, event, are_told);
    drop(again);
    done
}

// Says so where an ask isn't told what the event says, or isn't busy.
fn judge<D: Device>(
    alloc: Global,
    told: &mut Told,
    served: &Result<Served<Session<D>>, Refused>,
    event: &Noted,
    is_told: bool,
) -> Result<(), AllocError> {
    let as_wanted = match served {
        Ok(Served::Reply(reply)) => is_told
            && is_event(alloc, event.job, &event.ask, reply, event)?,
        Ok(Served::Opened(_)) => {
            is_told && is_event(alloc, event.job, &event.ask, &Reply::Got, event)?
        }
        Ok(Served::Busy { .. }) => !is_told,
        Err(_) => false,
    };
    if as_wanted {
        return Ok(());
    }
    let line = noted_line(alloc, event)?;
    let put = told.hold(b"serve", &line, false);
    drop(line);
    put
}

// How all stands: the globals and the locks, the history, the rows, the job's events, and whether a session would go to it.
fn standing<D: Device, O: Opening>(
    alloc: Global,
    system: &System<D, O>,
    claim: &Claim,
    ask: &Ask,
) -> Result<Vec<u8>, AllocError> {
    let mut text = shared(alloc, system.globals(), system.locks())?;
    let put = put_rest(alloc, &mut text, system, claim, ask);
    if_put(text, put)
}

fn put_rest<D: Device, O: Opening>(
    alloc: Global,
    text: &mut Vec<u8>,
    system: &System<D, O>,
    claim: &Claim,
    ask: &Ask,
) -> Result<(), AllocError> {
    put_history(alloc, text, system.history())?;
    put_count(alloc, text, system.rows() as u64)?;
    put_count(alloc, text, system.events(claim.job()))?;
    put_count(alloc, text, claim.events())?;
    text.push(if system.takes_session(ask) {
        b'y'
    } else {
        b'n'
    })?;
    Ok(())
}
