// Accesses of a transaction, and commits.

use crate::listening::{may_not_refuse, may_refuse};
use crate::script::script;
use crate::told::Told;
use mj_ask::{Ask, Noted, SharedAsk};
use mj_gfile::{read, write};
use mj_globs::Globals;
use mj_store::{Access, Store};
use mj_text::{Failure, Limit};
use mj_txlog::{Skips, TxLog};
use mj_txn::{Outcome, commit};
use std::alloc::{AllocError, Global};

// What stands before.
const BEFORE: &[u8] = b"mj-globals 2\n^A(1)=\"1\"\n^A(2)=\"2\"\n^B=\"0\"\n";

// What another job does before the transaction that clashes is committed, and what stands then.
const CHANGES: &str = "2 set ^B \"a text that is so long that it has room of its own\" done\n";

const CHANGED: &[u8] =
    b"mj-globals 2\n^A(1)=\"1\"\n^A(2)=\"2\"\n^B=\"a text that is so long that it has room of its own\"\n";

const WRITES: &str = "1 set ^A(1) \"9\" done
1 kill ^A(2) done
1 set ^C(5,\"x\") \"a text that is so long that it has room of its own\" done
1 put ^D {(1)=\"1\",(2,\"y\")=\"2\"} done
1 set ^D(1) \"3\" done
";

const SERIAL: &str = "1 value ^B \"0\"
1 order ^A(\"\") 1 1
1 subtree ^A {(1)=\"1\",(2)=\"2\"}
1 set ^B \"1\" done
1 value ^B \"1\"
";

/// Transactions are committed, and clash.
pub fn make_all(alloc: Global, told: &mut Told) -> Result<(), Failure> {
    told.put(b"writes are committed")?;
    make(alloc, told, false, WRITES, "", BEFORE)?;
    told.put(b"a serial transaction is committed")?;
    make(alloc, told, true, SERIAL, "", BEFORE)?;
    told.put(b"a serial transaction clashes")?;
    make(alloc, told, true, SERIAL, CHANGES, CHANGED)
}

// Makes these accesses on what stands before, then others without a transaction, and commits the first ones on what stands then.
fn make(
    alloc: Global,
    told: &mut Told,
    serial: bool,
    events: &str,
    others: &str,
    listing: &[u8],
) -> Result<(), Failure> {
    let mut globals = listed(alloc, BEFORE)?;
    let mut log = TxLog::new(alloc, serial);
    let done = make_on(alloc, told, &mut log, &mut globals, events, others, listing);
    drop(log);
    drop(globals);
    done
}

fn make_on(
    alloc: Global,
    told: &mut Told,
    log: &mut TxLog,
    globals: &mut Globals,
    events: &str,
    others: &str,
    listing: &[u8],
) -> Result<(), Failure> {
    access_all(alloc, told, log, globals, events)?;
    change_all(alloc, globals, others)?;
    Ok(commit_these(alloc, told, log, globals, listing)?)
}

fn access_all(
    alloc: Global,
    told: &mut Told,
    log: &mut TxLog,
    globals: &Globals,
    events: &str,
) -> Result<(), Failure> {
    let script = script(alloc, events)?;
    let done = access_each(alloc, told, log, globals, script.events());
    drop(script);
    Ok(done?)
}

// Gives names the texts that they get in these events.
fn change_all(alloc: Global, globals: &mut Globals, events: &str) -> Result<(), Failure> {
    let script = script(alloc, events)?;
    let done = change_each(globals, script.events());
    drop(script);
    Ok(done?)
}

fn change_each(globals: &mut Globals, events: &[Noted]) -> Result<(), AllocError> {
    for event in events {
        if let Ask::Shared(SharedAsk::Access(Access::Set(name, text))) = &event.ask {
            globals.set(name.get(), text)?;
        }
    }
    Ok(())
}

fn access_each(
    alloc: Global,
    told: &mut Told,
    log: &mut TxLog,
    globals: &Globals,
    events: &[Noted],
) -> Result<(), AllocError> {
    for event in events {
        if let Ask::Shared(SharedAsk::Access(access)) = &event.ask {
            see(alloc, told, log, globals, access)?;
        }
    }
    Ok(())
}

// Makes an access: once more where memory was refused, and the transaction has as many as before.
#[tactic(auto, using(mj_txlog::proofs::Goes::none_skips))]
fn see(
    alloc: Global,
    told: &mut Told,
    log: &mut TxLog,
    globals: &Globals,
    access: &Access,
) -> Result<(), AllocError> {
    let before = log.entries().len();
    let first = access.try_clone()?;
    let mut skips = Skips::new(alloc);
    may_refuse(alloc);
    let done = log.see(globals, &mut skips, first);
    may_not_refuse(alloc);
    drop(skips);
    let refused = done.is_err();
    drop(done);
    if !refused {
        return Ok(());
    }
    told.refused(b"access", log.entries().len() == before)?;
    let mut skips = Skips::new(alloc);
    let again = log.see(globals, &mut skips, access.try_clone()?);
    drop(skips);
    let done = again.is_ok();
    drop(again);
    told.hold(b"access", b"once more, memory", done)
}

// Commits: once more where memory was refused, and the globals are as before.
fn commit_these(
    alloc: Global,
    told: &mut Told,
    log: &TxLog,
    globals: &mut Globals,
    listing: &[u8],
) -> Result<(), AllocError> {
    if !log.follows(globals)? {
        return told.put(b"the transaction doesn't follow the globals");
    }
    may_refuse(alloc);
    let first = commit(log, globals);
    may_not_refuse(alloc);
    match first {
        Ok(outcome) => put_outcome(alloc, told, outcome, globals),
        Err(_) => {
            let after = write(alloc, globals)?;
            let put = told.refused(b"commit", after.as_slice() == listing);
            drop(after);
            put?;
            if !log.follows(globals)? {
                return told.put(b"the transaction doesn't follow the globals any more");
            }
            let again = commit(log, globals)?;
            put_outcome(alloc, told, again, globals)
        }
    }
}

fn put_outcome(
    alloc: Global,
    told: &mut Told,
    outcome: Outcome,
    globals: &Globals,
) -> Result<(), AllocError> {
    let place = match &outcome {
        Outcome::Done => None,
        Outcome::Clash(changed) => Some(changed.place),
    };
    drop(outcome);
    match place {
        None => told.put(b"done")?,
        Some(place) => {
            let line = format!(in alloc; "clash {place}")?;
            let put = told.put(line.as_bytes());
            drop(line);
            put?;
        }
    }
    let text = write(alloc, globals)?;
    let put = told.put(&text);
    drop(text);
    put
}

fn listed(alloc: Global, listing: &[u8]) -> Result<Globals, Failure> {
    match read(alloc, listing, Limit::V2) {
        Ok(globals) => Ok(globals),
        Err(refused) => {
            drop(refused);
            Err(Failure::Memory)
        }
    }
}
