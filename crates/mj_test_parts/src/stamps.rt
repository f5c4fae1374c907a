// Stamps of words, and what a commit makes of them.

use mj_globs::Globals;
use mj_store::{Access, Store};
use mj_subs::{Name, SharedName, Subs};
use mj_text::{Failure, Text};
use mj_txlog::{Skips, TxLog};
use mj_txn::{Outcome, commit};
use std::alloc::Global;
use std::test::Fail;

// What another job does between the read of `^A` and the commit.
#[derive(Clone, Copy)]
enum Between {
    // nothing
    Nothing,
    // `^A` gets another text, and then its own
    ThereAndBack,
    // `^A` goes, and gets its text anew
    KilledAndAnew,
    // `^B` gets a text
    OtherWord,
    // `^A` gets another text
    Changed,
}

// How many reads are stale then, and whether the commit is done.
#[test]
fn a_commit_clashes_only_where_an_answer_changed(rt: HostRuntime) -> Result<(), Fail> {
    let alloc = rt.alloc();
    assert_eq!(rt; committed(alloc, Between::Nothing)?, (0, true));
    assert_eq!(rt; committed(alloc, Between::ThereAndBack)?, (1, true));
    assert_eq!(rt; committed(alloc, Between::KilledAndAnew)?, (1, true));
    assert_eq!(rt; committed(alloc, Between::OtherWord)?, (0, true));
    assert_eq!(rt; committed(alloc, Between::Changed)?, (1, false));
    Ok(())
}

// Reads `^A`, which is 5, in a SERIAL transaction, and commits it after what comes between.
fn committed(alloc: Global, between: Between) -> Result<(u32, bool), Failure> {
    let mut globals = Globals::new(alloc);
    let mut log = TxLog::new(alloc, true);
    let told = committed_on(alloc, &mut globals, &mut log, between);
    drop(log);
    drop(globals);
    told
}

#[tactic(auto, using(mj_txlog::proofs::Goes::none_skips))]
fn committed_on(
    alloc: Global,
    globals: &mut Globals,
    log: &mut TxLog,
    between: Between,
) -> Result<(u32, bool), Failure> {
    set(alloc, globals, "A", "5")?;
    let name = SharedName::new(alloc, named(alloc, "A")?)?;
    let mut skips = Skips::new(alloc);
    let told = log.see(globals, &mut skips, Access::Value(name));
    drop(skips);
    drop(told?);
    change(alloc, globals, between)?;
    let stale = log.stale(globals);
    if !log.follows(globals)? {
        return Ok((stale, false));
    }
    let outcome = commit(log, globals)?;
    let done = matches!(outcome, Outcome::Done);
    drop(outcome);
    Ok((stale, done))
}

fn change(alloc: Global, globals: &mut Globals, between: Between) -> Result<(), Failure> {
    match between {
        Between::Nothing => Ok(()),
        Between::ThereAndBack => {
            set(alloc, globals, "A", "6")?;
            set(alloc, globals, "A", "5")
        }
        Between::KilledAndAnew => {
            let name = named(alloc, "A")?;
            globals.kill(&name);
            drop(name);
            set(alloc, globals, "A", "5")
        }
        Between::OtherWord => set(alloc, globals, "B", "1"),
        Between::Changed => set(alloc, globals, "A", "6"),
    }
}

fn set(alloc: Global, globals: &mut Globals, word: &str, text: &str) -> Result<(), Failure> {
    let name = named(alloc, word)?;
    let done = set_name(alloc, globals, &name, text);
    drop(name);
    done
}

fn set_name(alloc: Global, globals: &mut Globals, name: &Name, text: &str) -> Result<(), Failure> {
    let text = Text::from(alloc, text.as_bytes())?;
    let done = globals.set(name, &text);
    drop(text);
    Ok(done?)
}

// The global of a word, without subscripts.
fn named(alloc: Global, word: &str) -> Result<Name, Failure> {
    Ok(Name::global(Text::from(alloc, word.as_bytes())?, Subs::new(alloc)))
}
