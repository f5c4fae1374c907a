// Transactions in what jobs share, by the events of two jobs: each line is an event, as a trace has it. What a job asks is read from it, and the
// line that the answer makes must be the same.

ghost use Rattle.std.specs.Prelude.{◌≡◌, ◌≤◌, [], length, true};
ghost use Rattle.mj_dev.specs.Shelves.{principal, left_of};
ghost use Rattle.mj_jobs.specs.Rows.{rows_limit};
ghost use Rattle.mj_sys.specs.Opening.{opening_of, are_bare};

use crate::cores::opened;
use crate::judged::hold;
use mj_ask::{Ask, Kind, Names, Reply, SharedAsk, Start};
use mj_dev::{Memory, Pool};
use mj_globs::Globals;
use mj_num::Num;
use mj_store::{Access, Direction};
use mj_subs::{Name, SharedName, Sub, Subs};
use mj_sys::{Claim, Opening, Served, System};
use mj_text::{Failure, Text};
use mj_trace::{Form, event_line};
use std::alloc::{AllocError, Global};
use std::marker::Brand;
use std::test::Fail;

#[test]
fn the_second_of_two_that_add_to_one_number_clashes(rt: HostRuntime) -> Result<(), Fail> {
    let lines = "1 set ^S \"5\" done
1 begin serial done
1 value ^S \"5\"
2 begin serial done
2 value ^S \"5\"
1 set ^S \"6\" done
1 commit done
2 set ^S \"6\" done
2 commit clash 1 \"5\" \"6\"
2 begin serial done
2 value ^S \"6\"
2 set ^S \"7\" done
2 commit done
1 value ^S \"7\"
";
    tells(&rt, lines)
}

#[test]
fn each_that_reads_what_the_other_writes_sees_one_order(rt: HostRuntime) -> Result<(), Fail> {
    let lines = "1 set ^L \"0\" done
1 set ^R \"0\" done
1 begin serial done
1 value ^R \"0\"
2 begin serial done
2 value ^L \"0\"
1 set ^L \"1\" done
1 commit done
2 set ^R \"1\" done
2 commit clash 1 \"0\" \"1\"
2 begin serial done
2 value ^L \"1\"
2 set ^R \"2\" done
2 commit done
1 value ^L \"1\"
1 value ^R \"2\"
";
    tells(&rt, lines)
}

#[test]
fn what_comes_where_nothing_was_seen_clashes(rt: HostRuntime) -> Result<(), Fail> {
    let lines = "1 begin serial done
1 order ^Q(\"\") 1 -
2 set ^Q(1) \"x\" done
1 commit clash 1 - 1
";
    tells(&rt, lines)?;
    let counted = "1 begin serial done
1 set ^B \"1\" done
1 unlock ^B done
1 data ^Q 0
2 set ^Q(1) \"x\" done
1 commit clash 3 0 10
";
    tells(&rt, counted)
}

#[test]
fn changes_are_seen_by_the_job_alone(rt: HostRuntime) -> Result<(), Fail> {
    let lines = "2 set ^A(1) \"1\" done
2 set ^A(2) \"2\" done
1 begin done
1 set ^A \"0\" done
1 data ^A 11
1 data ^A(1) 1
1 kill ^A done
1 order ^A(\"\") 1 -
1 data ^A 0
1 value ^A(1) -
2 set ^A(3) \"3\" done
1 value ^A(3) -
1 set ^A(2) \"9\" done
1 order ^A(\"\") 1 2
1 data ^A 10
2 value ^A(2) \"2\"
1 commit done
2 value ^A(1) -
2 value ^A(2) \"9\"
2 value ^A(3) -
2 begin done
2 set ^B(1) \"1\" done
2 kill ^B(2) done
1 set ^B(2) \"2\" done
1 set ^B(3) \"3\" done
2 order ^B(1) 1 3
2 data ^B 10
2 rollback done
2 order ^B(1) 1 2
2 commit done
";
    tells(&rt, lines)
}

#[test]
fn names_are_locked_at_once_and_given_up_at_the_commit(rt: HostRuntime) -> Result<(), Fail> {
    let lines = "1 try ^A got
1 begin done
1 unlock ^A done
1 try ^B got
2 try ^A :0 late
2 try ^B :0 late
1 rollback done
2 try ^A :0 late
2 try ^B :0 got
1 begin done
1 unlock * done
2 try ^A :0 late
1 commit done
2 try ^A :0 got
1 begin done
1 try ^C got
1 halt done
2 try ^C :0 got
";
    tells(&rt, lines)
}

// The access behind 65,536 is told that a limit is passed, whatever it is, and so is each behind it. The transaction stays open: what it holds is made by
// its commit, and nothing else.
#[test]
fn a_transaction_has_65536_accesses(rt: HostRuntime) -> Result<(), Fail> {
    let first = "1 begin serial done
1 unlock ^C done
1 set ^A \"1\" done
1 data ^Q 0
";
    let last = "1 set ^A \"2\" done
1 value ^A limit
1 data ^A limit
1 order ^A(\"\") 1 limit
1 set ^B \"1\" limit
1 kill ^A limit
1 unlock ^C limit
1 unlock * limit
2 value ^A -
1 commit done
2 value ^A \"2\"
2 value ^B -
1 value ^A \"2\"
";
    tell_parts(&rt, &[(first, 1), ("1 value ^A \"1\"", 65_532), (last, 1)])
}

// Fails with the first line that isn't made by what two jobs ask, and with what is made in its place.
fn tells(rt: &HostRuntime, lines: &str) -> Result<(), Fail> {
    tell_parts(rt, &[(lines, 1)])
}

// Fails so for several texts, each as many times.
fn tell_parts(rt: &HostRuntime, parts: &[(&str, usize)]) -> Result<(), Fail> {
    let alloc = rt.alloc();
    let mut pool = Pool::new(alloc);
    match opened(alloc, &mut pool) {
        Ok(starts) => begun(alloc, pool, starts, parts),
        Err(failure) => {
            drop(pool);
            Err(Fail::from(failure))
        }
    }
}

fn begun(
    alloc: Global,
    pool: Pool<Memory>,
    starts: Vec<Start>,
    parts: &[(&str, usize)],
) -> Result<(), Fail>
    requires { are_bare starts.items ≡ true }
{
    if starts.len() != 2 || !pool.fits(2) {
        drop(pool);
        drop(starts);
        return Err(Fail::new("no two jobs"));
    }
    tell::<Brand>(alloc, pool, starts, parts)
}

// Fails so with jobs of a system that begins so.
fn tell<O: Opening>(
    alloc: Global,
    pool: Pool<Memory>,
    starts: Vec<Start>,
    parts: &[(&str, usize)],
) -> Result<(), Fail>
    requires opening { opening_of [] pool starts.items ≡ O.opening }
    requires some { 1 ≤ length starts.items }
    requires few { length starts.items ≤ rows_limit }
    requires fits { length starts.items ≤ left_of principal pool }
    requires bare { are_bare starts.items ≡ true }
{
    let mut system = match System::<Memory, O>::new(alloc, Globals::new(alloc), pool, starts) {
        Ok(system) => system,
        Err(back) => {
            drop(back);
            return Err(Fail::new("no room"));
        }
    };
    let told = tell_all(alloc, &mut system, parts);
    drop(system);
    told
}

fn tell_all<O: Opening>(
    alloc: Global,
    system: &mut System<Memory, O>,
    parts: &[(&str, usize)],
) -> Result<(), Fail> {
    let mut claims = Vec::new(alloc);
    let told = match claim_two(system, &mut claims) {
        Ok(()) => tell_each(alloc, system, &mut claims, parts),
        Err(failure) => Err(Fail::from(failure)),
    };
    drop(claims);
    told
}

fn claim_two<O: Opening>(
    system: &mut System<Memory, O>,
    claims: &mut Vec<Claim>,
) -> Result<(), Failure> {
    for _ in 0..2 {
        if let Some((claim, session)) = system.claim()? {
            drop(session);
            claims.push(claim)?;
        }
    }
    Ok(())
}

fn tell_each<O: Opening>(
    alloc: Global,
    system: &mut System<Memory, O>,
    claims: &mut [Claim],
    parts: &[(&str, usize)],
) -> Result<(), Fail> {
    for (lines, times) in parts {
        for _ in 0..*times {
            tell_lines(alloc, system, claims, lines)?;
        }
    }
    Ok(())
}

fn tell_lines<O: Opening>(
    alloc: Global,
    system: &mut System<Memory, O>,
    claims: &mut [Claim],
    lines: &str,
) -> Result<(), Fail> {
    for line in lines.lines() {
        tell_line(alloc, system, claims, line)?;
    }
    Ok(())
}

// What the job of a line asks makes that line.
fn tell_line<O: Opening>(
    alloc: Global,
    system: &mut System<Memory, O>,
    claims: &mut [Claim],
    line: &str,
) -> Result<(), Fail> {
    let at = if line.starts_with("1") { 0 } else { 1 };
    let Some(claim) = claims.get_mut(at) else {
        return Err(Fail::new(line));
    };
    let Some(ask) = ask_of(alloc, line)? else {
        return Err(Fail::new(line));
    };
    let told = serve(alloc, system, claim, &ask, line);
    drop(ask);
    told
}

fn serve<O: Opening>(
    alloc: Global,
    system: &mut System<Memory, O>,
    claim: &mut Claim,
    ask: &Ask,
    line: &str,
) -> Result<(), Fail> {
    if !ask.is_shared() {
        return Err(Fail::new(line));
    }
    match system.serve(claim, ask, false) {
        Ok(Served::Reply(reply)) => {
            let told = judge(alloc, claim.job(), ask, &reply, line);
            drop(reply);
            told
        }
        Ok(other) => {
            drop(other);
            Err(Fail::new(line))
        }
        Err(_) => Err(Fail::new(line)),
    }
}

fn judge(alloc: Global, job: u32, ask: &Ask, reply: &Reply, line: &str) -> Result<(), Fail> {
    let spelled = event_line(alloc, Form::First, job, None, ask, reply)?;
    let told = hold(spelled.as_slice() == line.as_bytes(), line, &spelled);
    drop(spelled);
    told
}

// What the job of a line asks.
fn ask_of(alloc: Global, line: &str) -> Result<Option<Ask>, Failure> {
    let words = words_of(alloc, line)?;
    let ask = ask_by(alloc, &words);
    drop(words);
    ask
}

fn words_of(alloc: Global, line: &str) -> Result<Vec<&str>, AllocError> {
    let mut words: Vec<&str> = Vec::new(alloc);
    for word in line.split(' ') {
        words.push(word)?;
    }
    Ok(words)
}

fn ask_by(alloc: Global, words: &[&str]) -> Result<Option<Ask>, Failure> {
    match words {
        [_, "begin", "serial", ..] => Ok(Some(Ask::Shared(SharedAsk::Begin(Kind::Serial)))),
        [_, "begin", ..] => Ok(Some(Ask::Shared(SharedAsk::Begin(Kind::Plain)))),
        [_, "commit", ..] => Ok(Some(Ask::Shared(SharedAsk::Commit))),
        [_, "rollback", ..] => Ok(Some(Ask::Shared(SharedAsk::Rollback))),
        [_, "halt", ..] => Ok(Some(Ask::Shared(SharedAsk::Halt(None)))),
        [_, "unlock", "*", ..] => Ok(Some(Ask::Shared(SharedAsk::UnlockAll))),
        [_, "unlock", name, ..] => Ok(Some(Ask::Shared(SharedAsk::Unlock(names_of(alloc, name)?)))),
        [_, "try", name, ":0", ..] => try_of(alloc, name, true),
        [_, "try", name, ..] => try_of(alloc, name, false),
        [_, "set", name, text, ..] => Ok(Some(Ask::Shared(SharedAsk::Access(set_of(
            alloc, name, text,
        )?)))),
        [_, what, name, ..] => access_of(what, shared_name(alloc, name)?),
        _ => Ok(None),
    }
}

fn names_of(alloc: Global, name: &str) -> Result<Names, Failure> {
    let name = name_of(alloc, name)?;
    Ok(Names::one(alloc, name)?)
}

// A try, with the timeout 0 where it is at once.
fn try_of(alloc: Global, name: &str, at_once: bool) -> Result<Option<Ask>, Failure> {
    let names = names_of(alloc, name)?;
    let timeout = if at_once {
        Some(Num::from_truth(false))
    } else {
        None
    };
    Ok(Some(Ask::Shared(SharedAsk::Try(names, timeout))))
}

fn set_of(alloc: Global, name: &str, text: &str) -> Result<Access, Failure> {
    let name = shared_name(alloc, name)?;
    match text_of(alloc, text) {
        Ok(text) => Ok(Access::Set(name, text)),
        Err(failure) => {
            drop(name);
            Err(failure)
        }
    }
}

// Another access.
fn access_of(what: &str, name: SharedName) -> Result<Option<Ask>, Failure> {
    let access = match what {
        "value" => Access::Value(name),
        "data" => Access::Data(name),
        "order" => Access::Order(name, Direction::Forward),
        "kill" => Access::Kill(name),
        _ => {
            drop(name);
            return Ok(None);
        }
    };
    Ok(Some(Ask::Shared(SharedAsk::Access(access))))
}

fn shared_name(alloc: Global, name: &str) -> Result<SharedName, Failure> {
    let name = name_of(alloc, name)?;
    Ok(SharedName::new(alloc, name)?)
}

// A global of one letter, with what stands in brackets as its subscript, if it has one.
fn name_of(alloc: Global, name: &str) -> Result<Name, Failure> {
    let (letter, sub) = match name.as_bytes() {
        [b'^', letter] => (*letter, None),
        [b'^', letter, b'(', sub @ .., b')'] => (*letter, Some(sub)),
        _ => (b'Z', None),
    };
    let subs = subs_of(alloc, sub)?;
    match Text::from(alloc, &[letter]) {
        Ok(word) => Ok(Name::global(word, subs)),
        Err(failure) => {
            drop(subs);
            Err(failure)
        }
    }
}

fn subs_of(alloc: Global, sub: Option<&[u8]>) -> Result<Subs, Failure> {
    let mut subs = Subs::new(alloc);
    if let Some(bytes) = sub {
        let text = sub_of(alloc, bytes)?;
        subs.push(Sub::from_text(text))?;
    }
    Ok(subs)
}

// A digit, or an empty text in quotes.
fn sub_of(alloc: Global, bytes: &[u8]) -> Result<Text, Failure> {
    match bytes {
        [b'"', b'"'] => Ok(Text::new(alloc)),
        _ => Text::from(alloc, bytes),
    }
}

// A text in quotes.
fn text_of(alloc: Global, text: &str) -> Result<Text, Failure> {
    match text.as_bytes() {
        [b'"', inner @ .., b'"'] => Text::from(alloc, inner),
        _ => Ok(Text::new(alloc)),
    }
}
