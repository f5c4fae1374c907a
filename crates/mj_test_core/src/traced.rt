// The blocks of a run of two jobs, of which this is the trace, step by step.

use mj_ask::{Ask, EVENTS_LIMIT, Reply, SharedAsk};
use mj_serial::{Block, serial_blocks};
use mj_store::{Access, Answer};
use mj_sys::Event;
use mj_text::Failure;
use mj_trace::{Form, Trace, event_line, read_trace};
use mj_txlog::Entry;
use std::alloc::{AllocError, Global};
use std::str;
use std::test::Fail;

// What the row `blocks_of_a_run` in `rows/clashes.rows` leaves.
const TRACE: &str = "mj-trace 2
limit 1048576
pool \"0\" 255
start A^R
start B^R
1 - dev \"0\" begin done
1 R:1 set ^N \"0\" done
1 R:2 begin serial done
1 R:2 value ^A \"5\"
2 - dev \"0\" begin done
2 R:5 begin serial done
2 R:5 value ^A \"5\"
1 R:2 set ^A \"6\" done
1 R:2 commit done
2 R:5 set ^A \"6\" done
2 R:5 commit clash 1 \"5\" \"6\"
2 R:5 begin serial done
2 R:5 value ^A \"6\"
2 R:5 set ^A \"7\" done
2 R:5 commit done
1 R:3 begin done
1 R:3 set ^A \"9\" done
1 R:3 rollback done
1 R:4 dev \"0\" end done
1 R:4 halt done
2 R:6 begin done
2 R:6 value ^A \"7\"
2 R:6 set ^B \"7\" done
2 R:6 unlock ^L done
2 R:6 commit done
2 R:7 data ^N 1
2 R:7 dev \"0\" end done
2 R:7 halt done
";

// A single change, two SERIAL transactions of which the second clashed once, one that isn't SERIAL, and a single read: in the order of their
// commits. What clashed and what was rolled back isn't there, and the accesses that were done are.
#[test]
fn blocks_of_a_run(rt: HostRuntime) -> Result<(), Fail> {
    let lines = lines(rt.alloc(), TRACE.as_bytes())?;
    let told = judge(str::from_utf8(&lines).unwrap_or("?"));
    drop(lines);
    told
}

// Fails with the blocks, where they are others.
fn judge(lines: &str) -> Result<(), Fail> {
    if lines == BLOCKS {
        Ok(())
    } else {
        Err(Fail::new(lines))
    }
}

const BLOCKS: &str = "plain from 2
1 set ^N \"0\" done
serial from 3
1 value ^A \"5\"
1 set ^A \"6\" done
serial from 12
2 value ^A \"6\"
2 set ^A \"7\" done
plain from 21
2 value ^A \"7\"
2 set ^B \"7\" done
2 unlock * done
plain from 26
2 data ^N 1
";

// The blocks of a trace of these bytes.
fn lines(alloc: Global, bytes: &[u8]) -> Result<Vec<u8>, Failure> {
    match read_trace(alloc, bytes, EVENTS_LIMIT) {
        Ok(trace) => {
            let lines = blocks(alloc, &trace);
            drop(trace);
            lines
        }
        Err(_) => Ok(Vec::new(alloc)),
    }
}

// Of each block a line that says whether it is SERIAL and where it begins, and its accesses as a trace of the older form has them.
fn blocks(alloc: Global, trace: &Trace) -> Result<Vec<u8>, Failure> {
    let mut history = Vec::new(alloc);
    let lines = blocks_of(alloc, trace, &mut history);
    drop(history);
    lines
}

fn blocks_of(alloc: Global, trace: &Trace, history: &mut Vec<Event>) -> Result<Vec<u8>, Failure> {
    for noted in trace.events() {
        add(history, noted.job, &noted.ask, &noted.reply)?;
    }
    let blocks = serial_blocks(alloc, history)?;
    let lines = lines_of(alloc, &blocks);
    drop(blocks);
    lines
}

fn add(history: &mut Vec<Event>, job: u32, ask: &Ask, reply: &Reply) -> Result<(), Failure> {
    let event = event(job, ask, reply)?;
    history.push(event)?;
    Ok(())
}

// An event of a job: a copy of an ask and its reply.
fn event(job: u32, ask: &Ask, reply: &Reply) -> Result<Event, AllocError> {
    let ask = ask.try_clone()?;
    match reply.try_clone() {
        Ok(reply) => Ok(Event { job, ask, reply }),
        Err(refused) => {
            drop(ask);
            Err(refused)
        }
    }
}

fn lines_of(alloc: Global, blocks: &[Block]) -> Result<Vec<u8>, Failure> {
    let mut lines = Vec::new(alloc);
    for block in blocks {
        put_head(alloc, &mut lines, block.serial, block.place)?;
        put_accesses(alloc, &mut lines, block.job, &block.accesses)?;
    }
    Ok(lines)
}

fn put_head(
    alloc: Global,
    lines: &mut Vec<u8>,
    serial: bool,
    place: usize,
) -> Result<(), AllocError> {
    let kind = if serial { "serial" } else { "plain" };
    let head = format!(in alloc; "{kind} from {place}\n")?;
    lines.extend_from_slice(head.as_bytes())
}

fn put_accesses(
    alloc: Global,
    lines: &mut Vec<u8>,
    job: u32,
    accesses: &[Entry],
) -> Result<(), AllocError> {
    for entry in accesses {
        let line = access_line(alloc, job, entry)?;
        lines.extend_from_slice(&line)?;
        lines.extend_from_slice(b"\n")?;
    }
    Ok(())
}

// An access as a line of such a trace. An unlock has no names there.
fn access_line(alloc: Global, job: u32, entry: &Entry) -> Result<Vec<u8>, AllocError> {
    match entry {
        Entry::Access(access, answer) => {
            let ask = asked(access)?;
            let line = told_line(alloc, job, &ask, answer);
            drop(ask);
            line
        }
        Entry::Unlock(_) => event_line(
            alloc,
            Form::First,
            job,
            None,
            &Ask::Shared(SharedAsk::UnlockAll),
            &Reply::Done,
        ),
    }
}

fn asked(access: &Access) -> Result<Ask, AllocError> {
    Ok(Ask::Shared(SharedAsk::Access(access.try_clone()?)))
}

fn told_line(alloc: Global, job: u32, ask: &Ask, answer: &Answer) -> Result<Vec<u8>, AllocError> {
    let reply = reply_told(answer)?;
    let line = event_line(alloc, Form::First, job, None, ask, &reply);
    drop(reply);
    line
}

fn reply_told(answer: &Answer) -> Result<Reply, AllocError> {
    Ok(Reply::Answer(answer.try_clone()?))
}
