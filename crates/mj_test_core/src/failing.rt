// What is asked of devices that fail, and where devices are dropped, by the lines of a history.

use crate::counted::{stepped, stepped_on, stepped_over};
use crate::judged::hold;
use std::alloc::{AllocError, Global};
use std::test::Fail;

// The nine events of a device that fails at its third call: its beginning and a text were done. The job's fault is written to its principal
// device, and both sessions are ended.
#[test]
fn the_third_call_of_a_device_fails(rt: HostRuntime) -> Result<(), Fail> {
    let wanted = "1 dev \"0\" begin done
1 open \"F\" got
1 dev \"F\" begin done
1 dev \"F\" write \"x\" done
1 dev \"F\" write \"y\" failed
1 dev \"0\" write \"F16 DEVICE R:1\\0a\" done
1 dev \"F\" end done
F is dropped
1 dev \"0\" end done
0 is dropped
1 halt F16 done
---
0 is dropped
";
    let bytes = " OPEN \"F\" USE \"F\" WRITE \"x\" WRITE \"y\"\n";
    let lines = stepped(rt.alloc(), bytes, 3, 0)?;
    let told = hold(lines.as_slice() == wanted.as_bytes(), bytes, &lines);
    drop(lines);
    told
}

// Which call of F fails, and which of the principal device.
#[test]
fn a_call_fails(rt: HostRuntime) -> Result<(), Fail> {
    // its begin
    tells(
        &rt,
        " OPEN \"F\" WRITE \"x\"\n",
        1,
        0,
        "1 dev \"F\" begin failed
1 dev \"0\" write \"F16 DEVICE R:1\\0a\" done
1 dev \"F\" end done
F is dropped
1 dev \"0\" end done
0 is dropped
1 halt F16 done
---
0 is dropped
",
    )?;
    // what is read from it
    tells(
        &rt,
        " OPEN \"F\" USE \"F\" READ X\n",
        2,
        0,
        "1 dev \"F\" line failed
1 dev \"0\" write \"F16 DEVICE R:1\\0a\" done
1 dev \"F\" end done
F is dropped
1 dev \"0\" end done
0 is dropped
1 halt F16 done
---
0 is dropped
",
    )?;
    // its end, by CLOSE and by the job's end
    tells(
        &rt,
        " OPEN \"F\" CLOSE \"F\"\n",
        2,
        0,
        "1 dev \"F\" end failed
F is dropped
1 close \"F\" done
1 dev \"0\" write \"F16 DEVICE R:1\\0a\" done
1 dev \"0\" end done
0 is dropped
1 halt F16 done
---
0 is dropped
",
    )?;
    tells(
        &rt,
        " OPEN \"F\" HALT\n",
        2,
        0,
        "1 dev \"F\" end failed
F is dropped
1 dev \"0\" end done
0 is dropped
1 halt done
---
0 is dropped
",
    )?;
    // the principal one: what is written to it, its end, and its begin
    tells(
        &rt,
        " OPEN \"F\" WRITE \"x\"\n",
        0,
        2,
        "1 dev \"0\" write \"x\" failed
1 dev \"F\" end done
F is dropped
1 dev \"0\" end done
0 is dropped
1 halt F16 done
---
0 is dropped
",
    )?;
    tells(
        &rt,
        " OPEN \"F\"\n",
        0,
        2,
        "1 dev \"F\" end done
F is dropped
1 dev \"0\" end failed
0 is dropped
1 halt done
---
0 is dropped
",
    )?;
    tells(
        &rt,
        " OPEN \"F\"\n",
        0,
        1,
        "1 dev \"0\" begin failed
1 dev \"0\" end done
0 is dropped
1 halt F16 done
---
F is dropped
0 is dropped
",
    )
}

// A job with a device, a lock and an open transaction, of whose devices each call fails in turn. What it has is given back in each case, and each device that
// was moved out is dropped once; one that wasn't stays in the pool.
#[test]
fn each_call_of_a_job_that_has_all_fails(rt: HostRuntime) -> Result<(), Fail> {
    // none
    leaves(
        &rt,
        0,
        0,
        "1 dev \"0\" begin done
1 open \"F\" got
1 dev \"F\" begin done
1 dev \"F\" write \"x\" done
1 try ^L got
1 begin done
1 set ^A \"2\" done
1 dev \"F\" end done
F is dropped
1 dev \"0\" end done
0 is dropped
1 halt done
mj-globals 2
^A=\"1\"
---
0 is dropped
",
    )?;
    // the begin of F
    leaves(
        &rt,
        1,
        0,
        "1 dev \"0\" begin done
1 open \"F\" got
1 dev \"F\" begin failed
1 dev \"0\" write \"F16 DEVICE R:1\\0a\" done
1 dev \"F\" end done
F is dropped
1 dev \"0\" end done
0 is dropped
1 halt F16 done
mj-globals 2
^A=\"1\"
---
0 is dropped
",
    )?;
    // what is written to it
    leaves(
        &rt,
        2,
        0,
        "1 dev \"0\" begin done
1 open \"F\" got
1 dev \"F\" begin done
1 dev \"F\" write \"x\" failed
1 dev \"0\" write \"F16 DEVICE R:1\\0a\" done
1 dev \"F\" end done
F is dropped
1 dev \"0\" end done
0 is dropped
1 halt F16 done
mj-globals 2
^A=\"1\"
---
0 is dropped
",
    )?;
    // its end
    leaves(
        &rt,
        3,
        0,
        "1 dev \"0\" begin done
1 open \"F\" got
1 dev \"F\" begin done
1 dev \"F\" write \"x\" done
1 try ^L got
1 begin done
1 set ^A \"2\" done
1 dev \"F\" end failed
F is dropped
1 dev \"0\" end done
0 is dropped
1 halt done
mj-globals 2
^A=\"1\"
---
0 is dropped
",
    )
}

#[test]
fn each_call_of_the_principal_device_of_a_job_that_has_all_fails(
    rt: HostRuntime,
) -> Result<(), Fail> {
    // its begin, before F is moved out
    leaves(
        &rt,
        0,
        1,
        "1 dev \"0\" begin failed
1 dev \"0\" end done
0 is dropped
1 halt F16 done
mj-globals 2
^A=\"1\"
---
F is dropped
0 is dropped
",
    )?;
    // its end
    leaves(
        &rt,
        0,
        2,
        "1 dev \"0\" begin done
1 open \"F\" got
1 dev \"F\" begin done
1 dev \"F\" write \"x\" done
1 try ^L got
1 begin done
1 set ^A \"2\" done
1 dev \"F\" end done
F is dropped
1 dev \"0\" end failed
0 is dropped
1 halt done
mj-globals 2
^A=\"1\"
---
0 is dropped
",
    )
}

// Fails where the job comes to other lines, or leaves something else.
fn leaves(rt: &HostRuntime, named: u64, principal: u64, wanted: &str) -> Result<(), Fail> {
    let bytes = " OPEN \"F\" USE \"F\" WRITE \"x\" LOCK +^L TSTART  SET ^A=2 HALT\n";
    let lines = stepped_on(
        rt.alloc(),
        "mj-globals 2\n^A=\"1\"\n",
        bytes,
        named,
        principal,
    )?;
    let told = hold(lines.as_slice() == wanted.as_bytes(), bytes, &lines);
    drop(lines);
    told
}

// A job has 16 devices beside the principal one. The seventeenth isn't asked for, and those that it has are ended and dropped, each once.
#[test]
fn a_seventeenth_device_is_a_fault(rt: HostRuntime) -> Result<(), Fail> {
    let bytes = " FOR I=1:1:17 OPEN \"D\"_I\n";
    let lines = stepped_over(rt.alloc(), bytes, 17)?;
    let told = judge_seventeen(rt.alloc(), bytes, &lines);
    drop(lines);
    told
}

fn judge_seventeen(alloc: Global, bytes: &str, lines: &[u8]) -> Result<(), Fail> {
    let mut wanted = Vec::new(alloc);
    let put = put_seventeen(alloc, &mut wanted);
    let told = hold(put.is_ok() && lines == wanted.as_slice(), bytes, lines);
    drop(wanted);
    told
}

fn put_seventeen(alloc: Global, wanted: &mut Vec<u8>) -> Result<(), AllocError> {
    wanted.extend_from_slice(b"1 dev \"0\" begin done\n")?;
    for number in 1..=16u32 {
        let lines = format!(in alloc;
            "1 open \"D{number}\" got\n1 dev \"D{number}\" begin done\n"
        )?;
        wanted.extend_from_slice(lines.as_bytes())?;
    }
    wanted.extend_from_slice(b"1 dev \"0\" write \"F18 LIMIT R:1\\0a\" done\n")?;
    for number in 1..=16u32 {
        let lines = format!(in alloc; "1 dev \"D{number}\" end done\nF is dropped\n")?;
        wanted.extend_from_slice(lines.as_bytes())?;
    }
    wanted.extend_from_slice(
        b"1 dev \"0\" end done\n0 is dropped\n1 halt F18 done\n---\nF is dropped\n0 is dropped\n",
    )
}

// A session is dropped with its end, before its job's next event; the principal one comes last.
#[test]
fn a_job_that_ends_drops_its_sessions(rt: HostRuntime) -> Result<(), Fail> {
    // the end of the routine
    ends(&rt, " OPEN \"F\" USE \"F\" WRITE \"x\"\n")?;
    // HALT
    ends(&rt, " OPEN \"F\" USE \"F\" READ X HALT\n")?;
    // HALT two frames below
    ends(&rt, " DO A\nA FOR  DO\n . OPEN \"F\" HALT\n")?;
    // HALT in a transaction, with a lock
    ends(
        &rt,
        " OPEN \"F\" USE \"F\" WRITE \"x\" LOCK +^L TSTART  SET ^A=2 HALT\n",
    )?;
    // a transaction that was begun again
    ends(
        &rt,
        " TSTART () IF $TRESTART=0 OPEN \"F\" TRESTART\n TCOMMIT\n",
    )
}

fn ends(rt: &HostRuntime, bytes: &str) -> Result<(), Fail> {
    let tail = "1 dev \"F\" end done
F is dropped
1 dev \"0\" end done
0 is dropped
1 halt done
---
0 is dropped
";
    tells(rt, bytes, 0, 0, tail)
}

// So does a job that faults, and one that another started, which has ended before.
#[test]
fn a_job_that_faults_drops_its_sessions(rt: HostRuntime) -> Result<(), Fail> {
    tells(
        &rt,
        " OPEN \"F\" WRITE 1\\0\n",
        0,
        0,
        "1 dev \"0\" write \"F2 DIVIDE R:1\\0a\" done
1 dev \"F\" end done
F is dropped
1 dev \"0\" end done
0 is dropped
1 halt F2 done
---
0 is dropped
",
    )?;
    // two frames below, with the device current
    tells(
        &rt,
        " DO A\nA OPEN \"F\" USE \"F\" DO\n . WRITE \"x\",X\n",
        0,
        0,
        "1 dev \"F\" write \"x\" done
1 dev \"0\" write \"F1 UNDEF R:3\\0a\" done
1 dev \"F\" end done
F is dropped
1 dev \"0\" end done
0 is dropped
1 halt F1 done
---
0 is dropped
",
    )?;
    tells(
        &rt,
        " JOB A HALT\nA OPEN \"F\" USE \"F\" WRITE \"x\"\n",
        0,
        0,
        "1 start A^R () job 2
1 dev \"0\" end done
0 is dropped
2 dev \"0\" begin done
1 halt done
2 open \"F\" got
2 dev \"F\" begin done
2 dev \"F\" write \"x\" done
2 dev \"F\" end done
F is dropped
2 dev \"0\" end done
0 is dropped
2 halt done
---
",
    )
}

#[test]
fn a_session_that_is_closed_is_dropped(rt: HostRuntime) -> Result<(), Fail> {
    tells(
        &rt,
        " OPEN \"F\" USE \"F\" WRITE \"x\" CLOSE \"F\" WRITE \"y\"\n",
        0,
        0,
        "1 dev \"F\" end done
F is dropped
1 close \"F\" done
1 dev \"0\" write \"y\" done
1 dev \"0\" end done
0 is dropped
1 halt done
---
0 is dropped
",
    )?;
    // there is no other session
    tells(
        &rt,
        " OPEN \"F\" CLOSE \"F\" OPEN \"F\"\n",
        0,
        0,
        "1 dev \"F\" end done
F is dropped
1 close \"F\" done
1 open \"F\" none
1 dev \"0\" write \"F15 NODEVICE R:1\\0a\" done
1 dev \"0\" end done
0 is dropped
1 halt F15 done
---
0 is dropped
",
    )
}

#[test]
fn what_no_job_ends_is_dropped_with_the_core(rt: HostRuntime) -> Result<(), Fail> {
    // nobody opens F
    tells(
        &rt,
        " WRITE 1\n",
        0,
        0,
        "1 dev \"0\" end done
0 is dropped
1 halt done
---
F is dropped
0 is dropped
",
    )?;
    // the job goes on
    tells(
        &rt,
        " OPEN \"F\" FOR  HANG 1\n",
        0,
        0,
        "1 rest 1 done
---
F is dropped
0 is dropped
0 is dropped
",
    )?;
    // both wait for what the other has, and one has closed a device before
    tells(
        &rt,
        " LOCK +^L JOB A HANG 1,1 LOCK +^M\nA LOCK +^M OPEN \"F\" CLOSE \"F\" LOCK +^L\n",
        0,
        0,
        "1 rest 1 done
2 dev \"0\" begin done
1 rest 1 done
2 try ^M got
2 open \"F\" got
2 dev \"F\" begin done
2 dev \"F\" end done
F is dropped
2 close \"F\" done
---
0 is dropped
0 is dropped
",
    )
}

// Fails where the lines of a routine, over devices of which these calls fail, don't end so.
fn tells(
    rt: &HostRuntime,
    bytes: &str,
    named: u64,
    principal: u64,
    tail: &str,
) -> Result<(), Fail> {
    let lines = stepped(rt.alloc(), bytes, named, principal)?;
    let told = hold(lines.ends_with(tail.as_bytes()), bytes, &lines);
    drop(lines);
    told
}
