//! What no clause says: that the files are those that are named, and which calls the file system refuses. One function has a port or a session, and
//! gives it to `drop` or to its end; those that may fail borrow it, since all that a function has is dropped anew at each of its ends, and each drop is proved.

ghost use Rattle.mj_dev.specs.Heard.{IsFresh};

use mj_dev::{Device, Did, Input, Pool, Session, State};
use mj_files::Port;
use mj_text::{Digits, TEXT_LIMIT, Text};
use std::alloc::{AllocError, Global};
use std::rt::Files;
use std::test::Fail;
use std::{env, fs, process};

// A call to a device, and what it must come to.
#[derive(Clone, Copy)]
enum Row {
    // it begins
    Begin(Did),
    // it takes these bytes
    Write(&'static [u8], Did),
    // it reads this line
    Line(&'static [u8]),
    // it reads no line: it fails
    Fails,
    // it reads no line: there is no further one
    NoLine,
    // it ends
    End(Did),
    // so many of its calls have failed
    Failures(u64),
    // it has taken these bytes
    Taken(&'static [u8]),
    // it has given so many lines
    Given(usize),
}

// The place of the first row that isn't as it must be.
fn first_wrong<D: Device>(device: &mut D, rows: &[Row]) -> Option<usize> {
    for place in 0..rows.len() {
        if !is_right(device, rows[place]) {
            return Some(place);
        }
    }
    None
}

fn is_right<D: Device>(device: &mut D, row: Row) -> bool {
    if device.failures() >= 10 {
        return false;
    }
    match row {
        Row::Begin(did) => device.begin() == did,
        Row::Write(bytes, did) => device.write(bytes) == did,
        Row::Line(line) => is_line(&device.read(), line),
        Row::Fails => matches!(device.read(), Input::Failed),
        Row::NoLine => matches!(device.read(), Input::End),
        Row::End(did) => device.end() == did,
        Row::Failures(count) => device.failures() == count,
        Row::Taken(bytes) => device.taken() == bytes,
        Row::Given(count) => device.given().len() == count,
    }
}

// Whether a line was read, and this one.
fn is_line(input: &Input, line: &[u8]) -> bool {
    match input {
        Input::Line(text) => text.bytes(&mut Digits::new()) == line,
        _ => false,
    }
}

// The place of the first row that isn't as it must be, of a device that goes then.
fn first_wrong_of<D: Device>(device: D, rows: &[Row]) -> Option<usize> {
    let mut device = device;
    let wrong = first_wrong(&mut device, rows);
    drop(device);
    wrong
}

#[test]
fn lines_of_given_bytes(rt: HostRuntime) -> Result<(), Fail> {
    let input = long_input(rt.alloc())?;
    assert_eq!(rt; first_wrong_given(rt.alloc(), &rt, input), None);
    Ok(())
}

fn first_wrong_given<R: Files>(alloc: Global, _rt: &R, input: Vec<u8>) -> Option<usize> {
    let port: Port<&R> = Port::of_lines(alloc, input);
    first_wrong_of_lines(port)
}

fn first_wrong_of_lines<D: Device>(device: D) -> Option<usize> {
    let rows = [
        Row::Begin(Did::Done),
        Row::Line(b"hi"),
        Row::Fails,
        Row::Failures(1),
        Row::Write(b"x", Did::Done),
        Row::Taken(b"x"),
        Row::Given(1),
    ];
    first_wrong_of(device, &rows)
}

// A line, and one that is longer than a text.
fn long_input(alloc: Global) -> Result<Vec<u8>, AllocError> {
    let mut input = b"hi\n".to_vec(alloc)?;
    input.extend_from_slice(&vec![in alloc; 120u8; TEXT_LIMIT + 1]?)?;
    Ok(input)
}

// The file is read when the session begins, and what is written goes nowhere.
#[test]
fn lines_of_a_file(rt: HostRuntime) -> Result<(), Fail> {
    let folder = folder(&rt, "lines")?;
    assert!(rt; is_talk_of_a_file(rt.alloc(), &rt, folder.as_str())?);
    remove(&rt, folder)
}

fn is_talk_of_a_file<R: Files + Alloc>(alloc: Global, rt: &R, folder: &str) -> Result<bool, Fail> {
    let path = path(alloc, folder, "in")?;
    let port = Port::from_file(alloc, rt, path);
    fill(alloc, rt, folder, b"one\r\n\nlast")?;
    let session = session_of(alloc, port)?;
    let talked = is_talk(session);
    Ok(is_text(alloc, rt, folder, "in", "one\r\n\nlast")? && talked)
}

// A session with a device that was in a pool.
fn session_of<D: Device>(alloc: Global, device: D) -> Result<Session<D>, Fail>
    requires { IsFresh (D.failures device) (D.taken device) (D.given device) }
{
    let mut pool = Pool::new(alloc);
    let session = taken(alloc, &mut pool, device);
    drop(pool);
    session
}

fn taken<D: Device>(alloc: Global, pool: &mut Pool<D>, device: D) -> Result<Session<D>, Fail>
    requires { IsFresh (D.failures device) (D.taken device) (D.given device) }
{
    let name = Text::from(alloc, b"F")?;
    if pool.add(&name, device).is_err() {
        return Err(Fail::new("not added"));
    }
    Ok(pool.take(&name).ok_or("no session")?)
}

// Whether a session reads three lines and writes, and ends.
fn is_talk<D: Device>(session: Session<D>) -> bool {
    let mut session = session;
    let went = begins(&mut session)
        && gives(&mut session, b"one\r")
        && takes(&mut session, b"x")
        && gives(&mut session, b"")
        && gives(&mut session, b"last")
        && gives_none(&mut session);
    let (did, device) = session.end();
    drop(device);
    did == Did::Done && went
}

fn begins<D: Device>(session: &mut Session<D>) -> bool {
    session.state() == State::Open && session.begin() == Did::Done
}

fn takes<D: Device>(session: &mut Session<D>, bytes: &[u8]) -> bool {
    session.state() == State::Open && session.write(bytes) == Did::Done
}

fn gives<D: Device>(session: &mut Session<D>, line: &[u8]) -> bool {
    session.state() == State::Open && is_line(&session.line(), line)
}

fn gives_none<D: Device>(session: &mut Session<D>) -> bool {
    session.state() == State::Open && matches!(session.line(), Input::End)
}

#[test]
fn bytes_go_to_a_file(rt: HostRuntime) -> Result<(), Fail> {
    let folder = folder(&rt, "bytes")?;
    assert_eq!(rt; first_wrong_target(rt.alloc(), &rt, folder.as_str())?, None);
    remove(&rt, folder)
}

fn first_wrong_target<R: Files + Alloc>(
    alloc: Global,
    rt: &R,
    folder: &str,
) -> Result<Option<usize>, Fail> {
    let path = path(alloc, folder, "out")?;
    let mut port = Port::to_file(alloc, rt, path);
    let wrong = first_wrong_text(alloc, rt, folder, &mut port);
    drop(port);
    wrong
}

// The place of the first stage at which the file isn't as it must be, or the device isn't: at first there is none, then it is empty, and at the end
// it has what was written.
fn first_wrong_text<R: Files + Alloc, D: Device>(
    alloc: Global,
    rt: &R,
    folder: &str,
    port: &mut D,
) -> Result<Option<usize>, Fail> {
    if is_there(alloc, rt, folder, "out")? {
        return Ok(Some(0));
    }
    let begun = first_wrong(port, &[Row::Begin(Did::Done)]);
    if begun.is_some() || !is_text(alloc, rt, folder, "out", "")? {
        return Ok(Some(1));
    }
    let rows = [
        Row::Write(b"ab\n", Did::Done),
        Row::Write(b"c", Did::Done),
        Row::NoLine,
        Row::End(Did::Done),
        Row::Taken(b"ab\nc"),
    ];
    if first_wrong(port, &rows).is_some() || !is_text(alloc, rt, folder, "out", "ab\nc")? {
        return Ok(Some(2));
    }
    Ok(None)
}

// Files that aren't there, a folder that is none, and a device of the system that is always full.
#[test]
fn files_fail(rt: HostRuntime) -> Result<(), Fail> {
    let folder = folder(&rt, "fail")?;
    assert_eq!(rt;
        first_wrong_missing(rt.alloc(), &rt, folder.as_str())?,
        [None, None]
    );
    assert_eq!(rt; first_wrong_where_full(rt.alloc(), &rt)?, None);
    remove(&rt, folder)
}

fn first_wrong_missing<R: Files>(
    alloc: Global,
    rt: &R,
    folder: &str,
) -> Result<[Option<usize>; 2], Fail> {
    let missing = path(alloc, folder, "missing/file")?;
    let source = Port::from_file(alloc, rt, missing);
    let read = first_wrong_of_missing(source);
    let missing = path(alloc, folder, "missing/file")?;
    let target = Port::to_file(alloc, rt, missing);
    Ok([read, first_wrong_of_refused(target)])
}

fn first_wrong_of_missing<D: Device>(device: D) -> Option<usize> {
    first_wrong_of(device, &[Row::Begin(Did::Failed), Row::Failures(1)])
}

fn first_wrong_of_refused<D: Device>(device: D) -> Option<usize> {
    let rows = [
        Row::Begin(Did::Failed),
        Row::Write(b"x", Did::Failed),
        Row::Failures(2),
        Row::Taken(b""),
    ];
    first_wrong_of(device, &rows)
}

fn first_wrong_where_full<R: Files>(alloc: Global, rt: &R) -> Result<Option<usize>, Fail> {
    if !fs::exists(rt, "/dev/full")? {
        return Ok(None);
    }
    let full = "/dev/full".to_owned(alloc)?;
    let port = Port::to_file(alloc, rt, full);
    Ok(first_wrong_of_full(port))
}

fn first_wrong_of_full<D: Device>(device: D) -> Option<usize> {
    let rows = [
        Row::Begin(Did::Done),
        Row::Write(b"x", Did::Failed),
        Row::Failures(1),
        Row::Taken(b""),
    ];
    first_wrong_of(device, &rows)
}

// A new folder for the files of a test.
fn folder(rt: &HostRuntime, test: &str) -> Result<String, Fail> {
    let id = process::id(rt.process());
    let above = env::temp_dir(rt)?;
    let above = above.as_str();
    let folder = format!(in rt.alloc(); "{above}/mj_files_{test}_{id}")?;
    make(rt, folder.as_str())?;
    Ok(folder)
}

// Makes a folder, in the place of what stands there.
fn make<R: Files + Alloc>(rt: &R, folder: &str) -> Result<(), Fail> {
    if fs::exists(rt, folder)? {
        fs::remove_dir_all(rt, folder)?;
    }
    fs::create_dir_all(rt, folder)?;
    Ok(())
}

fn remove<R: Files + Alloc>(rt: &R, folder: String) -> Result<(), Fail> {
    fs::remove_dir_all(rt, folder.as_str())?;
    Ok(())
}

fn path(alloc: Global, folder: &str, file: &str) -> Result<String, Fail> {
    Ok(format!(in alloc; "{folder}/{file}")?)
}

fn is_there<R: Files>(alloc: Global, rt: &R, folder: &str, file: &str) -> Result<bool, Fail> {
    let path = path(alloc, folder, file)?;
    Ok(fs::exists(rt, path.as_str())?)
}

fn fill<R: Files>(alloc: Global, rt: &R, folder: &str, bytes: &[u8]) -> Result<(), Fail> {
    let path = path(alloc, folder, "in")?;
    fs::write(rt, path.as_str(), bytes)?;
    Ok(())
}

// Whether a file has this text.
fn is_text<R: Files + Alloc>(
    alloc: Global,
    rt: &R,
    folder: &str,
    file: &str,
    wanted: &str,
) -> Result<bool, Fail> {
    let path = path(alloc, folder, file)?;
    let text = fs::read_to_string(rt, path.as_str())?;
    Ok(text.as_str() == wanted)
}
