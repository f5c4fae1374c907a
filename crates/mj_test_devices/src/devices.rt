//! What no clause says: that a device is dropped once, with its session or with its pool, and that calls that take memory can succeed. One function
//! has a pool or a device, and gives it to `drop`; those that may fail borrow it, since all that a function has is dropped anew at each of its ends,
//! and each drop is proved.

ghost use Rattle.std.specs.Prelude.{[], IfOk};
ghost use Rattle.mj_dev.specs.Heard.{IsFresh};

use mj_dev::{
    Code, Counts, Cursor, Device, Did, Fail, Input, Memory, Pool, Session, State, Watched,
};
use mj_text::{Digits, TEXT_LIMIT, Text};
use std::alloc::{AllocError, Global};
use std::process::Abort;
use std::sync::Arc;
use std::sync::atomic::{AtomicU64, Ordering};
use std::test;

// A pool of three devices, of which one is taken, talked to and ended; the others are dropped with the pool.
#[test]
fn boxes_are_dropped_once(rt: HostRuntime) -> Result<(), test::Fail> {
    let alloc = rt.alloc();
    let drops = Arc::new(alloc, AtomicU64::new(0))?;
    let first: Box<dyn Device + Send> = Box::new(alloc, counted_lines(alloc, &drops)?)?;
    let second: Box<dyn Device + Send> = Box::new(alloc, counted_fail(alloc, 1, &drops)?)?;
    let third: Box<dyn Device + Send> = Box::new(alloc, counted_fail(alloc, 0, &drops)?)?;
    fill_and_talk(&rt, alloc, first, second, third, &drops)?;
    assert_eq!(rt; drops.load(Ordering::SeqCst), 3);
    Ok(())
}

fn counted_lines(
    alloc: Global,
    drops: &Arc<AtomicU64, Global>,
) -> Result<Watched<Memory, Counts>, AllocError>
    ensures { IfOk result (λ c. IsFresh c.device.failures c.device.taken c.device.given) }
{
    let drops = Arc::try_clone(drops)?;
    let device = Memory::new(alloc, b"hi\n".to_vec(alloc)?);
    let watch = Counts { drops };
    Ok(Watched { device, watch })
}

fn counted_fail(
    alloc: Global,
    at: u64,
    drops: &Arc<AtomicU64, Global>,
) -> Result<Watched<Fail, Counts>, AllocError>
    ensures { IfOk result (λ c. IsFresh c.device.failures c.device.taken []) }
{
    let drops = Arc::try_clone(drops)?;
    let device = Fail::new(alloc, at);
    let watch = Counts { drops };
    Ok(Watched { device, watch })
}

fn fill_and_talk<D: Device, R: Abort>(
    rt: &R,
    alloc: Global,
    first: D,
    second: D,
    third: D,
    drops: &AtomicU64,
) -> Result<(), test::Fail>
    requires first { IsFresh (D.failures first) (D.taken first) (D.given first) }
    requires second { IsFresh (D.failures second) (D.taken second) (D.given second) }
    requires third { IsFresh (D.failures third) (D.taken third) (D.given third) }
{
    let mut pool = Pool::new(alloc);
    let added = [
        is_added(alloc, &mut pool, b"F", first),
        is_added(alloc, &mut pool, b"0", second),
        is_added(alloc, &mut pool, b"F", third),
    ];
    assert!(rt; added == [true; 3]);
    let went = take_and_talk(rt, alloc, &mut pool, drops);
    drop(pool);
    went
}

fn is_added<D: Device>(alloc: Global, pool: &mut Pool<D>, name: &[u8], device: D) -> bool
    requires { IsFresh (D.failures device) (D.taken device) (D.given device) }
{
    match Text::from(alloc, name) {
        Ok(name) => pool.add(&name, device).is_ok(),
        Err(_) => false,
    }
}

fn take_and_talk<D: Device, R: Abort>(
    rt: &R,
    alloc: Global,
    pool: &mut Pool<D>,
    drops: &AtomicU64,
) -> Result<(), test::Fail> {
    assert!(rt; pool.fits(1) && !pool.fits(2));
    let session = take(alloc, pool)?;
    assert_left(rt, alloc, pool)?;
    assert_counts(rt, pool)?;
    talk(rt, session, drops);
    Ok(())
}

// A session with a device of the name `F`.
fn take<D: Device>(alloc: Global, pool: &mut Pool<D>) -> Result<Session<D>, test::Fail> {
    let name = Text::from(alloc, b"F")?;
    Ok(pool.take(&name).ok_or("no session")?)
}

// One device of the name `F` is left.
fn assert_left<D: Device, R: Abort>(
    rt: &R,
    alloc: Global,
    pool: &Pool<D>,
) -> Result<(), test::Fail> {
    let name = Text::from(alloc, b"F")?;
    assert_eq!(rt; pool.left(&name), 1);
    Ok(())
}

// One device has the name `0`, and two have the name `F`, of which one was taken.
fn assert_counts<D: Device, R: Abort>(rt: &R, pool: &Pool<D>) -> Result<(), test::Fail> {
    let counts = pool.counts()?;
    assert_eq!(rt; counts.len(), 2);
    assert!(rt; is_count(&counts[0], b"0", 1));
    assert!(rt; is_count(&counts[1], b"F", 2));
    Ok(())
}

fn is_count(row: &(Text, u32), name: &[u8], count: u32) -> bool {
    row.0.bytes(&mut Digits::new()) == name && row.1 == count
}

// Talks to a session, and ends it.
fn talk<D: Device, R: Abort>(rt: &R, session: Session<D>, drops: &AtomicU64) {
    let mut session = session;
    write(rt, &mut session);
    read(rt, &mut session);
    assert_eq!(rt; drops.load(Ordering::SeqCst), 0);
    let (did, device) = session.end();
    drop(device);
    assert!(rt; did == Did::Done);
    assert_eq!(rt; drops.load(Ordering::SeqCst), 1);
}

fn write<D: Device, R: Abort>(rt: &R, session: &mut Session<D>) {
    assert!(rt; session.state() == State::Open && session.begin() == Did::Done);
    assert!(rt; session.state() == State::Open && session.write(b"ab\ncd") == Did::Done);
    assert_eq!(rt; session.taken(), b"ab\ncd".as_slice());
    assert!(rt; session.cursor() == Cursor { column: 2, row: 1 });
}

fn read<D: Device, R: Abort>(rt: &R, session: &mut Session<D>) {
    assert!(rt; session.state() == State::Open && session.byte() == Code::Byte(104));
    assert!(rt; session.state() == State::Open);
    assert!(rt; is_line(&session.line(), b"i"));
    assert!(rt; session.cursor() == Cursor { column: 2, row: 1 });
}

// Whether a line was read, and this one.
fn is_line(input: &Input, line: &[u8]) -> bool {
    match input {
        Input::Line(text) => text.bytes(&mut Digits::new()) == line,
        _ => false,
    }
}

#[test]
fn lines_of_an_input(rt: HostRuntime) -> Result<(), test::Fail> {
    let input = input(rt.alloc())?;
    let mut device = Memory::new(rt.alloc(), input);
    let longest = vec![in rt.alloc(); 120u8; TEXT_LIMIT]?;
    for line in [b"one\r".as_slice(), b"", longest.as_slice(), b"last"] {
        assert!(rt; device.failures() < 10 && is_line(&device.read(), line));
    }
    assert!(rt; device.failures() < 10 && matches!(device.read(), Input::End));
    drop(device);
    Ok(())
}

// Lines of which one is as long as a text may be, and the last isn't ended.
fn input(alloc: Global) -> Result<Vec<u8>, AllocError> {
    let mut input = b"one\r\n\n".to_vec(alloc)?;
    input.extend_from_slice(&vec![in alloc; 120u8; TEXT_LIMIT]?)?;
    input.extend_from_slice(b"\nlast")?;
    Ok(input)
}

#[test]
fn a_line_is_too_long(rt: HostRuntime) -> Result<(), test::Fail> {
    let input = vec![in rt.alloc(); 120u8; TEXT_LIMIT + 1]?;
    let mut device = Memory::new(rt.alloc(), input);
    let failed = device.failures() < 10 && matches!(device.read(), Input::Failed);
    let failures = device.failures();
    drop(device);
    assert!(rt; failed);
    assert_eq!(rt; failures, 1);
    Ok(())
}
