// What no clause says: printed names, that calls that allocate can succeed, and how much room a text takes.

use mj_text::{Digits, Failure, Fault, Limit, TEXT_LIMIT, Text};
use std::mem::size_of;
use std::test::Fail;

#[test]
fn faults_print_their_names(rt: HostRuntime) -> Result<(), Fail> {
    let length = Fault::Length.to_string(rt.alloc())?;
    assert_eq!(rt; length.as_str(), "F5 LENGTH");
    let quit = Failure::Fault(Fault::QuitInTransaction).to_string(rt.alloc())?;
    assert_eq!(rt; quit.as_str(), "F10 TXQUIT");
    let memory = Failure::Memory.to_string(rt.alloc())?;
    assert_eq!(rt; memory.as_str(), "memory");
    Ok(())
}

#[test]
fn texts_are_made(rt: HostRuntime) -> Result<(), Fail> {
    let mut digits = Digits::new();
    let few = Text::from(rt.alloc(), b"few\0\xff\"")?;
    assert_eq!(rt; few.bytes(&mut digits), b"few\0\xff\"".as_slice());
    let bytes = vec![in rt.alloc(); 7u8; TEXT_LIMIT]?;
    let many = Text::from(rt.alloc(), &bytes)?;
    assert_eq!(rt; many.len(), TEXT_LIMIT);
    assert!(rt; many.try_clone()? == many);
    Ok(())
}

#[test]
fn texts_are_joined(rt: HostRuntime) -> Result<(), Fail> {
    let mut digits = Digits::new();
    let number = Text::from_number(rt.alloc(), -120);
    let back = Text::from(rt.alloc(), b" is less than twenty-four bytes")?;
    let joined = number.join(&back, Limit::V2)?;
    assert_eq!(rt;
        joined.bytes(&mut digits),
        b"-120 is less than twenty-four bytes".as_slice()
    );
    assert!(rt; joined.cut(0, 4)? == number);
    let few = Text::from(rt.alloc(), b"few\0\xff\"")?;
    assert_eq!(rt; joined.find(&few.cut(0, 1)?, 0), Some(25));
    Ok(())
}

#[test]
fn texts_are_small(rt: HostRuntime) {
    assert_eq!(rt; size_of::<Text>(), 24);
}
