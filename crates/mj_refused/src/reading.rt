// Routines are read and loaded.

ghost use Rattle.std.specs.Prelude.{All, IfOk};
ghost use Rattle.mj_load.specs.Image.{IsWithinLimits};

use crate::listening::{may_not_refuse, may_refuse};
use crate::told::Told;
use mj_ast::Routine;
use mj_load::{LoadError, load};
use mj_rou::read;
use mj_test_core::begins::routine;
use mj_text::{Failure, Limit};
use std::alloc::{AllocError, Global};

// Files, and what comes of each.
const FILES: [(&str, &str); 8] = [
    (
        "A(X,%Y) ;a comment
 SET (X,Y(1,\"a\"\"b\"))=-X+2,$PIECE(^Z(X),\",\",2)=$LENGTH(X) IF X=1,Y WRITE !,?5,*65,$SELECT(X:1,1:$ORDER(^Z(\"\"),-1))
 ELSE  DO  QUIT:X>Y
 . FOR I=1:1:3,5,7:1 DO A^R(I,,X):Y KILL (X),^Z NEW (Y) MERGE ^Z=Y LOCK +(^L,^M(1)):5
 TSTART (X,Y):SERIAL TCOMMIT  OPEN \"F\"::5 USE \"F\" READ \"?\",X:5,*Y CLOSE \"F\" JOB A^R(1)::5 HANG 1 GOTO A:X,B
B TRESTART:X  TROLLBACK  BREAK  HALT
",
        "read",
    ),
    ("", "read"),
    (" WRITE \"abc\n", "L2 R:1:8"),
    (" SET @X=1\n", "L7 R:1:6 indirection"),
    ("A QUIT\nB QUIT\nA QUIT\n", "L3 R:3"),
    (" WRITE ABCDEFGHIJKLMNOPQRSTUVWXYZABCDEF\n", "L5 R:1"),
    (
        " WRITE -----------------------------------------------------------------1\n",
        "L6 R:1:72",
    ),
    (" SET X=1 SET X=\n", "L2 R:1:16"),
];

/// Files are read and refused, and two routines are loaded.
pub fn make_all(alloc: Global, told: &mut Told) -> Result<(), Failure> {
    told.put(b"files are read")?;
    for (bytes, wanted) in FILES {
        read_one(alloc, told, bytes, wanted)?;
    }
    told.put(b"routines are loaded")?;
    load_two(alloc, told)
}

// Reads a file: once more where memory was refused.
fn read_one(alloc: Global, told: &mut Told, bytes: &str, wanted: &str) -> Result<(), AllocError> {
    may_refuse(alloc);
    let done = read(alloc, b"R", bytes.as_bytes());
    may_not_refuse(alloc);
    let first = outcome(alloc, done)?;
    if first.as_str() != "memory" {
        let put = told.hold(bytes.as_bytes(), first.as_bytes(), first.as_str() == wanted);
        drop(first);
        return put;
    }
    drop(first);
    told.refused(b"read", true)?;
    let again = outcome(alloc, read(alloc, b"R", bytes.as_bytes()))?;
    let put = told.hold(bytes.as_bytes(), again.as_bytes(), again.as_str() == wanted);
    drop(again);
    put
}

fn outcome(alloc: Global, done: Result<Routine, mj_rou::LoadError>) -> Result<String, AllocError> {
    match done {
        Ok(routine) => {
            drop(routine);
            String::from_str(alloc, "read")
        }
        Err(why) => {
            let text = format!(in alloc; "{why}");
            drop(why);
            text
        }
    }
}

// Loads two routines: once more where memory was refused, and they came back.
fn load_two(alloc: Global, told: &mut Told) -> Result<(), Failure> {
    let mut routines = Vec::new(alloc);
    match put_two(alloc, &mut routines) {
        Ok(()) => Ok(load_these(alloc, told, routines)?),
        Err(failure) => {
            drop(routines);
            Err(failure)
        }
    }
}

fn put_two(alloc: Global, routines: &mut Vec<Routine>) -> Result<(), Failure>
    requires { All IsWithinLimits routines.old.items }
    ensures { All IsWithinLimits routines.new.items }
{
    routines.push(routine(alloc, b"R", FILES[0].0)?)?;
    routines.push(routine(alloc, b"S", " WRITE 1\n")?)?;
    Ok(())
}

fn load_these(alloc: Global, told: &mut Told, routines: Vec<Routine>) -> Result<(), AllocError>
    requires { All IsWithinLimits routines.items }
{
    may_refuse(alloc);
    let done = load(alloc, routines, Limit::V2);
    may_not_refuse(alloc);
    match done {
        Ok(image) => {
            let all = image.routines().len() == 2;
            drop(image);
            told.hold(b"load", b"a routine is missing", all)
        }
        Err(LoadError::Memory { routines }) => {
            let put = told.refused(b"load", are_two(&routines));
            match put {
                Ok(()) => load_again(alloc, told, routines),
                Err(refused) => {
                    drop(routines);
                    Err(refused)
                }
            }
        }
        Err(other) => {
            drop(other);
            told.put(b"load: refused")
        }
    }
}

// Whether these are the two, in order.
fn are_two(routines: &[Routine]) -> bool {
    match routines {
        [first, second] => first.lines.len() == 6
            && second.lines.len() == 1
            && first.name != second.name,
        _ => false,
    }
}

fn load_again(alloc: Global, told: &mut Told, routines: Vec<Routine>) -> Result<(), AllocError>
    requires { All IsWithinLimits routines.items }
{
    let done = load(alloc, routines, Limit::V2);
    let all = matches!(&done, Ok(_));
    drop(done);
    told.hold(b"load", b"once more, it is refused", all)
}
