// Calls that take memory, each made while memory may be refused: what comes of them has to be what comes of them without a refusal, or the answer that memory
// was refused. Then all has to be as before, and the call is made again. `bench/refused` runs this program, once for each growth, over a library that
// refuses it. What is printed is the same each time; on the other output comes how many calls were refused memory.
//
// Where somebody listens (`listening.rt`), memory is refused only in the calls themselves, and not where they are prepared and judged.
#![tactic(auto)]

mod advanced;
mod committed;
mod histories;
mod listening;
mod reading;
mod script;
mod served;
mod stepped;
mod told;

use crate::told::Told;
use mj_text::Failure;
use std::alloc::Global;
use std::io::{self, Write};

fn main(rt: HostRuntime) -> io::Result<()> {
    let mut told = Told::new(rt.alloc());
    let done = make_all(rt.alloc(), &mut told);
    if done.is_err() {
        println!(rt; "memory")?;
    }
    rt.stdout().write_all(&told.lines)?;
    let refusals = told.refusals;
    eprintln!(rt; "{refusals}")
}

// Makes all calls.
fn make_all(alloc: Global, told: &mut Told) -> Result<(), Failure> {
    reading::make_all(alloc, told)?;
    advanced::make_all(alloc, told)?;
    committed::make_all(alloc, told)?;
    served::make_all(alloc, told)?;
    stepped::make_all(alloc, told)
}
