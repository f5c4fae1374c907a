// Runs by chance, and what they come to: what `mj explore` does, and what is promised of it.
//
// A script (`mj_script`) is what each run begins with, beside the globals: routines, starts and devices. `explore` makes runs from there, each by steps that
// chance chooses (`mj_chance`), counts them, their different ends and what became of them, and stops at the first that shows what is looked for, a `Goal`. Its
// steps are made shorter by tries. The list that comes of it was made on a core of its own, from the beginning, and shows it there (`specs/Found.antt`).
// What is looked for may be that an expression isn't true over the globals that a run left (`mj_judge`). Where it faults, that is told as what was found.
//
// No file is touched: devices are in memory, and take whatever is written to them.
#![tactic(auto)]

mod ends;
mod exploring;
mod fates;
mod goals;
mod probes;
mod waiting;

pub use ends::End;
pub use exploring::{Explored, Found, RUN_LIMIT, Search, Tally, explore};
pub use goals::{Finding, Goal};
