// What is judged of runs: which kinds of events they have, and what an expression comes to over the globals that they left.
//
// `condition` makes a script (`mj_script`) of an expression: one job, which writes 1 where it is true (`specs/Conditions.antt`). `verdict_over` runs it over
// globals, and tells by how that job ended and by what it wrote whether the expression is true, untrue, or faults (`specs/Judged.antt`). Where that job doesn't
// end, or its device fails, nothing is told. Faults, clashes and ends of jobs are counted in a record (`marks.rt`, `specs/Marks.antt`). `is_for_memory` says
// whether stepping ended for want of memory (`endings.rt`, `specs/Endings.antt`).
//
// No file is touched: devices are in memory, and take whatever is written to them.
#![tactic(auto)]

mod conditions;
mod endings;
mod marks;

pub use conditions::{Verdict, condition, verdict_over};
pub use endings::is_for_memory;
pub use marks::{Mark, count, has, is_over};
