// What the program does where runs are made by chance: it reads what they begin with, has them made (`mj_explore`), tells of them, and keeps the steps of one
// that shows what is looked for.
//
// What is printed is `specs/Printed.antt`, and the exit status `specs/Statuses.antt`. Behind that, where hints are wanted, it is told which ends came how often
// (`specs/Told.antt`). An expression that faults over what the first run left is refused as a word that is spelled wrongly is, and it is told by which fault,
// and what that run came to.
#![tactic(auto)]

mod printed;
mod searching;
mod told;

pub use searching::explore;
