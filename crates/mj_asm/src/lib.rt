// From a routine's tree to its p-code.
//
// `assemble` gives the unit of a routine. That it does what the routine does, turn by turn and with whatever replies, is
// `IsUnitOf` of `specs/Correct.antt`.
#![tactic(auto)]

mod devices;
mod emit;
mod entries;
mod expr;
mod sharing;
mod site;
mod targets;

pub use emit::assemble;
