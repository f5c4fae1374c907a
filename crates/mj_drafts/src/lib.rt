// Files that the program writes, and why it stops.
//
// A file is written beside the old one, and takes its place once it is whole (`drafts.rt`). Before it is read or written it is locked, so that no two runs
// change one at a time (`locks.rt`). `ProgramError` has the reasons why the program ends before its end, each with the line that it prints and with its
// exit status (`specs/Statuses.antt`). What an option wants whose value is refused is said by `Choice` (`specs/Choices.antt`).
#![tactic(auto)]

mod choice;
mod drafts;
mod locks;
mod places;
mod printing;
mod stop;

pub use choice::Choice;
pub use drafts::{Draft, drafted, given_up, placed, write_file};
pub use locks::{Lockable, LockedFile, locked, path_or};
pub use places::{Place, is_stream, path_of, place_of};
pub use printing::{print, stopped, tell_stop, tell_trouble};
pub use stop::{DIFFERS, FAILED, FAULTED, ProgramError, WORDS, Word};
