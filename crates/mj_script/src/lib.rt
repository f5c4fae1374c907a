// What runs begin with, again and again: routines that can be loaded, where the first jobs start, and devices in memory.
//
// A `Script` keeps all of that but the globals. `new` sees once that its routines can be loaded, so that later only memory may be wanting, and `begin` makes
// jobs at their beginning of it, over a copy of globals. A contract sees a script as its sources, its starts and the names of its devices
// (`specs/Scripts.antt`).
#![tactic(auto)]

mod script;

pub use script::{Script, Source, Supply, Unread, begin};
