// Transactions of many jobs, as if each had run alone.
//
// `specs/Blocks.antt` has the blocks of a history, each committed transaction or single access, in the order of their commits (`blocks_of`);
// `specs/Alone.antt` what it is to run blocks alone, each directly on one map, before the next (`alone`); `specs/Serial.antt` that a history is as
// its blocks run alone (`AsAlone`), and that a commit clashed because it had to (`MustClash`). `specs/Rules.antt` says the same of any rule for
// what a SERIAL commit is told, this system's among them (`Exactly`), so that wrong ones can be refuted.
//
// `specs/Laws.antt` has the laws of every run of many jobs (`IsSerial`, `ClashesMust`). The functions of `laws` have nothing to do: their contracts
// are the laws, and `holds` says both of a core. `serial_blocks` gives the blocks of a history. `proofs/Examples.antt` has a transfer, a write skew and
// a phantom.
#![tactic(auto)]

mod entries;
mod laws;
mod scanning;

pub use laws::{
    after_all_writes_is_late, clashes_must, holds, names_are_not_enough, none_is_open,
    of_all_programs, serial,
};
pub use scanning::{Block, serial_blocks};
