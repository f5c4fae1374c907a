// What a run begins with, by the words of the command line and the bytes of files.
//
// `begin` reads the steps, the routines, the globals and standard input, makes the devices and the starts of the first jobs, and sees that what will be
// written goes to no file that is read (`apart.rt`). What comes of it is what the words ask for (`WereGiven` of `specs/Words.antt`). A routine's name is that
// of its file (`specs/Names.antt`). What a run leaves goes to files by `save`, `write_trace` and `write_record`. Where a run can't begin, `refused` says why,
// and where hints are wanted, which file, line or option it is. `put_devices` has what the system says of the files of devices (`probing.rt`).
#![tactic(auto)]

mod apart;
mod beginning;
mod files;
mod listings;
mod probing;
mod refusing;
mod routines;
mod traces;

pub use apart::{migrated_apart, page_apart, written_besides};
pub use beginning::{Beginning, Begun, Outlet, begin};
pub use files::{file_bytes, routine_bytes, routine_name};
pub use listings::{listed, save};
pub use probing::put_devices;
pub use refusing::{refused, refused_files, refused_record};
pub use routines::loaded;
pub use traces::{write_record, write_trace};
