// Devices of the program: the lines of some bytes or of a file, and a file that takes bytes.
//
// A port is one of three kinds. Its lines were given to it, as those of standard input are; or they are those of a file, which is read as a whole
// when the port begins; or what is written to it goes to a file, which is made then. It fails where the file system refuses a call, and at a line
// longer than a text; it keeps the contract of `mj_dev::Device` over any file system.
//
// A word names a device of a file (`read_device`), and a run's pool holds the principal devices and those that words name (`pool_of`). `whole`
// reads all bytes of a reader, `front` the first ones, and `file_bytes` and `file_front` those of a file.
#![tactic(auto)]

mod bytes;
mod devices;
mod port;
mod reading;

pub use bytes::{BYTES_LIMIT, Trouble, front, whole};
pub use devices::{Named, Side, pool_of, put, read_device};
pub use port::Port;
pub use reading::{file_bytes, file_front};
