// Listings of globals: a text of lines, one for each name that has a text, by which globals come in and go out.
//
// There are two versions, which differ in the first line and in how long texts may be. There is one listing of each version for each set of globals,
// `listing_of` of `specs/Spelling.antt`: `write` gives that of version 2, `write_to` writes it part by part, and `read` reads both back. What else it is
// given it refuses, by the first line that is none: `IsListingRefused` of `specs/Refused.antt` says so by the spelling alone, and `reading_of` of
// `specs/Listing.antt` as it is read. The fields of a line, names and texts in listing quotes, are read and written by calls of their own.
#![tactic(auto)]

mod error;
mod field;
mod laws;
mod line;
mod name;
mod quoted;
mod reading;
mod saving;
mod writing;

pub use error::ReadError;
pub use field::Field;
pub use laws::{one_reason, one_spelling, reads_back};
pub use line::split_line;
pub use name::{read_name, read_subscript, read_subscripts};
pub use quoted::read_text;
pub use reading::read;
pub use saving::{write, write_to};
pub use writing::{put_name, put_nodes, put_subscript, put_subscripts, put_text};

// The first line of the listings that are written, without its byte 10, and that of those that were written when texts had 32,767 bytes at most.
const HEADER: &[u8] = b"mj-globals 2";

const OLD_HEADER: &[u8] = b"mj-globals 1";
