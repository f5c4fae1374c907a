// Where code is made.

use mj_text::Text;
use std::alloc::Global;

/// The line that instructions are made for: its routine's name and its number.
#[derive(Clone, Copy)]
pub struct Site<'r> {
    pub alloc: Global,
    pub routine: &'r Text,
    pub line: u32,
}
