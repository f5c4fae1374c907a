// Events as they are written down.

use crate::ask::{Ask, Reply};
use mj_text::Text;

/// A line of a routine. The first is line 1.
#[derive(Drop)]
pub struct Spot {
    pub routine: Text,
    pub line: u32,
}

/// What a job asked and was told, as it is written down: with the job's number, and the line of the command that asked, where one did.
#[derive(Drop)]
pub struct Noted {
    pub job: u32,
    pub spot: Option<Spot>,
    pub ask: Ask,
    pub reply: Reply,
}
