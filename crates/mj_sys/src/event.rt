// Events of a history.

use mj_ask::{Ask, Reply};

/// A job asked, and was told.
#[derive(Drop)]
pub struct Event {
    pub job: u32,
    pub ask: Ask,
    pub reply: Reply,
}
