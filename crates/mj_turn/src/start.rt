// How a job starts.

use mj_ask::Entry;
use mj_text::Text;

/// How a job starts: its number, the entry where it begins, and the values for the formals of that line, of which one that is left
/// out has none.
#[derive(Drop)]
pub struct Start {
    pub job: u32,
    pub entry: Entry,
    pub values: Vec<Option<Text>>,
}
