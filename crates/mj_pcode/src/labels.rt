// The labels of a unit.

ghost use Rattle.std.specs.Prelude.{◌≡◌, ◌<◌, [], OnOk, OnErr};
ghost use Rattle.mj_pcode.specs.Labels.{line_with, with_label};

use mj_text::{Digits, Text};
use std::alloc::{AllocError, Global};
use std::collections::BTreeMap;
use std::marker::Model;

/// How many hints there are.
const HINTS: usize = 256;

// A label, and the number of its line.
type Row = (Text, u32);

/// Labels in the order of their bytes, each with the number of its line.
#[derive(Drop)]
pub struct Labels {
    lines: BTreeMap<Vec<u8>, u32>,
    // the same in the order in which they came
    rows: Vec<Row>,
    // where a label may have its row
    hints: [u16; HINTS],
}

impl Model for Labels {
    ghost use Rattle.mj_pcode.specs.Labels.{Labels as Seen, spelled};
    ghost use Rattle.mj_pcode.specs.Rows.{AreRows};

    ghost Value = { Seen };

    ghost view = { λ l. spelled l.lines.entries };

    ghost invariant = { λ l. AreRows (spelled l.lines.entries) l.rows.items };
}

impl Labels {
    /// No label.
    pub fn new(alloc: Global) -> Labels
        ensures { result ≡ [] }
    {
        Labels {
            lines: BTreeMap::new(alloc),
            rows: Vec::new(alloc),
            hints: [0; HINTS],
        }
    }

    /// One more label. One that stands here already keeps its line.
    pub fn add(&mut self, alloc: Global, label: &Text, line: u32) -> Result<(), AllocError>
        ensures ok { OnOk result (self.new ≡ with_label self.old label.now line) }
        ensures err { OnErr result (self.new ≡ self.old) }
    {
        let mut digits = Digits::new();
        let key = label.bytes(&mut digits);
        if self.lines.contains_key(key) {
            return Ok(());
        }
        let row = (label.try_clone()?, line);
        self.rows.reserve(1)?;
        let place = self.rows.len();
        self.lines.insert(Vec::from_slice(alloc, key)?, line)?;
        self.rows.push_reserved(row);
        aim(&mut self.hints, label, place);
        Ok(())
    }

    /// The number of the line with this label, if there is one.
    pub fn line(&self, label: &Text) -> Option<u32>
        ensures { result ≡ line_with label.now self.now }
    {
        let hinted = usize::from(self.hints[slot(label)]);
        if let Some(row) = self.rows.get(hinted) {
            if row.0 == *label {
                return Some(row.1);
            }
        }
        self.search(label)
    }

    // Finds the line of a label for which no hint serves.
    #[inline(never)]
    fn search(&self, label: &Text) -> Option<u32>
        ensures { result ≡ line_with label.now self.now }
    {
        let mut digits = Digits::new();
        self.lines.get(label.bytes(&mut digits)).copied()
    }
}

// A hint leads to the row of a label from now on, where it can.
fn aim(hints: &mut [u16; HINTS], label: &Text, place: usize) {
    if let Ok(hint) = u16::try_from(place) {
        hints[slot(label)] = hint;
    }
}

// Which hint serves a label. Those of one byte have one each, and labels of one length that begin alike and differ in one of their last two
// bytes, as in a digit, have different ones.
fn slot(label: &Text) -> usize
    ensures { result < HINTS }
{
    let Some(bytes) = label.spelled() else {
        return 0;
    };
    match bytes {
        [] => 0,
        [only] => usize::from(*only),
        [first, last] => (33 * usize::from(*first) + 3 * usize::from(*last)) % HINTS,
        [first, .., before, last] => {
            let ends = 31 * usize::from(*before) + 3 * usize::from(*last);
            (2 * usize::from(*first) + ends + bytes.len()) % HINTS
        }
    }
}
