// Copies of locals, to which a restart goes back.

ghost use Rattle.std.specs.Prelude.{◌≡◌, ℕ, IfOk, OnOk, List, true, false};
ghost use Rattle.mj_locals.specs.Hiding.{Grows};
ghost use Rattle.mj_locals.specs.Snapshots.{HaveRoom, copied, all_put_back};
ghost use Rattle.mj_locals.specs.Trees.{at, AreTrees};

use crate::table::{Row, Table};
use mj_text::Text;
use std::alloc::{AllocError, Global};
use std::marker::Model;

/// Copies of the trees of some words, or of all words.
#[derive(Drop)]
pub struct Snapshot {
    // whether a word that isn't among them had no node
    all: bool,
    rows: Vec<Row>,
}

impl Model for Snapshot {
    ghost use Rattle.mj_locals.specs.Snapshots.{Copies};
    ghost use Rattle.mj_locals.specs.Trees.{AreTrees};

    ghost Value = { Copies };

    ghost view = { λ a. (a.all, a.rows.items) };

    ghost invariant = { λ a. AreTrees a.rows.items };
}

impl Snapshot {
    /// The trees of these words.
    pub(crate) fn of_words(table: &Table, words: &[Text]) -> Result<Snapshot, AllocError>
        ensures { IfOk result (λ s. s ≡ (false, copied words.now table.now)) }
    {
        table.rises();
        let rows = table.copied_words(words)?;
        Ok(Snapshot { all: false, rows })
    }

    /// The trees of all words.
    pub(crate) fn of_all(table: &Table) -> Result<Snapshot, AllocError>
        ensures { IfOk result (λ s. s ≡ (true, table.now)) }
    {
        table.rises();
        let rows = table.copied()?;
        Ok(Snapshot { all: true, rows })
    }

    /// In each tree the subscripts rise.
    pub(crate) fn rises(&self)
        ensures { AreTrees self.now.1 }
    {
        let _rows = &self.rows; // for the proof
    }

    /// A copy of it.
    pub fn try_clone(&self, alloc: Global) -> Result<Snapshot, AllocError>
        ensures { IfOk result (λ s. s ≡ self.now) }
    {
        let mut rows = Vec::with_capacity(alloc, self.rows.len())?;
        for row in &self.rows {
            rows.push((row.0.try_clone()?, row.1.try_clone()?))?;
        }
        Ok(Snapshot {
            all: self.all,
            rows,
        })
    }

    /// Each of its words has a row from now on, also where that fails half-way.
    pub(crate) fn make_room(&self, table: &mut Table) -> Result<(), AllocError>
        ensures room { OnOk result (HaveRoom table.new self.now.1) }
        ensures grows { Grows table.old table.new }
        ensures same { (v : List ℕ) → at table.new v ≡ at table.old v }
    {
        for row in &self.rows {
            table.make_room(&row.0)?;
        }
        Ok(())
    }

    /// The trees are put to their words, where those have rows. It takes no memory.
    pub(crate) fn put(self, table: &mut Table)
        ensures { table.new ≡ all_put_back self table.old }
    {
        let mut rows = self.rows;
        if self.all {
            table.spare(&[]);
        }
        while let Some((word, tree)) = rows.pop() {
            table.assign_tree(&word, tree);
        }
    }
}
