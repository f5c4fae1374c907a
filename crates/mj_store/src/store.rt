// What every store offers.

ghost use Rattle.std.specs.Prelude.{◌≡◌, ◌↔◌, if◌then◌else◌, IfOk, IfErr, IsTrue, OnOk, OnErr, option_copied, T};
ghost use Rattle.std.specs.FinMap.{is_sorted};
ghost use Rattle.mj_subs.specs.Collation.{name_cmp};
ghost use Rattle.mj_store.specs.Questions.{Content, value_at, data_at, order_at, query_at, subtree_at};
ghost use Rattle.mj_store.specs.Changes.{after_set, after_kill, after_put, is_too_deep};
ghost use Rattle.mj_text.specs.declared.fault.Failure.TheVariants as failure;
ghost use Rattle.mj_text.specs.declared.fault.Fault.TheVariants as fault;

use crate::nodes::Nodes;
use mj_subs::{Name, SUBSCRIPTS_LIMIT, Sub, Subs};
use mj_text::{Failure, Text};
use std::alloc::AllocError;

/// Which way an order is walked.
#[derive(Clone, Copy, PartialEq, Eq, Debug)]
pub enum Direction {
    /// to greater subscripts
    Forward,
    /// to lesser ones
    Backward,
}

/// A finite map from names to texts.
pub trait Store {
    /// Its names in their order, each with its text.
    ghost contents: { Self → Content };

    /// Says that the names rise, so that each stands once.
    fn rises(&self)
        ensures { T (is_sorted name_cmp (contents self.now)) };

    /// The text of a name.
    fn value(&self, name: &Name) -> Option<&Text>
        ensures { option_copied result ≡ value_at (contents self.now) name.now };

    /// 0, 1, 10 or 11: the ones digit for a text at the name, the tens digit for one below it.
    fn data(&self, name: &Name) -> u8
        ensures { result ≡ data_at (contents self.now) name.now };

    /// The next subscript in place of the name's last one. From the empty subscript it is the first in that direction. There is none at
    /// the end, and for a name without subscripts.
    fn order(&self, name: &Name, direction: Direction) -> Option<&Sub>
        ensures { option_copied result ≡ order_at (contents self.now) name.now direction };

    /// The next name of that kind and word that has a text.
    fn query(&self, name: &Name) -> Result<Option<Name>, AllocError>
        ensures { IfOk result (λ next. next ≡ query_at (contents self.now) name.now) };

    /// What stands at the name and below it, in order.
    fn subtree(&self, name: &Name) -> Result<Nodes, AllocError>
        ensures { IfOk result (λ nodes. nodes ≡ subtree_at (contents self.now) name.now) };

    /// Gives the name this text.
    fn set(&mut self, name: &Name, text: &Text) -> Result<(), AllocError>
        ensures ok { OnOk result (contents self.new ≡ after_set (contents self.old) name.now text.now) }
        ensures err { OnErr result (contents self.new ≡ contents self.old) };

    /// Takes the name and every name below it out.
    fn kill(&mut self, name: &Name)
        ensures { contents self.new ≡ after_kill (contents self.old) name.now };

    /// Gives the name followed by each list of subscripts that list's text. Nothing is taken out. `Limit` where that gives a name too many
    /// subscripts, and otherwise nothing but memory can be wanting.
    fn put(&mut self, name: &Name, nodes: &Nodes) -> Result<(), Failure>
        ensures ok { OnOk result (contents self.new ≡ after_put (contents self.old) name.now nodes.now) }
        ensures limit { (result ≡ Err (failure.Fault fault.Limit)) ↔ IsTrue (is_too_deep name.now nodes.now) }
        ensures error { IfErr result (λ e. e ≡ (if is_too_deep name.now nodes.now then failure.Fault fault.Limit else failure.Memory)) }
        ensures err { OnErr result (contents self.new ≡ contents self.old) };
}

/// Whether a list would follow the name with more subscripts than a name can have.
pub fn is_too_deep(name: &Name, nodes: &[(Subs, Text)]) -> bool
    ensures { result ≡ is_too_deep name.now nodes.now }
{
    let above = name.subscripts().len();
    nodes
        .iter()
        .any(|node| SUBSCRIPTS_LIMIT < above + node.0.len())
}
