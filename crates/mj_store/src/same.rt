// Answers, compared.

ghost use Rattle.std.specs.Prelude.{◌≡◌, ◌↔◌, IsTrue};

use crate::access::Answer;
use mj_subs::{Name, Subs};
use mj_text::Text;

/// Whether the answers are the same.
pub fn is_same_answer(one: &Answer, other: &Answer) -> bool
    ensures { IsTrue result ↔ (one.now ≡ other.now) }
{
    match (one, other) {
        (Answer::Value(a), Answer::Value(b)) => a == b,
        (Answer::Data(a), Answer::Data(b)) => a == b,
        (Answer::Order(a), Answer::Order(b)) => a == b,
        (Answer::Query(None), Answer::Query(None)) => true,
        (Answer::Query(Some(a)), Answer::Query(Some(b))) => is_same_name(a.get(), b.get()),
        (Answer::Subtree(a), Answer::Subtree(b)) => are_same_nodes(a.as_slice(), b.as_slice()),
        (Answer::Done, Answer::Done) | (Answer::Limit, Answer::Limit) => true,
        _ => false,
    }
}

/// Whether the nodes are the same.
pub fn are_same_nodes(one: &[(Subs, Text)], other: &[(Subs, Text)]) -> bool
    ensures { IsTrue result ↔ (one.now ≡ other.now) }
{
    if one.len() != other.len() {
        return false;
    }
    for (i, node) in one.iter().enumerate() {
        if !is_same_node(node, &other[i]) {
            return false;
        }
    }
    true
}

// Whether the two nodes are the same.
fn is_same_node(one: &(Subs, Text), other: &(Subs, Text)) -> bool
    ensures { IsTrue result ↔ (one.now ≡ other.now) }
{
    one.0 == other.0 && one.1 == other.1
}

// Whether the names are the same.
fn is_same_name(one: &Name, other: &Name) -> bool
    ensures { IsTrue result ↔ (one.now ≡ other.now) }
{
    one == other
}
