// Which asks and parts of replies hold what can be written, each in one way.

ghost use Rattle.std.specs.Prelude.{◌≡◌, true};
ghost use Rattle.std.specs.List.{list_all};
ghost use Rattle.std.specs.FinMap.{is_sorted};
ghost use Rattle.mj_subs.specs.Name.{is_word};
ghost use Rattle.mj_subs.specs.Collation.{subscripts_cmp};
ghost use Rattle.mj_ask.specs.Formed.{is_filled, are_filled, are_filled_before_last, is_name, is_global_name, is_search_name, is_subtree, starts_after};
ghost use Rattle.mj_ask.specs.Formed.{is_access, are_names, is_ask, is_shared_ask, is_kept, is_clash, is_answer, is_reply};
ghost use Rattle.mj_ask.specs.Fitting.{IsAnswered, IsServed};

use crate::ask::{Ask, Reply, SharedAsk};
use crate::clash::{Clash, Kept};
use crate::entry::Entry;
use mj_store::{Access, Answer, Nodes};
use mj_subs::{Name, Sub, Subs, is_word};
use mj_text::{Digits, Text};

/// Whether the subscript has a byte.
pub fn is_filled(sub: &Sub) -> bool
    ensures { result ≡ is_filled sub.now }
{
    !sub.is_empty()
}

fn are_filled(subs: &[Sub]) -> bool
    ensures { result ≡ are_filled subs.now }
{
    subs.iter().all(|sub| is_filled(sub))
}

fn are_filled_before_last(subs: &[Sub]) -> bool
    ensures { result ≡ are_filled_before_last subs.now }
{
    match subs {
        [] => true,
        [first, rest @ ..] => match rest {
            [] => true,
            [_, ..] => is_filled(first) && are_filled_before_last(rest),
        },
    }
}

fn is_text_of_word(text: &Text) -> bool
    ensures { result ≡ is_word text.now }
{
    is_word(text.bytes(&mut Digits::new()))
}

/// Whether it is a name: its word is one, and each subscript has a byte.
pub fn is_name(name: &Name) -> bool
    ensures { result ≡ is_name name.now }
{
    is_text_of_word(name.word()) && are_filled(name.subscripts().as_slice())
}

/// Whether it is the name of a global.
pub fn is_global_name(name: &Name) -> bool
    ensures { result ≡ is_global_name name.now }
{
    name.is_global() && is_name(name)
}

/// Whether it is the name of a global at which a search begins: its last subscript may be empty.
pub fn is_search_name(name: &Name) -> bool
    ensures { result ≡ is_search_name name.now }
{
    name.is_global()
        && is_text_of_word(name.word())
        && are_filled_before_last(name.subscripts().as_slice())
}

/// Whether the nodes are formed: their lists of subscripts rise, and each subscript has a byte.
pub fn is_subtree(nodes: &Nodes) -> bool
    ensures { result ≡ is_subtree nodes.now }
{
    let nodes = nodes.as_slice();
    rise(nodes) && are_nodes_filled(nodes)
}

fn are_nodes_filled(nodes: &[(Subs, Text)]) -> bool
    ensures { result ≡ list_all (λ e. are_filled e.0) nodes.now }
{
    nodes.iter().all(|node| are_filled(node.0.as_slice()))
}

// Whether the lists of subscripts rise: each stands before the next.
#[tactic(auto, using(crate::proofs::Rising::rise_step))]
fn rise(nodes: &[(Subs, Text)]) -> bool
    ensures { result ≡ is_sorted subscripts_cmp nodes.now }
{
    let mut rest = nodes;
    while let Some((first, tail)) = rest.split_first() {
        if !starts_after(&first.0, tail) {
            return false;
        }
        rest = tail;
    }
    true
}

fn starts_after(subs: &Subs, nodes: &[(Subs, Text)]) -> bool
    ensures { result ≡ starts_after subs.now nodes.now }
{
    match nodes {
        [] => true,
        [first, ..] => subs.cmp(&first.0).is_lt(),
    }
}

/// Whether the access can be written: it is to a global, and the empty subscript is one to search from alone. Whatever it is answered on a
/// content fits it; and one that can be written is answered on a content of globals what can be written too.
pub fn is_access(access: &Access) -> bool
    ensures value { result ≡ is_access access.now }
    ensures answered { IsAnswered access.now }
    ensures served { result ≡ true → IsServed access.now }
{
    is_to_global(access)
}

fn is_to_global(access: &Access) -> bool
    ensures { result ≡ is_access access.now }
{
    match access {
        Access::Order(name, _) | Access::Query(name) => is_search_name(name.get()),
        Access::Put(name, nodes) => is_global_name(name.get()) && is_subtree(nodes),
        Access::Value(name)
        | Access::Data(name)
        | Access::Subtree(name)
        | Access::Set(name, _)
        | Access::Kill(name) => is_global_name(name.get()),
    }
}

fn are_names(names: &[Name]) -> bool
    ensures { result ≡ are_names names.now }
{
    0 < names.len() && are_all_names(names)
}

fn are_all_names(names: &[Name]) -> bool
    ensures { result ≡ list_all is_name names.now }
{
    names.iter().all(|name| is_name(name))
}

/// Whether the ask can be written.
pub fn is_ask(ask: &Ask) -> bool
    ensures { result ≡ is_ask ask.now }
{
    match ask {
        Ask::Shared(ask) => is_shared_ask(ask),
        Ask::Device(_, _) | Ask::Rest(_) => true,
    }
}

fn is_shared_ask(ask: &SharedAsk) -> bool
    ensures { result ≡ is_shared_ask ask.now }
{
    match ask {
        SharedAsk::Access(access) => is_access(access),
        SharedAsk::Try(names, _) | SharedAsk::Unlock(names) => are_names(names.as_slice()),
        SharedAsk::Start(start, _) => start.get().entry().is_entry(),
        _ => true,
    }
}

fn is_kept(kept: &Kept) -> bool
    ensures { result ≡ is_kept kept.now }
{
    match kept {
        Kept::Name(name) => is_global_name(name.get()),
        Kept::Subtree(nodes) => is_subtree(nodes),
        Kept::Nothing | Kept::Text(_) | Kept::Number(_) => true,
    }
}

/// Whether the clash can be written: accesses are numbered from 1.
pub fn is_clash(clash: &Clash) -> bool
    ensures { result ≡ is_clash clash.entry.now }
{
    0 < clash.place && is_kept(&clash.then) && is_kept(&clash.now)
}

/// Whether the reply can be written: a subscript isn't empty, a name is that of a global, nodes are in order.
pub fn is_reply(reply: &Reply) -> bool
    ensures { result ≡ is_reply reply.now }
{
    match reply {
        Reply::Answer(answer) => is_answer(answer),
        Reply::Clash(clash) => is_clash(clash.get()),
        _ => true,
    }
}

fn is_answer(answer: &Answer) -> bool
    ensures { result ≡ is_answer answer.now }
{
    match answer {
        Answer::Order(Some(next)) => is_filled(next),
        Answer::Query(Some(name)) => is_global_name(name.get()),
        Answer::Subtree(nodes) => is_subtree(nodes),
        _ => true,
    }
}
