// Which asks and replies keep to a limit of texts.

ghost use Rattle.std.specs.Prelude.{◌≡◌};
ghost use Rattle.std.specs.List.{list_all};
ghost use Rattle.mj_ask.specs.Within.{is_answer_within, is_kept_within, are_texts_within, is_reply_within, is_any_within};
ghost use Rattle.mj_ask.specs.Within.{is_name_within, is_put_within, is_shared_within, is_device_within, are_asked_within, is_ask_within};

use crate::ask::{Ask, DeviceAsk, Reply, SharedAsk};
use crate::clash::Kept;
use mj_store::{Access, Answer};
use mj_subs::Name;
use mj_text::{Limit, Text};

impl Reply {
    /// Whether each of its texts and of its subscripts is one of this limit, so that a job of a program with this limit may be told it. For the greater
    /// limit nothing is looked at.
    pub fn is_within(&self, limit: Limit) -> bool
        ensures { result ≡ is_reply_within limit self.now }
    {
        match limit {
            Limit::V1 => self.are_texts_within(Limit::V1),
            Limit::V2 => true,
        }
    }

    fn are_texts_within(&self, limit: Limit) -> bool
        ensures { result ≡ are_texts_within limit self.now }
    {
        match self {
            Reply::Answer(answer) => is_answer_within(answer, limit),
            Reply::Line(text) => text.is_within(limit),
            Reply::Clash(clash) => {
                let clash = clash.get();
                is_kept_within(&clash.then, limit) && is_kept_within(&clash.now, limit)
            }
            _ => true,
        }
    }
}

fn is_answer_within(answer: &Answer, limit: Limit) -> bool
    ensures { result ≡ is_answer_within limit answer.now }
{
    match answer {
        Answer::Value(Some(text)) => text.is_within(limit),
        Answer::Order(Some(next)) => next.is_within(limit),
        Answer::Query(Some(name)) => is_name_within(name.get(), limit),
        Answer::Subtree(nodes) => nodes.are_within(limit),
        _ => true,
    }
}

fn is_kept_within(kept: &Kept, limit: Limit) -> bool
    ensures { result ≡ is_kept_within limit kept.now }
{
    match kept {
        Kept::Text(text) => text.is_within(limit),
        Kept::Name(name) => is_name_within(name.get(), limit),
        Kept::Subtree(nodes) => nodes.are_within(limit),
        Kept::Nothing | Kept::Number(_) => true,
    }
}

impl Ask {
    /// Whether each of its texts and of its subscripts is one of this limit. For the greater limit nothing is looked at.
    pub fn is_within(&self, limit: Limit) -> bool
        ensures { result ≡ is_ask_within limit self.now }
    {
        match limit {
            Limit::V1 => self.are_asked_within(Limit::V1),
            Limit::V2 => true,
        }
    }

    fn are_asked_within(&self, limit: Limit) -> bool
        ensures { result ≡ are_asked_within limit self.now }
    {
        match self {
            Ask::Shared(ask) => is_shared_within(ask, limit),
            Ask::Device(device, ask) => device.is_within(limit) && is_device_within(ask, limit),
            Ask::Rest(_) => true,
        }
    }
}

fn is_shared_within(ask: &SharedAsk, limit: Limit) -> bool
    ensures { result ≡ is_shared_within limit ask.now }
{
    match ask {
        SharedAsk::Access(access) => {
            is_name_within(access.name(), limit) && is_put_within(access, limit)
        }
        SharedAsk::Try(names, _) | SharedAsk::Unlock(names) => are_names_within(
            names.as_slice(),
            limit,
        ),
        SharedAsk::Open(device, _) | SharedAsk::Close(device) => device.is_within(limit),
        SharedAsk::Start(start, _) => are_values_within(start.get().values(), limit),
        _ => true,
    }
}

fn is_device_within(ask: &DeviceAsk, limit: Limit) -> bool
    ensures { result ≡ is_device_within limit ask.now }
{
    match ask {
        DeviceAsk::Write(bytes) => bytes.is_within(limit),
        _ => true,
    }
}

fn is_put_within(access: &Access, limit: Limit) -> bool
    ensures { result ≡ is_put_within limit access.now }
{
    match access {
        Access::Set(_, text) => text.is_within(limit),
        Access::Put(_, nodes) => nodes.are_within(limit),
        _ => true,
    }
}

fn is_name_within(name: &Name, limit: Limit) -> bool
    ensures { result ≡ is_name_within limit name.now }
{
    name.subscripts().are_within(limit)
}

fn are_names_within(names: &[Name], limit: Limit) -> bool
    ensures { result ≡ list_all (is_name_within limit) names.now }
{
    names.iter().all(|name| is_name_within(name, limit))
}

fn are_values_within(values: &[Option<Text>], limit: Limit) -> bool
    ensures { result ≡ list_all (is_any_within limit) values.now }
{
    values.iter().all(|value| is_any_within(value, limit))
}

fn is_any_within(value: &Option<Text>, limit: Limit) -> bool
    ensures { result ≡ is_any_within limit value.now }
{
    match value {
        None => true,
        Some(text) => text.is_within(limit),
    }
}
