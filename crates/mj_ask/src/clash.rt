// Why a commit isn't done.

ghost use Rattle.std.specs.Prelude.{◌≡◌, IfOk, pos};
ghost use Rattle.mj_ask.specs.declared.clash.Kept.TheVariants as kepts;
ghost use Rattle.mj_ask.specs.Keeping.{kept_subscript, kept_of, KeepsAnswer};

use mj_num::Num;
use mj_store::{Answer, Nodes};
use mj_subs::{SharedName, Sub};
use mj_text::Text;
use std::alloc::{AllocError, Global};
use std::marker::Model;

/// The answer to a question, as a clash keeps it: it is forgotten what was asked.
#[derive(Drop)]
pub enum Kept {
    /// there was nothing
    Nothing,
    /// a text, or a subscript that is no canonic number
    Text(Text),
    /// a number of `$DATA`, or a subscript that is a canonic number
    Number(Num),
    /// the name of a global
    Name(SharedName),
    /// nodes
    Subtree(Nodes),
}

impl Kept {
    /// What is kept of an answer. It tells the answers to one question apart.
    pub fn of(answer: Answer) -> Kept
        ensures value { result ≡ kept_of answer }
        ensures kept { KeepsAnswer answer result }
    {
        Kept::made(answer)
    }

    fn made(answer: Answer) -> Kept
        ensures { result ≡ kept_of answer }
    {
        match answer {
            Answer::Value(Some(text)) => Kept::Text(text),
            Answer::Data(data) => Kept::number(data),
            Answer::Order(Some(next)) => Kept::subscript(next),
            Answer::Query(Some(name)) => Kept::Name(name),
            Answer::Subtree(nodes) => Kept::Subtree(nodes),
            Answer::Value(None)
            | Answer::Order(None)
            | Answer::Query(None)
            | Answer::Done
            | Answer::Limit => Kept::Nothing,
        }
    }

    fn number(number: u8) -> Kept
        ensures { result ≡ kepts.Number (pos number) }
    {
        match Num::new(i64::from(number)) {
            Ok(number) => Kept::Number(number),
            // a byte is within the range of numbers
            Err(_) => unreachable!(),
        }
    }

    fn subscript(sub: Sub) -> Kept
        ensures { result ≡ kept_subscript sub }
    {
        match sub.number() {
            Some(number) => Kept::Number(number),
            None => Kept::Text(sub.to_text()),
        }
    }

    /// A copy of it.
    pub fn try_clone(&self) -> Result<Kept, AllocError>
        ensures { IfOk result (λ kept. kept ≡ self.now) }
    {
        Ok(match self {
            Kept::Nothing => Kept::Nothing,
            Kept::Text(text) => Kept::Text(text.try_clone()?),
            Kept::Number(number) => Kept::Number(*number),
            Kept::Name(name) => Kept::Name(name.try_clone()?),
            Kept::Subtree(nodes) => Kept::Subtree(nodes.try_clone()?),
        })
    }
}

/// The least access of a transaction that is answered otherwise by now.
#[derive(Drop)]
pub struct Clash {
    /// which access it is, from 1
    pub place: u32,
    /// what it was answered
    pub then: Kept,
    /// what it would be answered now
    pub now: Kept,
}

impl Clash {
    /// A copy of it.
    pub fn try_clone(&self) -> Result<Clash, AllocError>
        ensures { IfOk result (λ clash. clash ≡ self.entry.now) }
    {
        Ok(Clash {
            place: self.place,
            then: self.then.try_clone()?,
            now: self.now.try_clone()?,
        })
    }
}

/// A clash behind a pointer, so that a reply is small. A contract sees the clash.
#[derive(Drop)]
pub struct BoxedClash {
    kept: Box<Clash>,
}

impl Model for BoxedClash {
    ghost use Rattle.mj_ask.specs.declared.clash.Clash.{Clash as Seen};

    ghost Value = { Seen };

    ghost view = { λ b. b.kept.value };
}

impl BoxedClash {
    /// The clash behind a pointer.
    pub fn new(alloc: Global, clash: Clash) -> Result<BoxedClash, AllocError>
        ensures { IfOk result (λ boxed. boxed ≡ clash) }
    {
        Ok(BoxedClash {
            kept: Box::new(alloc, clash)?,
        })
    }

    /// The clash.
    pub fn get(&self) -> &Clash
        ensures { result.now ≡ self.entry.now }
    {
        &self.kept
    }

    /// A copy of it.
    pub fn try_clone(&self) -> Result<BoxedClash, AllocError>
        ensures { IfOk result (λ boxed. boxed ≡ self.entry.now) }
    {
        let alloc = *Box::allocator(&self.kept);
        BoxedClash::new(alloc, self.kept.try_clone()?)
    }
}
