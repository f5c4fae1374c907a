// A transaction's own writes, as they lie over the globals.
//
// They are kept as what they leave: the texts that were given and still stand, as a store, and the names that went, as another. A name has the
// text that was given to it last; else none where it went, or one above it; else the one that it has in the globals. So a read need not look at
// each of the writes before it.

ghost use Rattle.std.specs.Prelude.{◌≡◌, ◌++◌, ◌∷◌, [], not, nat_eq, IfOk, OnOk, OnErr, T};
ghost use Rattle.std.specs.FinMap.{is_sorted};
ghost use Rattle.std.specs.Option.{is_some};
ghost use Rattle.mj_subs.specs.Collation.{name_cmp};
ghost use Rattle.mj_store.specs.Questions.{value_at, data_at};
ghost use Rattle.mj_txlog.specs.Accesses.{Accesses};
ghost use Rattle.mj_txlog.specs.Laid.{went, laid_after, laid_more, text_over, is_clear, IsLaid, says_here, says_below, data_either};

use crate::entry::Entry;
use crate::names::cut_to;
use mj_globs::Texts;
use mj_store::{Access, Store};
use mj_subs::Name;
use mj_text::{Failure, Fault, Text};
use std::alloc::{AllocError, Global};
use std::marker::Model;

/// A transaction's own writes.
#[derive(Drop)]
pub struct Overlay {
    alloc: Global,
    over: Texts,
    // whether a name may have gone
    kills: bool,
    gone: Texts,
}

impl Model for Overlay {
    ghost use Rattle.std.specs.Prelude.{◌≡◌, [], false};
    ghost use Rattle.mj_txlog.specs.Laid.{Laid};

    ghost Value = { Laid };

    ghost view = { λ o. record { over = o.over; gone = o.gone } };

    ghost invariant = { λ o. o.kills ≡ false → o.gone ≡ [] };
}

impl Overlay {
    /// No writes.
    #[tactic(auto, using(crate::proofs::Laid::none_laid))]
    pub fn new(alloc: Global) -> Overlay
        ensures value { result ≡ record { over = []; gone = [] } }
        ensures laid { IsLaid result [] }
    {
        Overlay {
            alloc,
            over: Texts::new(alloc),
            kills: false,
            gone: Texts::new(alloc),
        }
    }

    /// Makes the write that an entry is, if it is one that isn't refused.
    pub fn add(&mut self, entry: &Entry) -> Result<(), AllocError>
        ensures ok { OnOk result (self.new ≡ laid_more self.old entry.now) }
        ensures laid { OnOk result ((accesses : Accesses) → IsLaid self.old accesses → IsLaid self.new (accesses ++ entry.now ∷ [])) }
        ensures err { OnErr result (self.new ≡ self.old) }
    {
        match entry {
            Entry::Access(access, _) => self.make(access),
            Entry::Unlock(_) => Ok(()),
        }
    }

    // Makes an access, if it is a write that isn't refused.
    pub(crate) fn make(&mut self, access: &Access) -> Result<(), AllocError>
        ensures ok { OnOk result (self.new ≡ laid_after access.now self.old) }
        ensures err { OnErr result (self.new ≡ self.old) }
    {
        match access {
            Access::Set(name, text) => self.over.set(name.get(), text),
            Access::Kill(name) => {
                self.gone.set(name.get(), &Text::new(self.alloc))?;
                self.kills = true;
                self.over.kill(name.get());
                Ok(())
            }
            Access::Put(name, nodes) => match self.over.put(name.get(), nodes) {
                Ok(()) | Err(Failure::Fault(Fault::Limit)) => Ok(()),
                Err(_) => Err(AllocError),
            },
            Access::Value(_)
            | Access::Data(_)
            | Access::Order(_, _)
            | Access::Query(_)
            | Access::Subtree(_) => Ok(()),
        }
    }

    // What was given and still stands.
    pub(crate) fn over(&self) -> &Texts
        ensures which { result.now ≡ self.now.over }
        ensures rises { T (is_sorted name_cmp self.now.over) }
    {
        self.over.rises();
        &self.over
    }

    // Whether the name went, or one above it.
    pub(crate) fn went(&self, name: &Name) -> Result<bool, AllocError>
        ensures { IfOk result (λ b. b ≡ went self.now.gone name.now) }
    {
        // most transactions kill nothing
        if !self.kills {
            return Ok(false);
        }
        let list = name.subscripts().as_slice();
        for count in 0..list.len() + 1 {
            let front = cut_to(self.alloc, name, &list[..count])?;
            if self.gone.value(&front).is_some() {
                return Ok(true);
            }
        }
        Ok(false)
    }

    // Whether no write gave the name a text or took it, nor one below it.
    pub(crate) fn is_clear(&self, name: &Name) -> bool
        ensures { result ≡ is_clear self.now name.now }
    {
        self.over.data(name) == 0 && self.gone.data(name) == 0
    }

    // Whether the name or one below it went.
    pub(crate) fn is_any_gone(&self, name: &Name) -> bool
        ensures { result ≡ not (nat_eq (data_at self.now.gone name.now) 0) }
    {
        self.gone.data(name) != 0
    }

    // Whether a name has a text over the globals.
    pub(crate) fn is_text(&self, globals: &Texts, name: &Name) -> Result<bool, AllocError>
        ensures { IfOk result (λ b. b ≡ is_some (text_over self.now name.now (value_at globals.now name.now))) }
    {
        if self.over.value(name).is_some() {
            return Ok(true);
        }
        if globals.value(name).is_none() {
            return Ok(false);
        }
        Ok(!self.went(name)?)
    }

    // The text of a name over the globals.
    pub(crate) fn text(&self, globals: &Texts, name: &Name) -> Result<Option<Text>, AllocError>
        ensures { IfOk result (λ t. t ≡ text_over self.now name.now (value_at globals.now name.now)) }
    {
        if let Some(text) = self.over.value(name) {
            return Ok(Some(text.try_clone()?));
        }
        if self.went(name)? {
            return Ok(None);
        }
        Ok(match globals.value(name) {
            None => None,
            Some(text) => Some(text.try_clone()?),
        })
    }
}

// `$DATA` of a name that has texts of two stores.
pub(crate) fn data_either(one: u8, other: u8) -> u8
    ensures { result ≡ data_either one other }
{
    let mut data = 0;
    if says_here(one) || says_here(other) {
        data += 1;
    }
    if says_below(one) || says_below(other) {
        data += 10;
    }
    data
}

// Whether it says that a text stands at the name.
fn says_here(digits: u8) -> bool
    ensures { result ≡ says_here digits }
{
    digits == 1 || digits == 11
}

// Whether it says that one stands below it.
fn says_below(digits: u8) -> bool
    ensures { result ≡ says_below digits }
{
    digits == 10 || digits == 11
}
