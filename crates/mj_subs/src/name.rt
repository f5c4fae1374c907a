// A name of a variable or of one of its nodes.

ghost use Rattle.std.specs.Prelude.{◌≡◌, ◌↔◌, ◌&&◌, [], true, false, IsTrue, IfOk};
ghost use Rattle.std.specs.Str.{bytes_eq};
ghost use Rattle.mj_subs.specs.Name.{kinds_eq, is_above, overlaps, IsAbove, Overlaps};

use crate::subs::Subs;
use mj_text::Text;
use std::alloc::{AllocError, Global};
use std::cmp::Ordering;
use std::default::MadeWith;
use std::marker::Model;

/// A name: global or local, a word, and a list of subscripts, which is empty where the variable itself is meant.
#[derive(Debug, Drop)]
pub struct Name {
    global: bool,
    word: Text,
    subscripts: Subs,
}

impl Model for Name {
    ghost use Rattle.mj_subs.specs.Name.{Name as Seen};

    ghost Value = { Seen };

    ghost view = { λ n. record { global = n.global; word = n.word; subscripts = n.subscripts } };
}

impl Name {
    /// The name of a global, or of a node of one.
    pub fn global(word: Text, subscripts: Subs) -> Name
        ensures { result ≡ record { global = true; word = word; subscripts = subscripts } }
    {
        Name {
            global: true,
            word,
            subscripts,
        }
    }

    /// The name of a local variable, or of a node of one.
    pub fn local(word: Text, subscripts: Subs) -> Name
        ensures { result ≡ record { global = false; word = word; subscripts = subscripts } }
    {
        Name {
            global: false,
            word,
            subscripts,
        }
    }

    /// Whether it is that of a global.
    pub fn is_global(&self) -> bool
        ensures { result ≡ self.now.global }
    {
        self.global
    }

    /// Its word, without the `^` of a global.
    pub fn word(&self) -> &Text
        ensures { result.now ≡ self.now.word }
    {
        &self.word
    }

    /// Its subscripts.
    pub fn subscripts(&self) -> &Subs
        ensures { result.now ≡ self.now.subscripts }
    {
        &self.subscripts
    }

    /// Its word and its subscripts.
    pub fn into_parts(self) -> (Text, Subs)
        ensures word { result.0 ≡ self.word }
        ensures subscripts { result.1 ≡ self.subscripts }
    {
        let Name {
            global: _,
            word,
            subscripts,
        } = self;
        (word, subscripts)
    }

    /// Whether it is above the other: of one kind and word, and its subscripts a proper front of the other's.
    pub fn above(&self, other: &Name) -> bool
        ensures value { result ≡ is_above self.now other.now }
        ensures meaning { IsTrue result ↔ IsAbove self.now other.now }
    {
        self.is_of_same_variable(other) && self.subscripts.is_front_of(&other.subscripts)
    }

    /// Whether the names are equal, or one is above the other.
    pub fn overlap(&self, other: &Name) -> bool
        ensures value { result ≡ overlaps self.now other.now }
        ensures meaning { IsTrue result ↔ Overlaps self.now other.now }
    {
        self.is_of_same_variable(other) && self.subscripts.is_in_line_with(&other.subscripts)
    }

    // Whether both are of one kind and word.
    fn is_of_same_variable(&self, other: &Name) -> bool
        ensures { result ≡ (kinds_eq self.now.global other.now.global && bytes_eq self.now.word other.now.word) }
    {
        self.global == other.global && self.word == other.word
    }

    /// A copy.
    pub fn try_clone(&self) -> Result<Name, AllocError>
        ensures { IfOk result (λ n. n ≡ self.now) }
    {
        Ok(Name {
            global: self.global,
            word: self.word.try_clone()?,
            subscripts: self.subscripts.try_clone()?,
        })
    }
}

impl Clone for Name {
    ghost is_clone = { λ n copy. copy ≡ n };

    fn clone(&self) -> Result<Name, AllocError> {
        self.try_clone()
    }
}

impl PartialEq for Name {
    ghost use Rattle.std.specs.Prelude.{◌≡◌, ◌↔◌, IsTrue};
    ghost use Rattle.std.specs.Cmp.{partial_equiv_from_equiv};
    ghost use Rattle.mj_subs.specs.Name.{names_eq};
    ghost use Rattle.mj_subs.specs.Laws.Ties.{names_eq_equiv};

    ghost eq = { names_eq };

    ghost laws = { partial_equiv_from_equiv names_eq_equiv };

    fn eq(&self, other: &Name) -> bool
        ensures value { result ≡ names_eq self.now other.now }
        ensures same { IsTrue result ↔ (self.now ≡ other.now) }
    {
        self.is_of_same_variable(other) && self.subscripts == other.subscripts
    }
}

impl Eq for Name {
    ghost use Rattle.mj_subs.specs.Laws.Ties.{names_eq_equiv};

    ghost laws = { names_eq_equiv };
}

impl PartialOrd for Name {
    ghost use Rattle.std.specs.Cmp.{po};
    ghost use Rattle.std.specs.Ordering.{as_partial_cmp};
    ghost use Rattle.mj_subs.specs.Collation.{name_cmp};
    ghost use Rattle.mj_subs.specs.Laws.Total.{name_cmp_total};
    ghost use Rattle.mj_subs.specs.Laws.Ties.{names_eq-name_cmp};

    ghost partial_cmp = { as_partial_cmp name_cmp };

    ghost laws = { po name_cmp_total names_eq-name_cmp };

    fn partial_cmp(&self, other: &Name) -> Option<Ordering> {
        Some(self.cmp(other))
    }
}

impl Ord for Name {
    ghost use Rattle.std.proofs.Common.{refl};
    ghost use Rattle.mj_subs.specs.Collation.{name_cmp};
    ghost use Rattle.mj_subs.specs.Laws.Total.{name_cmp_total};
    ghost use Rattle.mj_subs.specs.Laws.Ties.{names_eq-name_cmp};

    ghost cmp = { name_cmp };

    ghost total = { name_cmp_total };

    ghost matches_partial_cmp = { λ _ _. refl };

    ghost matches_eq = { names_eq-name_cmp };

    fn cmp(&self, other: &Name) -> Ordering {
        other
            .global
            .cmp(&self.global)
            .then(self.word.cmp_bytes(&other.word))
            .then(self.subscripts.cmp(&other.subscripts))
    }
}

impl MadeWith<Global> for Name {
    ghost is_made_with = { λ n. n ≡ record { global = true; word = []; subscripts = [] } };

    fn made_with(alloc: Global) -> Name {
        Name {
            global: true,
            word: Text::new(alloc),
            subscripts: Subs::new(alloc),
        }
    }
}
