// The variables of a lock.

ghost use Rattle.std.specs.Prelude.{◌≡◌, OnOk, OnErr, [], ◌∷◌, ◌++◌};

use crate::instr::Reference;
use std::alloc::{AllocError, Global};
use std::marker::Model;

/// Variables, in order.
#[derive(Drop)]
pub struct References {
    list: Vec<Reference>,
}

impl Model for References {
    ghost use Rattle.std.specs.Prelude.{List};
    ghost use Rattle.mj_pcode.specs.declared.instr.Reference.{Reference};

    ghost Value = { List Reference };

    ghost view = { λ r. r.list.items };
}

impl References {
    /// No variable.
    pub fn new(alloc: Global) -> References
        ensures { result ≡ [] }
    {
        References {
            list: Vec::new(alloc),
        }
    }

    /// One more variable, at the end.
    pub fn push(&mut self, reference: Reference) -> Result<(), AllocError>
        ensures ok { OnOk result (self.new ≡ self.old ++ reference ∷ []) }
        ensures err { OnErr result (self.new ≡ self.old) }
    {
        self.list.push(reference)?;
        Ok(())
    }

    /// The variables, in order.
    pub fn as_slice(&self) -> &[Reference]
        ensures { result.now ≡ self.now }
    {
        self.list.as_slice()
    }
}
