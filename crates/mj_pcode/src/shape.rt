// Which actuals are given.

ghost use Rattle.std.specs.Prelude.{◌≡◌, IfOk, OnOk, OnErr, [], ◌∷◌, ◌++◌};

use std::alloc::{AllocError, Global};
use std::marker::Model;

/// Of a list of actuals, in order, which are given and which are left out.
#[derive(Drop)]
pub struct Shape {
    given: Vec<bool>,
}

impl Model for Shape {
    ghost use Rattle.std.specs.Prelude.{List, Bool};

    ghost Value = { List Bool };

    ghost view = { λ s. s.given.items };
}

impl Shape {
    /// No actual.
    pub fn new(alloc: Global) -> Shape
        ensures { result ≡ [] }
    {
        Shape {
            given: Vec::new(alloc),
        }
    }

    /// One more actual.
    pub fn push(&mut self, given: bool) -> Result<(), AllocError>
        ensures ok { OnOk result (self.new ≡ self.old ++ given ∷ []) }
        ensures err { OnErr result (self.new ≡ self.old) }
    {
        self.given.push(given)?;
        Ok(())
    }

    /// No actual is left.
    pub fn clear(&mut self)
        ensures { self.new ≡ [] }
    {
        self.given.clear();
    }

    /// Which are given, in order.
    pub fn as_slice(&self) -> &[bool]
        ensures { result.now ≡ self.now }
    {
        self.given.as_slice()
    }
}
