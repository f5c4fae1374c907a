// Format marks.

ghost use Rattle.std.specs.Prelude.{◌≡◌, IfOk};

use mj_ast::FormatMark;
use std::alloc::{AllocError, Global};
use std::marker::Model;

/// The marks of a format, in order.
#[derive(Drop)]
pub struct Marks {
    marks: Vec<FormatMark>,
}

impl Model for Marks {
    ghost use Rattle.std.specs.Prelude.{List};
    ghost use Rattle.mj_ast.specs.declared.routine.FormatMark.{FormatMark};

    ghost Value = { List FormatMark };

    ghost view = { λ m. m.marks.items };
}

impl Marks {
    /// These marks once more.
    pub fn copied(alloc: Global, marks: &[FormatMark]) -> Result<Marks, AllocError>
        ensures { IfOk result (λ m. m ≡ marks.now) }
    {
        Ok(Marks {
            marks: Vec::from_slice(alloc, marks)?,
        })
    }

    /// The marks, in order.
    pub fn as_slice(&self) -> &[FormatMark]
        ensures { result.now ≡ self.now }
    {
        self.marks.as_slice()
    }
}
