// Names of locals.

ghost use Rattle.std.specs.Prelude.{◌≡◌, IfOk, [], ◌∷◌};

use mj_text::Text;
use std::alloc::{AllocError, Global};
use std::marker::Model;

/// Names without subscripts, in order.
#[derive(Drop)]
pub struct Words {
    words: Vec<Text>,
}

impl Model for Words {
    ghost use Rattle.std.specs.Prelude.{ℕ, List};

    ghost Value = { List (List ℕ) };

    ghost view = { λ w. w.words.items };
}

impl Words {
    /// These names once more.
    pub fn copied(alloc: Global, words: &[Text]) -> Result<Words, AllocError>
        ensures { IfOk result (λ w. w ≡ words.now) }
    {
        let mut copy = Vec::new(alloc);
        for word in words {
            copy.push(word.try_clone()?)?;
        }
        Ok(Words { words: copy })
    }

    /// This name alone.
    pub fn one(alloc: Global, word: &Text) -> Result<Words, AllocError>
        ensures { IfOk result (λ w. w ≡ word.now ∷ []) }
    {
        let mut words = Vec::new(alloc);
        words.push(word.try_clone()?)?;
        Ok(Words { words })
    }

    /// The names, in order.
    pub fn as_slice(&self) -> &[Text]
        ensures { result.now ≡ self.now }
    {
        self.words.as_slice()
    }
}
