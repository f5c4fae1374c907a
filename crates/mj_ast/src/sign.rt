// The signs of routine text.

use mj_oper::TruthOp;

/// A sign of routine text.
#[derive(Clone, Copy, PartialEq, Eq, Debug)]
pub enum Sign {
    /// `+`
    Plus,
    /// `-`
    Minus,
    /// `*`
    Star,
    /// `\`
    Backslash,
    /// `#`
    Hash,
    /// `/`
    Slash,
    /// `_`
    Underscore,
    /// `=`
    Equals,
    /// `<`
    Less,
    /// `>`
    Greater,
    /// `[`
    OpenBracket,
    /// `]`
    CloseBracket,
    /// `]]`
    CloseBrackets,
    /// `&`
    Ampersand,
    /// `!`
    Exclamation,
    /// `'`
    Apostrophe,
    /// `'` and the sign of a truth operator behind it, as `'=`
    Negated(TruthOp),
    /// `?`
    Question,
    /// `'?`
    NegatedQuestion,
    /// `^`
    Caret,
    /// `(`
    Open,
    /// `)`
    Close,
    /// `,`
    Comma,
    /// `:`
    Colon,
    /// `.`
    Dot,
}
