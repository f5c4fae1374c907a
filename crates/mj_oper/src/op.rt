// The operators, as an expression names them.

/// An operator between two values that says whether something holds of them.
#[derive(Clone, Copy, PartialEq, Eq, Debug)]
pub enum TruthOp {
    /// `=`: the texts are equal
    Equal,
    /// `<`, of numbers
    Less,
    /// `>`, of numbers
    Greater,
    /// `[`: the right text stands somewhere in the left one
    Contains,
    /// `]`: the left text comes after the right one by bytes
    Follows,
    /// `]]`: the left text comes after the right one in the order of subscripts
    SortsAfter,
    /// `&`, of truth values
    And,
    /// `!`, of truth values
    Or,
}

/// An operator between two values. All bind alike, from left to right.
#[derive(Clone, Copy, PartialEq, Eq, Debug)]
pub enum Op {
    /// `+`
    Add,
    /// `-`
    Subtract,
    /// `*`
    Multiply,
    /// `\`: the whole part of the quotient, towards 0
    Quotient,
    /// `#`: the remainder, with the sign of the right side
    Remainder,
    /// `/`: the quotient, where it is a whole number
    Divide,
    /// `_`: one text after the other
    Join,
    /// `1` where it holds, else `0`
    Is(TruthOp),
    /// a `'` before it turns it: `0` where it holds, else `1`
    IsNot(TruthOp),
}

/// An operator before a value.
#[derive(Clone, Copy, PartialEq, Eq, Debug)]
pub enum UnaryOp {
    /// `+`: the number
    Plus,
    /// `-`: its negative
    Minus,
    /// `'`: the opposite truth value
    Not,
}
