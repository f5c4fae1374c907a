// The commands, and the words that they begin with.

/// A command.
#[derive(Clone, Copy, PartialEq, Eq, Debug)]
pub enum Keyword {
    Set,
    Write,
    Halt,
    Hang,
    Job,
    Lock,
    Kill,
    Merge,
    If,
    Else,
    For,
    Do,
    Goto,
    Quit,
    New,
    Open,
    Use,
    Close,
    Read,
    TStart,
    TCommit,
    TRestart,
    TRollback,
    Break,
}

/// What a word is that commands begin with.
#[derive(Clone, Copy, PartialEq, Eq, Debug)]
pub enum Verb {
    /// the word of one command
    Of(Keyword),
    /// `H`: HALT without arguments, and HANG with some
    HaltOrHang,
}
