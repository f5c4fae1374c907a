// The functions of the language.

/// A function of texts.
#[derive(Clone, Copy, PartialEq, Eq, Debug)]
pub enum Function {
    /// `$ASCII`: the code of a byte
    Ascii,
    /// `$CHAR`: the bytes of codes
    Char,
    /// `$EXTRACT`: the bytes at some places
    Extract,
    /// `$FIND`: the place behind a text in another
    Find,
    /// `$JUSTIFY`: a text with spaces before it
    Justify,
    /// `$LENGTH`: how many bytes, or how many pieces
    Length,
    /// `$PIECE`: the pieces between separators
    Piece,
    /// `$QLENGTH`: how many subscripts a name text has
    QLength,
    /// `$QSUBSCRIPT`: a part of a name text
    QSubscript,
    /// `$REVERSE`: the bytes from the last to the first
    Reverse,
    /// `$TRANSLATE`: a text with other bytes in the place of some
    Translate,
}

/// A function of a variable, which stands for its name.
#[derive(Clone, Copy, PartialEq, Eq, Debug)]
pub enum NameFunction {
    /// `$DATA`: whether it has a value, and descendants
    Data,
    /// `$GET`: its value, or another where it has none
    Get,
    /// `$NAME`: its name text
    Name,
    /// `$ORDER`: the subscript beside its last
    Order,
    /// `$QUERY`: the name text of the next node with a value
    Query,
}

/// A special variable.
#[derive(Clone, Copy, PartialEq, Eq, Debug)]
pub enum Special {
    /// `$IO`: the name of the current device
    Io,
    /// `$JOB`: the number of the job
    Job,
    /// `$TEST`: whether the last condition of an IF was true
    Test,
    /// `$TLEVEL`: how many TSTARTs are open
    TLevel,
    /// `$TRESTART`: how often the transaction was restarted
    TRestart,
    /// `$X`: the column of the current device
    X,
    /// `$Y`: the row of the current device
    Y,
}

/// What a `$` word with arguments behind it names.
#[derive(Clone, Copy, PartialEq, Eq, Debug)]
pub enum Callee {
    /// a function whose arguments are texts
    Texts(Function),
    /// a function whose first argument is a variable
    Names(NameFunction),
    /// `$SELECT`
    Select,
}
