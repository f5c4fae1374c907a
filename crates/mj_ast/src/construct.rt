// What the language leaves out, by name.

ghost use Rattle.std.specs.Prelude.{◌≡◌};

use std::fmt;

/// A construct that the language leaves out by name: where a line can't go on and this stands there, the refusal names it.
#[derive(Clone, Copy, PartialEq, Eq, Debug)]
pub enum Construct {
    /// `@` where a name, an argument, an entry or an operand may begin
    Indirection,
    /// `.` behind digits, or before them where an operand may begin
    Fraction,
    /// a word that begins with `E` directly behind digits
    Exponent,
    /// the second `*` of `**`
    Power,
    /// `?` or `'?` where a binary operator may stand
    Pattern,
    /// `(` directly behind `^`
    Naked,
    /// `[` or `|` directly behind `^`
    Environment,
    /// `$` directly behind `^`
    Structured,
    /// `.` and a word where an actual may begin
    ByReference,
    /// `+` behind the label of an entry
    EntryOffset,
    /// `#` behind a variable of READ
    ReadLength,
    /// `:` behind an argument of USE or CLOSE, or what stands behind the first `:` of an argument of OPEN and isn't a second one
    DeviceParameters,
    /// what stands behind the first `:` of an argument of JOB and isn't a second one
    ProcessParameters,
    /// the third `:` of an argument of OPEN, or `/` where an argument of WRITE or READ may begin
    MnemonicSpace,
    /// a word that begins with `T` behind the `:` of TSTART's argument, or behind a `(` there
    TransactionId,
    /// `:` where the argument of TSTART may begin
    BareSerial,
    /// `$EXTRACT(` as a destination
    SetExtract,
    /// the second comma in `$JUSTIFY`
    JustifyDecimals,
    /// the first comma in `$QUERY`
    QueryBackward,
    /// the first comma in `$NAME`
    NameDepth,
    /// what ends a variable of `$ORDER` that has no subscripts
    OrderNames,
    /// a `$` word with a `(` behind it that is no function's
    Function,
    /// any other `$` word that is no variable's
    Variable,
    /// a word that is no command's, where a command may begin
    Command,
}

impl Construct {
    ghost use Rattle.mj_ast.specs.LeftOut.{name_of};

    /// The name by which it is refused.
    pub fn name(self) -> &'static str
        ensures { result.now ≡ name_of self }
    {
        match self {
            Construct::Indirection => "indirection",
            Construct::Fraction => "fraction",
            Construct::Exponent => "exponent",
            Construct::Power => "power",
            Construct::Pattern => "pattern",
            Construct::Naked => "naked",
            Construct::Environment => "environment",
            Construct::Structured => "structured",
            Construct::ByReference => "by reference",
            Construct::EntryOffset => "entry offset",
            Construct::ReadLength => "read length",
            Construct::DeviceParameters => "device parameters",
            Construct::ProcessParameters => "process parameters",
            Construct::MnemonicSpace => "mnemonic space",
            Construct::TransactionId => "transaction id",
            Construct::BareSerial => "bare serial",
            Construct::SetExtract => "set extract",
            Construct::JustifyDecimals => "justify decimals",
            Construct::QueryBackward => "query backward",
            Construct::NameDepth => "name depth",
            Construct::OrderNames => "order names",
            Construct::Function => "function",
            Construct::Variable => "variable",
            Construct::Command => "command",
        }
    }
}

impl fmt::Display for Construct {
    fn fmt<W: fmt::Write>(&self, f: &mut fmt::Formatter<W>) -> fmt::Result {
        f.write_str(self.name())
    }
}
