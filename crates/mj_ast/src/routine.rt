// Commands, lines and routines.

use crate::expr::{Actual, Expr, Variable};
use mj_text::Text;

/// What a value is assigned to.
#[derive(Drop)]
pub enum Destination {
    /// the value of a variable
    Whole(Variable),
    /// pieces of a variable's value, by `$PIECE`: a separator, and perhaps the place of the first piece and of the last
    Pieces(Variable, Vec<Expr>),
}

/// The destinations of an argument of SET.
#[derive(Drop)]
pub enum Targets {
    One(Destination),
    /// a list in parentheses, not empty
    Several(Vec<Destination>),
}

/// An argument of SET: the destinations and the value that each gets.
#[derive(Drop)]
pub struct Assignment {
    pub targets: Targets,
    pub value: Expr,
}

/// An argument of KILL.
#[derive(Drop)]
pub enum Killed {
    /// a variable, with what is below it
    Tree(Variable),
    /// all locals but those of these names, of which there is one at least
    Except(Vec<Text>),
}

/// An argument of MERGE.
#[derive(Drop)]
pub struct Merged {
    pub into: Variable,
    pub from: Variable,
}

/// A byte that a format writes.
#[derive(Clone, Copy, PartialEq, Eq, Debug)]
pub enum FormatMark {
    /// `!`
    NewLine,
    /// `#`
    NewPage,
}

/// A format: a run of marks, and the column that is filled up to behind them, if there is one. It has one of the two at least.
#[derive(Drop)]
pub struct Layout {
    pub marks: Vec<FormatMark>,
    pub column: Option<Expr>,
}

/// An argument of WRITE.
#[derive(Drop)]
pub enum Output {
    /// the text of an expression
    Value(Expr),
    /// a format
    Format(Layout),
    /// the byte of a code
    Code(Expr),
}

/// What an argument of READ takes from the device.
#[derive(Clone, Copy, PartialEq, Eq, Debug)]
pub enum ReadMode {
    /// a line
    Line,
    /// `*`: the code of a byte
    Byte,
}

/// What READ takes: how much, the variable that gets it, and how long it may wait, if that is limited.
#[derive(Drop)]
pub struct Received {
    pub mode: ReadMode,
    pub variable: Variable,
    pub timeout: Option<Expr>,
}

/// An argument of READ.
#[derive(Drop)]
pub enum Input {
    /// a text in quotes, which is written
    Prompt(Text),
    /// a format, which is written
    Format(Layout),
    /// what is taken
    Into(Received),
}

/// An argument of OPEN: the name of a device, and how long it may wait, if that is limited.
#[derive(Drop)]
pub struct Opened {
    pub device: Expr,
    pub timeout: Option<Expr>,
}

/// Where control may go: a line by its label, in this routine where none is named, or a routine's first line. At least one of
/// the two is there.
#[derive(Drop)]
pub struct Target {
    pub label: Option<Text>,
    pub routine: Option<Text>,
}

/// An argument of DO: where to, the actuals, of which some may be left out, and its postcondition, if it has one.
#[derive(Drop)]
pub struct Called {
    pub target: Target,
    pub actuals: Vec<Actual>,
    pub condition: Option<Expr>,
}

/// An argument of GOTO: where to, and its postcondition, if it has one.
#[derive(Drop)]
pub struct Jumped {
    pub target: Target,
    pub condition: Option<Expr>,
}

/// An argument of JOB: where it starts, the actuals, of which some may be left out, and how long it may wait, if that is limited.
#[derive(Drop)]
pub struct Started {
    pub target: Target,
    pub actuals: Vec<Actual>,
    pub timeout: Option<Expr>,
}

/// What an argument of LOCK does with its names.
#[derive(Clone, Copy, PartialEq, Eq, Debug)]
pub enum LockMode {
    /// takes them in the place of all that were held
    Whole,
    /// `+`: takes them beside what is held
    Plus,
    /// `-`: gives them back
    Minus,
}

/// The names of an argument of LOCK, as variables.
#[derive(Drop)]
pub enum LockNames {
    One(Variable),
    /// a list in parentheses, not empty
    Several(Vec<Variable>),
}

/// An argument of LOCK: what it does, its names, and how long it may wait, if that is limited.
#[derive(Drop)]
pub struct Locked {
    pub mode: LockMode,
    pub names: LockNames,
    pub timeout: Option<Expr>,
}

/// What a FOR goes through.
#[derive(Drop)]
pub enum Range {
    /// one value
    One(Expr),
    /// numbers from the first on, by steps
    Endless(Expr, Expr),
    /// numbers from the first on, by steps, up to the last
    UpTo(Expr, Expr, Expr),
}

/// An argument of NEW.
#[derive(Drop)]
pub enum Renewed {
    /// the locals of this name
    Name(Text),
    /// all locals but those of these names, of which there is one at least
    Except(Vec<Text>),
}

/// Which locals a restart of a transaction restores.
#[derive(Drop)]
pub enum Restored {
    /// the locals of this name
    One(Text),
    /// a list in parentheses: those of these names, none where it is empty
    Several(Vec<Text>),
    /// `*`: all
    All,
}

/// How an argument of TSTART says that the transaction is SERIAL.
#[derive(Clone, Copy, PartialEq, Eq, Debug)]
pub enum Serial {
    /// not at all: it isn't
    No,
    /// by the word alone
    Bare,
    /// by the word in parentheses
    Enclosed,
}

/// The argument of TSTART: the transaction can be restarted.
#[derive(Drop)]
pub struct Restartable {
    pub restored: Restored,
    pub serial: Serial,
}

/// What a command does, with its arguments, of which there is one at least where nothing else is said.
#[derive(Drop)]
pub enum Command {
    Set(Vec<Assignment>),
    Write(Vec<Output>),
    Halt,
    Hang(Vec<Expr>),
    Job(Vec<Started>),
    /// without arguments it gives back all that is held
    Lock(Vec<Locked>),
    /// without arguments it is all locals
    Kill(Vec<Killed>),
    Merge(Vec<Merged>),
    /// without arguments it is by `$TEST`
    If(Vec<Expr>),
    Else,
    /// a local, and what it goes through
    For(Variable, Vec<Range>),
    /// FOR without arguments
    Forever,
    /// without arguments it is the block behind its line
    Do(Vec<Called>),
    Goto(Vec<Jumped>),
    /// with a value it ends a function
    Quit(Option<Expr>),
    /// without arguments it is all locals
    New(Vec<Renewed>),
    Open(Vec<Opened>),
    Use(Vec<Expr>),
    Close(Vec<Expr>),
    Read(Vec<Input>),
    /// without its argument the transaction can't be restarted
    TStart(Option<Restartable>),
    TCommit,
    TRestart,
    TRollback,
    Break,
}

/// A command with its postcondition, if it has one. IF, ELSE and FOR have none.
#[derive(Drop)]
pub struct LineCommand {
    pub condition: Option<Expr>,
    pub command: Command,
}

/// A line: its label, a name or digits as they were spelled, the names of its formals, its level, which is 1 more than its
/// dots, and its commands.
#[derive(Drop)]
pub struct Line {
    pub label: Option<Text>,
    pub formals: Vec<Text>,
    pub level: usize,
    pub steps: Vec<LineCommand>,
}

/// A routine: its name and its lines, of which the first is line 1.
#[derive(Drop)]
pub struct Routine {
    pub name: Text,
    pub lines: Vec<Line>,
}
