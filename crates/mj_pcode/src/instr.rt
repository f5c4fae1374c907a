// Instructions, and the unit that a routine becomes.

ghost use Rattle.std.specs.Prelude.{◌≡◌};
ghost use Rattle.mj_pcode.specs.Machine.{is_outside};

use crate::labels::Labels;
use crate::marks::Marks;
use crate::references::References;
use crate::shape::Shape;
use crate::words::Words;
use mj_ask::Entry;
use mj_ast::{Function, NameFunction, ReadMode, Scope, Special, Target};
use mj_oper::{Op, UnaryOp};
use mj_text::Text;

/// A variable, whose subscripts are the topmost `count` operands, the last one on top.
#[derive(Drop)]
pub struct Reference {
    pub scope: Scope,
    pub word: Text,
    pub count: usize,
}

/// How deep the operands of a destination lie: how many lie above them, of which the topmost is the value. Once it is assigned,
/// so many operands in all are taken off.
#[derive(Clone, Copy, PartialEq, Eq, Debug)]
pub struct Depth {
    pub above: usize,
    pub taken: usize,
}

/// A line as it is entered: its number, its level, and where the next one begins.
#[derive(Clone, Copy, PartialEq, Eq, Debug)]
pub struct LineStart {
    pub line: u32,
    pub level: usize,
    pub next: usize,
}

/// What a range of a FOR gives: one value, numbers by steps without an end, or up to one. Its operands are one, two or three.
#[derive(Clone, Copy, PartialEq, Eq, Debug)]
pub enum Span {
    One,
    Endless,
    UpTo,
}

/// How long an ask may wait.
#[derive(Clone, Copy, PartialEq, Eq, Debug)]
pub enum Wait {
    /// as long as it takes
    Ever,
    /// so many seconds, which the topmost operand says
    Timed,
}

/// Which locals a restart of a transaction restores.
#[derive(Drop)]
pub enum Restores {
    /// there is no restart
    Never,
    /// the locals of these names
    Only(Words),
    /// all
    All,
}

/// An instruction. Operands lie on a stack of texts.
#[derive(Drop)]
pub enum Instr {
    /// a line of the routine is entered, or passed over where it is deeper than its frame; where it is less deep the frame is over.
    /// A call puts a tally, an empty text, on the stack for each formal of the line that it leads to: as long as there is one, the line
    /// takes one off and does nothing else, so that each formal has a turn
    Line(LineStart),
    /// puts a text on the stack
    Push(Text),
    /// puts the value of a special variable on the stack
    PushSpecial(Special),
    /// takes the subscripts of a variable off, and puts its value on
    Load(Reference),
    /// takes one operand off, and puts what the operator gives on
    Unary(UnaryOp),
    /// takes the right and the left operand off, and puts what the operator gives on
    Binary(Op),
    /// takes so many arguments off, the last one on top, and puts what the function gives on
    CallFunction(Function, usize),
    /// looks whether the subscripts on the stack make a name that the function may be about
    CheckNamed(NameFunction, Reference),
    /// takes so many operands off, the subscripts of a variable and above them what stands behind it, and puts what the function
    /// gives on
    CallNameFunction(NameFunction, Reference, usize),
    /// looks whether the subscripts on the stack make the variable's name
    CheckName(Reference),
    /// assigns the topmost operand to the variable whose subscripts lie at this depth
    Store(Reference, Depth),
    /// so many arguments of a `$PIECE` lie at this depth, and below them the variable's subscripts: puts the variable's value on,
    /// in which the pieces are the topmost operand. Where they are none, the next instruction is passed over, and the operands
    /// are taken off in its place
    SetPiece(Reference, usize, Depth),
    /// takes so many operands off
    Discard(usize),
    /// takes the subscripts of a variable off, which goes with all that is below it
    Kill(Reference),
    /// all locals go but those of these names
    KillExcept(Words),
    /// takes the subscripts of the second variable off, below which those of the first lie, and takes in hand what stands at it
    /// and below it
    MergeTake(Reference, Reference),
    /// takes the subscripts of a variable off, and puts there what is in hand
    MergePut(Reference),
    /// takes a text off, and writes it
    Write,
    /// writes what the marks of a format stand for
    WriteFormat(Marks),
    /// takes a number off, and writes what the marks of a format stand for, and then spaces up to the column of this number
    WriteTab(Marks),
    /// takes a number off, and writes the byte of this code
    WriteByte,
    /// takes a truth value off, and goes on at the instruction with this number where it is false
    JumpUnless(usize),
    /// goes on at the instruction with this number
    Jump(usize),
    /// no condition of a `$SELECT` was true
    SelectFails,
    /// ends the job
    Halt,
    /// looks whether the topmost operand reads as a number
    CheckNumber,
    /// takes a number off, and waits so many seconds
    Hang,
    /// takes the timeout off, if there is one, and the actuals that are given, and starts a job where the entry names a line
    StartJob(Entry, Shape, Wait),
    /// gives up all names that the job holds
    UnlockAll,
    /// takes the timeout off, if there is one, and the subscripts of the variables, and takes their names, all or none
    Lock(References, Wait),
    /// takes the timeout off, if there is one, and the subscripts of the variables, and gives up their names
    Unlock(References, Wait),
    /// takes the timeout off, if there is one; then the topmost operand is the name of a device, which the job takes. Where it has that
    /// one open already, or doesn't get it in time, the name is taken off, and the next instruction is passed over
    OpenDevice(Wait),
    /// takes the name of a device off, and begins its session
    BeginSession,
    /// takes the name of an open device off, which becomes the current one
    UseDevice,
    /// ends the session of the device whose name is the topmost operand. Where it doesn't end well the next instruction follows, else the one
    /// behind that; where it is the principal device, or the job hasn't this one open, the name is taken off, and both are passed over
    EndSession,
    /// gives up the name of a device, which is the topmost operand; the job is over, since its session didn't end well
    GiveUpFailedDevice,
    /// takes the name of a device off, and gives it up
    GiveUpDevice,
    /// takes the timeout off, if there is one, and puts on what the current device gives: a line, or the code of a byte
    Read(ReadMode, Wait),
    /// takes a truth value off, which `$TEST` becomes, and goes on at the instruction with this number where it is false
    SetTest(usize),
    /// goes on at the instruction with this number where `$TEST` is false
    JumpUnlessTest(usize),
    /// goes on at the instruction with this number where `$TEST` is true
    JumpIfTest(usize),
    /// takes the subscripts of a local off, so many, and begins a FOR with it, whose passes begin at the instruction with this
    /// number
    ForOpen(Text, usize, usize),
    /// begins a FOR without arguments, whose passes begin behind the next instruction
    ForForever,
    /// takes the operands of a range off, and goes on with the first pass of the FOR in it, or behind this instruction where it has none
    ForBegin(Span),
    /// a pass of the innermost FOR is over: goes on with the next one, or behind the range
    ForAgain,
    /// the innermost FOR is over: goes on at the instruction with this number
    ForClose(usize),
    /// takes the actuals that are given off, and goes on in a new frame at the line that the entry names
    Do(Entry, Shape),
    /// goes on in a new frame behind the line with this number, one level deeper
    DoBlock(u32),
    /// goes on at the line that the entry names
    Goto(Entry),
    /// the frame is over, which is no function's
    Quit,
    /// takes the actuals that are given off, and goes on in a new frame, a function's, at the line that the target names, in this routine where it
    /// names none. The operands below wait for its value
    Invoke(Target, Shape),
    /// looks whether the frame is a function's
    CheckFunction,
    /// a QUIT with a value stands in a FOR
    FailQuit,
    /// takes a value off, and the frame is over, which is a function's and gives it
    GiveValue,
    /// the locals of these names are saved, and have no value any more
    New(Words),
    /// all locals but those of these names are saved, and have no value any more
    NewExcept(Words),
    /// begins a transaction, which is SERIAL or not. Where one is open it gets a level more, and the next instruction is passed over
    StartTransaction(Restores, bool),
    /// here a restart of the transaction goes on
    MarkRestart,
    /// one level less; at the last one the transaction is committed. The next instruction is passed over, unless it clashed
    Commit,
    /// the transaction is rolled back, if it can be restarted
    RollBackForRestart,
    /// the transaction begins once more, as all stood there, and goes on where it was marked
    BeginRestart,
    /// the transaction is rolled back, and isn't open any more
    RollBack,
}

impl Instr {
    /// Whether it is of time, of starting jobs, of locks, transactions or devices. What writes a text, or what the marks of a format stand for, and the two by
    /// which a restart is marked and goes back, aren't among these, nor what ends a job or asks of globals.
    pub fn is_outside(&self) -> bool
        ensures { result ≡ is_outside self.now }
    {
        match self {
            Instr::WriteTab(_)
            | Instr::WriteByte
            | Instr::Hang
            | Instr::StartJob(_, _, _)
            | Instr::UnlockAll
            | Instr::Lock(_, _)
            | Instr::Unlock(_, _)
            | Instr::OpenDevice(_)
            | Instr::BeginSession
            | Instr::UseDevice
            | Instr::EndSession
            | Instr::GiveUpFailedDevice
            | Instr::GiveUpDevice
            | Instr::Read(_, _)
            | Instr::StartTransaction(_, _)
            | Instr::Commit
            | Instr::RollBackForRestart
            | Instr::RollBack => true,
            _ => false,
        }
    }
}

/// A line as it is found: where its instructions begin, its level, and its formals.
#[derive(Drop)]
pub struct Head {
    pub start: usize,
    pub level: usize,
    pub formals: Words,
}

/// The p-code of a routine: its instructions, its lines (line k at place k - 1 of the list), and its labels.
#[derive(Drop)]
pub struct Unit {
    pub name: Text,
    pub instrs: Vec<Instr>,
    pub heads: Vec<Head>,
    pub labels: Labels,
}
