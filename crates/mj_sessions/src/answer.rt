// What comes of an ask to a session.

ghost use Rattle.std.specs.Prelude.{◌≡◌};
ghost use Rattle.mj_sessions.specs.Answers.{answer_to, answer_to_line, answer_to_byte, not_yet};

use mj_ask::Reply;
use mj_dev::{Code, Did, Input};

/// What comes of an ask that a job's own sessions serve, or none.
#[derive(Drop)]
pub enum Answer {
    /// the job is told this
    Told(Reply),
    /// there is nothing to read yet
    NotYet,
    /// the job has no session that can serve it
    Unfit,
    /// an allocation was refused
    Memory,
}

// What is told of a call that reads nothing.
pub fn to_call(did: Did) -> Answer
    ensures { result ≡ answer_to did }
{
    match did {
        Did::Done => Answer::Told(Reply::Done),
        Did::Failed => Answer::Told(Reply::Failed),
        Did::Memory => Answer::Memory,
    }
}

// What is told of a line.
pub fn to_line(input: Input, over: bool) -> Answer
    ensures { result ≡ answer_to_line input over }
{
    match input {
        Input::Line(line) => Answer::Told(Reply::Line(line)),
        Input::End => Answer::Told(Reply::End),
        Input::NotYet => not_yet(over),
        Input::Failed => Answer::Told(Reply::Failed),
        Input::Memory => Answer::Memory,
    }
}

// What is told of a byte.
pub fn to_byte(code: Code, over: bool) -> Answer
    ensures { result ≡ answer_to_byte code over }
{
    match code {
        Code::Byte(code) => Answer::Told(Reply::Byte(code)),
        Code::End => Answer::Told(Reply::End),
        Code::NotYet => not_yet(over),
        Code::Failed => Answer::Told(Reply::Failed),
        Code::Memory => Answer::Memory,
    }
}

// What is told where nothing can be read yet.
fn not_yet(over: bool) -> Answer
    ensures { result ≡ not_yet over }
{
    if over {
        Answer::Told(Reply::Late)
    } else {
        Answer::NotYet
    }
}
