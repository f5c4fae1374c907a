// FORs, and where frames go on.

ghost use Rattle.std.specs.Prelude.{◌≡◌, ◌-◌, ◌≤◌, false};

use mj_num::Num;
use mj_subs::Name;
use mj_text::Text;

/// The passes of a FOR: one; without end; or by steps, up to an end if there is one.
#[derive(Clone, Copy, PartialEq, Eq, Debug)]
pub enum Passes {
    Once,
    Always,
    By(Num, Option<Num>),
}

/// A FOR: its local, its passes, the instruction where a pass begins, and the one where it goes on behind the range.
#[derive(Drop)]
pub struct Loop {
    pub name: Name,
    pub passes: Passes,
    pub body: usize,
    pub resume: usize,
    ghost local: { name.global ≡ false },
}

/// Where a frame goes on once the one above it is over: its unit, by its place, the instruction, the FORs that it is in, the innermost
/// last, the operands of a half-done expression, the topmost last, and whether it waits for the value of a function. Where there are operands,
/// there is room for one more, so that the value takes no memory.
#[derive(Drop)]
pub struct Call {
    pub unit: usize,
    pub pc: usize,
    pub loops: Vec<Loop>,
    pub operands: Vec<Text>,
    pub function: bool,
    ghost room: { operands.len ≤ operands.cap - 1 },
}
