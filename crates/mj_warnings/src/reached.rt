// Lines that nothing reaches.
//
// A line is reached that has a label, or is the first; that follows one of its level whose end is reached; or that begins a block for which a DO stands in
// a line that is reached. Which values there are isn't looked at: `IF 0` ends no line.

use mj_ast::Line;
use mj_pcode::{Instr, Unit};
use std::alloc::{AllocError, Global};

/// For each line of a unit whether something reaches it. Lines without a command count as reached.
pub fn reached_lines(alloc: Global, unit: &Unit, lines: &[Line]) -> Result<Vec<bool>, AllocError> {
    let mut reached = Vec::with_capacity(alloc, lines.len())?;
    // for each level whether a frame of it comes to the next line
    let mut open = Vec::new(alloc);
    let done = add_lines(alloc, &mut reached, &mut open, unit, lines);
    drop(open);
    match done {
        Ok(()) => Ok(reached),
        Err(refused) => {
            drop(reached);
            Err(refused)
        }
    }
}

// Tells for each line whether something reaches it.
fn add_lines(
    alloc: Global,
    reached: &mut Vec<bool>,
    open: &mut Vec<bool>,
    unit: &Unit,
    lines: &[Line],
) -> Result<(), AllocError> {
    for (at, line) in lines.iter().enumerate() {
        open.resize(line.level.saturating_add(1), false)?;
        let comes = at == 0 || line.label.is_some() || is_set(open, line.level);
        let past = if comes {
            passed(alloc, unit, at)?
        } else {
            Past {
                end: false,
                block: false,
            }
        };
        set(open, line.level, past.end);
        open.push(past.block)?;
        reached.push(comes || line.steps.is_empty())?;
    }
    Ok(())
}

fn is_set(list: &[bool], at: usize) -> bool {
    match list.get(at) {
        None => false,
        Some(is) => *is,
    }
}

fn set(list: &mut [bool], at: usize, is: bool) {
    if let Some(place) = list.get_mut(at) {
        *place = is;
    }
}

// What a line leads to: what stands behind it, and a block.
#[derive(Clone, Copy)]
struct Past {
    end: bool,
    block: bool,
}

// What the instructions of the line at this place lead to.
fn passed(alloc: Global, unit: &Unit, at: usize) -> Result<Past, AllocError> {
    let start = start_of(unit, at);
    let code = match unit.instrs.get(start..start_of(unit, at.saturating_add(1))) {
        None => &[],
        Some(code) => code,
    };
    let mut live = Vec::new(alloc);
    live.resize(code.len().saturating_add(1), false)?;
    let past = walk(&mut live, code, start);
    drop(live);
    Ok(past)
}

// Where the instructions of a line begin, and those of the unit end.
fn start_of(unit: &Unit, at: usize) -> usize {
    match unit.heads.get(at) {
        None => unit.instrs.len(),
        Some(head) => head.start,
    }
}

// Goes over the instructions of a line, of which the first stands there in its unit. None leads back but to where a FOR is closed, which is reached before.
fn walk(live: &mut [bool], code: &[Instr], start: usize) -> Past {
    let mut block = false;
    mark(live, 0);
    for (at, instr) in code.iter().enumerate() {
        if is_set(live, at) {
            block = block || matches!(instr, Instr::DoBlock(_));
            follow(live, instr, at, start);
        }
    }
    Past {
        end: is_set(live, code.len()),
        block,
    }
}

// Marks what an instruction at this place behind the line's first leads to.
fn follow(live: &mut [bool], instr: &Instr, at: usize, start: usize) {
    match instr {
        Instr::Halt
        | Instr::Quit
        | Instr::GiveValue
        | Instr::FailQuit
        | Instr::Goto(_)
        | Instr::SelectFails
        | Instr::BeginRestart
        | Instr::GiveUpFailedDevice
        | Instr::ForAgain => {}
        Instr::Jump(to) | Instr::ForClose(to) => mark(live, to.saturating_sub(start)),
        Instr::JumpUnless(to)
        | Instr::SetTest(to)
        | Instr::JumpUnlessTest(to)
        | Instr::JumpIfTest(to)
        | Instr::ForOpen(_, _, to) => {
            mark(live, to.saturating_sub(start));
            mark(live, at.saturating_add(1));
        }
        Instr::SetPiece(_, _, _)
        | Instr::OpenDevice(_)
        | Instr::StartTransaction(_, _)
        | Instr::Commit
        | Instr::ForForever => {
            mark(live, at.saturating_add(1));
            mark(live, at.saturating_add(2));
        }
        Instr::EndSession => {
            mark(live, at.saturating_add(1));
            mark(live, at.saturating_add(2));
            mark(live, at.saturating_add(3));
        }
        _ => mark(live, at.saturating_add(1)),
    }
}

// Marks a place. What lies behind the line is its end.
fn mark(live: &mut [bool], at: usize) {
    let last = live.len().saturating_sub(1);
    set(live, at.min(last), true);
}
