// Names that LOCK takes in two orders.
//
// From a line with a label on, up to the next one, it is noted which word is taken while others are held. Words alone are compared: `^A(1)` and `^A(2)` are
// one.

use mj_load::Image;
use mj_pcode::{Instr, Reference, Unit};
use mj_text::Text;
use std::alloc::{AllocError, Global};

/// The most words that are held at a time, and the most pairs, that are looked at.
const HELD: usize = 16;

const PAIRS: usize = 1_000;

/// A word that was taken while another was held, and where: the place of the unit among all, and the line.
#[derive(Clone, Copy, Drop)]
pub struct Pair<'a> {
    pub held: &'a Reference,
    pub taken: &'a Reference,
    pub unit: usize,
    pub line: u32,
}

/// All pairs of words, in the order of the routines.
pub fn pairs<'a>(alloc: Global, image: &'a Image) -> Result<Vec<Pair<'a>>, AllocError> {
    let mut pairs = Vec::new(alloc);
    let mut held = Vec::new(alloc);
    let done = add_units(&mut pairs, &mut held, image);
    drop(held);
    match done {
        Ok(()) => Ok(pairs),
        Err(refused) => {
            drop(pairs);
            Err(refused)
        }
    }
}

/// The first pair that was taken in the other order.
pub fn turned<'b, 'a>(pairs: &'b [Pair<'a>], pair: &Pair<'a>) -> Option<&'b Pair<'a>> {
    pairs.iter().find(|other| {
        is_same(other.held, pair.taken) && is_same(other.taken, pair.held)
    })
}

/// Whether a pair of these words, in either order, stands before the place of this one.
pub fn was_told<'a>(pairs: &[Pair<'a>], at: usize, pair: &Pair<'a>) -> bool {
    pairs.iter().take(at).any(|other| {
        (is_same(other.held, pair.held) && is_same(other.taken, pair.taken))
            || (is_same(other.held, pair.taken) && is_same(other.taken, pair.held))
    })
}

fn is_same(one: &Reference, other: &Reference) -> bool {
    one.scope == other.scope && one.word == other.word
}

fn add_units<'a>(
    pairs: &mut Vec<Pair<'a>>,
    held: &mut Vec<&'a Reference>,
    image: &'a Image,
) -> Result<(), AllocError> {
    for (at, (unit, routine)) in image
        .units()
        .iter()
        .zip(image.routines().iter())
        .enumerate()
    {
        held.clear();
        let mut number = 0;
        for instr in unit.instrs.iter() {
            if let Instr::Line(start) = instr {
                number = start.line;
                if has_label(&routine.lines, number) {
                    held.clear();
                }
            }
            note(pairs, held, instr, at, number)?;
        }
    }
    Ok(())
}

// Whether the line of this number has a label.
fn has_label(lines: &[mj_ast::Line], number: u32) -> bool {
    match lines.get((number as usize).saturating_sub(1)) {
        None => false,
        Some(line) => line.label.is_some(),
    }
}

// Notes what an instruction takes or gives up.
fn note<'a>(
    pairs: &mut Vec<Pair<'a>>,
    held: &mut Vec<&'a Reference>,
    instr: &'a Instr,
    unit: usize,
    line: u32,
) -> Result<(), AllocError> {
    match instr {
        Instr::UnlockAll => held.clear(),
        Instr::Unlock(list, _) => {
            for gone in list.as_slice() {
                held.retain(|reference| !is_same(*reference, gone));
            }
        }
        Instr::Lock(list, _) => {
            for taken in list.as_slice() {
                note_pairs(pairs, held, taken, unit, line)?;
            }
            for taken in list.as_slice() {
                if held.len() < HELD {
                    held.push(taken)?;
                }
            }
        }
        _ => {}
    }
    Ok(())
}

// Notes that a word is taken while these are held.
fn note_pairs<'a>(
    pairs: &mut Vec<Pair<'a>>,
    held: &[&'a Reference],
    taken: &'a Reference,
    unit: usize,
    line: u32,
) -> Result<(), AllocError> {
    for reference in held {
        if pairs.len() < PAIRS && !is_same(*reference, taken) {
            pairs.push(Pair {
                held: *reference,
                taken,
                unit,
                line,
            })?;
        }
    }
    Ok(())
}
