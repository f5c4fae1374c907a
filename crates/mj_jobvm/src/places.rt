// Where the asks of a job came from.
//
// A place is kept as two numbers: which of the routines' names is its own, and its line. A name is kept once, as long as the guess by the unit where the job
// runs is right; and a guess that is wrong costs another copy of it.

ghost use Rattle.std.specs.Prelude.{◌≡◌, ◌++◌, ◌∷◌, [], ◌≤◌, ℕ, Some, None, true, length, slice_index_or, IfOk, OnOk};
ghost use Rattle.std.specs.Option.{option_copied};
ghost use Rattle.mj_frames.specs.Frames.{place_at};
ghost use Rattle.mj_frames.specs.Places.{line_at};
ghost use Rattle.mj_jobvm.specs.Places.{spot_in, IsKept, AreFront, name_in};

use mj_frames::Place;
use mj_text::Text;
use std::alloc::{AllocError, Global};
use std::marker::Model;

/// Where the asks of a job came from: of each the routine and the line of its command, if a command asked.
#[derive(Drop)]
pub struct Places {
    // names of routines
    routines: Vec<Text>,
    // by a unit's place, which of them is its own, counted from 1: a guess, which is tried
    guesses: Vec<usize>,
    // of each ask which of the routines its place is in, counted from 1, and the line; 0 where it has no place
    spots: Vec<(usize, u32)>,
    // the same of the next one
    next: (usize, u32),
}

impl Model for Places {
    ghost use Rattle.std.specs.Prelude.{map, nat_lt};
    ghost use Rattle.std.specs.List.{All};
    ghost use Rattle.mj_jobvm.specs.Places.{Asked, spot_in, IsKept};

    ghost Value = { Asked };

    ghost view = { λ p. record {
      places = map (spot_in p.routines.items) p.spots.items;
      next = spot_in p.routines.items p.next;
      room = nat_lt p.spots.len p.spots.cap;
    } };

    ghost invariant = { λ p. All (IsKept p.routines.items) p.spots.items × IsKept p.routines.items p.next };
}

impl Places {
    /// Those of a job that asked nothing yet. It takes no memory.
    pub fn new(alloc: Global) -> Places
        ensures { result.places ≡ [] }
    {
        Places {
            routines: Vec::new(alloc),
            guesses: Vec::new(alloc),
            spots: Vec::new(alloc),
            next: (0, 0),
        }
    }

    /// How many asks they are of.
    pub fn len(&self) -> usize
        ensures { result ≡ length self.now.places }
    {
        self.spots.len()
    }

    /// The routine and the line where the ask at a place of the log came from, from 0; none where it has no place, or isn't there.
    pub fn place(&self, at: usize) -> Option<(&Text, u32)>
        ensures { place_at result ≡ slice_index_or self.now.places at None }
    {
        let (number, line) = self.spots.get(at)?;
        let routine = name_in(&self.routines, *number)?;
        Some((routine, *line))
    }

    // Notes where the next ask comes from, in the unit at this place, and makes room for it.
    pub(crate) fn note(&mut self, unit: usize, place: Option<&Place>) -> Result<(), AllocError>
        ensures places { self.new.places ≡ self.old.places }
        ensures ok { OnOk result ((self.new.next ≡ line_at place.entry) × (self.new.room ≡ true)) }
    {
        self.spots.reserve(1)?;
        let next = spot_of(&mut self.routines, &mut self.guesses, unit, place)?;
        self.next = next;
        Ok(())
    }

    // The next ask has its reply. It takes no memory.
    pub(crate) fn keep(&mut self)
        requires { self.old.room ≡ true }
        ensures { self.new.places ≡ self.old.places ++ self.old.next ∷ [] }
    {
        self.spots.push_reserved(self.next);
    }
}

// The name with this number, counted from 1.
fn name_in(routines: &[Text], number: usize) -> Option<&Text>
    ensures { option_copied result ≡ name_in routines.now number }
{
    let at = number.checked_sub(1)?;
    routines.get(at)
}

// Whether this is the name with that number.
fn is_name_of(routines: &[Text], number: usize, routine: &Text) -> bool
    ensures { result ≡ true → name_in routines.now number ≡ Some routine.now }
{
    match name_in(routines, number) {
        Some(name) => *name == *routine,
        None => false,
    }
}

// The number that is guessed for the unit at this place.
fn guessed(guesses: &[usize], unit: usize) -> usize {
    match guesses.get(unit) {
        Some(number) => *number,
        None => 0,
    }
}

// This number is guessed for the unit at this place from now on.
fn guess_so(guesses: &mut Vec<usize>, unit: usize, number: usize) -> Result<(), AllocError> {
    if guesses.len() <= unit {
        guesses.resize(unit.saturating_add(1), 0)?;
    }
    if let Some(guess) = guesses.get_mut(unit) {
        *guess = number;
    }
    Ok(())
}

// The number of a routine's name, which joins the others if it has none.
fn number_of(
    routines: &mut Vec<Text>,
    guesses: &mut Vec<usize>,
    unit: usize,
    routine: &Text,
) -> Result<usize, AllocError>
    ensures name { IfOk result (λ number. name_in routines.new.items number ≡ Some routine.now) }
    ensures more { AreFront routines.old.items routines.new.items }
{
    let guess = guessed(guesses, unit);
    if is_name_of(routines, guess, routine) {
        return Ok(guess);
    }
    let copy = routine.try_clone()?;
    routines.push(copy)?;
    let number = routines.len();
    guess_so(guesses, unit, number)?;
    Ok(number)
}

// How a place is kept.
fn spot_of(
    routines: &mut Vec<Text>,
    guesses: &mut Vec<usize>,
    unit: usize,
    place: Option<&Place>,
) -> Result<(usize, u32), AllocError>
    ensures spot { IfOk result (λ spot. spot_in routines.new.items spot ≡ line_at place.entry) }
    ensures kept { IfOk result (λ spot. IsKept routines.new.items spot) }
    ensures more { AreFront routines.old.items routines.new.items }
{
    let Some(place) = place else {
        return Ok((0, 0));
    };
    let number = number_of(routines, guesses, unit, &place.routine)?;
    Ok((number, place.line))
}
