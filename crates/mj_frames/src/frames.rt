// The frames of a job.

ghost use Rattle.std.specs.Prelude.{◌≡◌, ◌+◌, ◌-◌, ◌≤◌, [], ◌∷◌, length, map, drop, option_map, OnOk, OnErr};
ghost use Rattle.std.specs.List.{list_any};
ghost use Rattle.mj_semantics.specs.State.{standing_at};
ghost use Rattle.mj_frames.specs.Places.{place_in, line_at};
ghost use Rattle.mj_frames.specs.Frames.{place_of, frame_of, frame_at, frames_of, with_place, innermost, level_in, function_in, popped_from};

use crate::frame::{Frame, Place};
use mj_text::Text;
use std::alloc::{AllocError, Global};
use std::marker::Model;

/// Frames, which contracts see with the innermost first.
#[derive(Drop)]
pub struct Frames {
    // the innermost last
    frames: Vec<Frame>,
}

impl Model for Frames {
    ghost use Rattle.std.specs.Prelude.{List};
    ghost use Rattle.mj_semantics.specs.State as states;
    ghost use Rattle.mj_frames.specs.Frames.{frames_of, AreShallow};

    ghost Value = { List states.Frame };

    ghost view = { λ f. frames_of f.frames.items };

    ghost invariant = { λ f. AreShallow (frames_of f.frames.items) };
}

impl Frames {
    /// No frame.
    pub fn new(alloc: Global) -> Frames
        ensures { result ≡ [] }
    {
        Frames {
            frames: Vec::new(alloc),
        }
    }

    /// How many there are.
    pub fn len(&self) -> usize
        ensures { result ≡ length self.now }
    {
        self.frames.len()
    }

    /// The level of the lines of the innermost one, or 1 where there is none. It is at most one more than there are frames.
    pub fn level(&self) -> usize
        ensures value { result ≡ level_in self.now }
        ensures bound { result ≤ length self.now + 1 }
    {
        match self.frames.last() {
            None => 1,
            Some(frame) => frame.level,
        }
    }

    /// Whether the innermost one is a function's.
    #[inline(always)]
    pub fn is_function(&self) -> bool
        ensures { result ≡ function_in self.now }
    {
        match self.frames.last() {
            None => false,
            Some(frame) => frame.function,
        }
    }

    /// Whether any is a function's.
    pub fn any_function(&self) -> bool
        ensures { result ≡ list_any (λ f. f.function) self.now }
    {
        any_function(&self.frames)
    }

    /// The innermost one.
    pub fn last(&self) -> Option<&Frame>
        ensures { frame_at result ≡ innermost self.now }
    {
        self.frames.last()
    }

    /// Where the innermost one stands.
    pub fn place(&self) -> Option<&Place>
        ensures { line_at result ≡ place_in self.now }
    {
        match self.frames.last() {
            None => None,
            Some(frame) => Some(&frame.place),
        }
    }

    /// All, the innermost last.
    pub fn as_slice(&self) -> &[Frame]
        ensures { frames_of result.now ≡ self.now }
    {
        self.frames.as_slice()
    }

    /// The innermost one, if there is one, stands at a line of this routine. It takes memory only where the routine is another.
    #[inline(always)]
    pub fn enter(&mut self, routine: &Text, line: u32) -> Result<(), AllocError>
        requires { length routine.now ≤ 31 }
        ensures ok { OnOk result (self.new ≡ with_place (record { routine = routine.now; line = line }) self.old) }
        ensures err { OnErr result (self.new ≡ self.old) }
    {
        move_to(&mut self.frames, routine, line)
    }

    /// One more, which is the innermost now.
    pub fn push(&mut self, frame: Frame) -> Result<(), AllocError>
        requires { frame.level ≤ length self.old + 2 }
        ensures ok { OnOk result (self.new ≡ frame_of frame ∷ self.old) }
        ensures err { OnErr result (self.new ≡ self.old) }
    {
        self.frames.push(frame)?;
        Ok(())
    }

    /// Takes the innermost one away, if there is one.
    pub fn pop(&mut self) -> Option<Frame>
        ensures { popped_from self.old ≡ (option_map frame_of result, self.new) }
    {
        self.frames.pop()
    }

    /// The outermost `depth` stay, or all where there are fewer.
    pub fn truncate(&mut self, depth: usize)
        ensures { self.new ≡ drop (length self.old - depth) self.old }
    {
        while self.len() > depth {
            drop(self.pop());
        }
    }

    /// The innermost one stands at this place, if there is a place and a frame. It takes no memory.
    pub fn stand_at(&mut self, place: Option<Place>)
        ensures { self.new ≡ standing_at (option_map place_of place) self.old }
    {
        if let Some(place) = place {
            stand(&mut self.frames, place);
        }
    }
}

// Whether one of these frames is a function's.
fn any_function(frames: &[Frame]) -> bool
    ensures { result ≡ list_any (λ f. f.function) (map frame_of frames.now) }
{
    for frame in frames {
        if frame.function {
            return true;
        }
    }
    false
}

// The innermost frame, which lies last, stands at a place, if there is a frame.
fn stand(frames: &mut [Frame], place: Place)
    ensures { frames_of frames.new ≡ with_place (place_of place) (frames_of frames.old) }
{
    if let Some(frame) = frames.last_mut() {
        frame.place = place;
    }
}

// Moves the innermost frame, which lies last, to a line, if there is a frame.
#[inline(always)]
fn move_to(frames: &mut [Frame], routine: &Text, line: u32) -> Result<(), AllocError>
    requires { length routine.now ≤ 31 }
    ensures ok { OnOk result (frames_of frames.new ≡ with_place (record { routine = routine.now; line = line }) (frames_of frames.old)) }
    ensures err { OnErr result (frames.new ≡ frames.old) }
{
    let Some(frame) = frames.last_mut() else {
        return Ok(());
    };
    if frame.place.routine == *routine {
        frame.place.line = line;
        return Ok(());
    }
    move_away(frame, routine, line)
}

// Moves a frame to a line of another routine. It lies apart, since lines are entered often, and seldom so.
#[inline(never)]
fn move_away(frame: &mut Frame, routine: &Text, line: u32) -> Result<(), AllocError>
    requires { length routine.now ≤ 31 }
    ensures ok { OnOk result (frame_of frame.new ≡ record (frame_of frame.old) { place = record { routine = routine.now; line = line } }) }
    ensures err { OnErr result (frame.new ≡ frame.old) }
{
    let routine = routine.try_clone()?;
    frame.place = Place { routine, line };
    Ok(())
}
