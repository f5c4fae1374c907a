// Whether the lines that a trace says of its events are those that they come from.

ghost use Rattle.std.specs.Prelude.{◌≡◌, ◌↔◌, IsTrue, option_copied};
ghost use Rattle.mj_describe.specs.Words.{spot_of};
ghost use Rattle.mj_describe.specs.Elsewhere.{said, IsFirstElsewhere};

use crate::wording::Spot;
use mj_ask::{Noted, Spot as Said};

/// The first event that comes from another line than it says, if one does.
pub fn first_elsewhere(events: &[Noted], spots: &[Spot]) -> Option<usize>
    ensures { IsFirstElsewhere events.now spots.now result }
{
    for (place, event) in events.iter().enumerate() {
        if !is_there(&event.spot, spots.get(place)) {
            return Some(place);
        }
    }
    None
}

// Whether what is said of an event is where it comes from.
fn is_there(told: &Option<Said>, spot: Option<&Spot>) -> bool
    ensures { IsTrue result ↔ (said told.now ≡ spot_of (option_copied spot.entry)) }
{
    match (told, spot) {
        (Some(said), Some(Some((routine, line)))) => {
            said.routine == *routine && said.line == *line
        }
        (None, Some(Some(_))) => false,
        (None, _) => true,
        (Some(_), _) => false,
    }
}
