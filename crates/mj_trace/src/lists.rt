// Lists in a line: what stands in them one behind the other, with commas between.

ghost use Rattle.std.specs.Prelude.{◌≡◌, ◌+◌, ℕ, List, length, Option, IfOk};
ghost use Rattle.std.specs.Option.{option_map};
ghost use Rattle.mj_trace.specs.Reading.{all_more, closed};

use crate::found::Found;
use crate::run::{begins_with, skip};
use std::alloc::{AllocError, Global};

/// A list that is read, one thing after the other.
pub(crate) trait List: Sized + Drop {
    // the list with what stands at the front of some bytes, and what follows that
    ghost one: { Self → List ℕ → Option (Self × List ℕ) };

    /// Puts what stands at the front of some bytes behind the list, and gives what follows that. Where none stands there the list is of no more use.
    fn more<'a>(&mut self, alloc: Global, bytes: &'a [u8]) -> Result<Option<&'a [u8]>, AllocError>
        ensures { IfOk result (λ r. option_map (λ rest. (self.new, rest.now)) r ≡ one self.old bytes.now) };
}

/// Puts all that stand at the front behind the list, and gives what follows them.
pub(crate) fn read_all<'a, L: List>(
    alloc: Global,
    list: &mut L,
    bytes: &'a [u8],
) -> Result<Option<&'a [u8]>, AllocError>
    ensures { IfOk result (λ r. option_map (λ rest. (list.new, rest.now)) r ≡ all_more L.one (length bytes.now + 1) list.old bytes.now) }
{
    let mut rest = bytes;
    // Behind each but the first a comma stands.
    for _place in 0..bytes.len() + 1 {
        let Some(behind) = list.more(alloc, rest)? else {
            return Ok(None);
        };
        if !begins_with(b',', behind) {
            return Ok(Some(behind));
        }
        rest = skip(behind);
    }
    Ok(None)
}

/// Reads a list up to the byte that closes it, from an empty list on.
pub(crate) fn read_closed<'a, L: List>(
    alloc: Global,
    none: L,
    close: u8,
    bytes: &'a [u8],
) -> Result<Found<'a, L>, AllocError>
    ensures { IfOk result (λ r. option_map (λ p. (p.0, p.1.now)) r ≡ closed L.one close none bytes.now) }
{
    if begins_with(close, bytes) {
        return Ok(Some((none, skip(bytes))));
    }
    let mut list = none;
    match read_all(alloc, &mut list, bytes) {
        Ok(Some(rest)) => Ok(Some((list, skip(rest)))),
        Ok(None) => {
            drop(list);
            Ok(None)
        }
        Err(refused) => {
            drop(list);
            Err(refused)
        }
    }
}
