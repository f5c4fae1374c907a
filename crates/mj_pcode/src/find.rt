// What an entry names among units.

ghost use Rattle.std.specs.Prelude.{◌≡◌, ◌≤◌, length, option_map, slice_get, Some, IfSome};
ghost use Rattle.mj_ast.specs.Trees.{target_of};
ghost use Rattle.mj_semantics.specs.Lines as lines;
ghost use Rattle.mj_pcode.specs.Found as finding;

use crate::instr::{Head, Unit};
use mj_ask::Entry;
use mj_ast::Target as Named;
use mj_text::Text;

/// A line that was found: the place of its unit among all, the unit, its number, and what is known of it.
#[derive(Drop)]
pub struct Target<'a> {
    pub at: usize,
    pub unit: &'a Unit,
    pub line: usize,
    pub head: &'a Head,
}

/// The line that an entry names: in the first unit with its routine's name, the line with its label, or the first line where it
/// has none.
pub fn find_line<'a>(units: &'a [Unit], entry: &Entry) -> Option<Target<'a>>
    ensures which { option_map (λ t. record { at = t.at; unit = t.unit.now; line = t.line; head = t.head.now }) result ≡ finding.found units.now entry.now }
    ensures there { IfSome result (λ t. slice_get units.now t.at ≡ Some t.unit.now) }
    ensures within { IfSome result (λ t. t.line ≤ length t.unit.now.heads.items) }
{
    find_in(units, &entry.routine, &entry.label)
}

/// The line where a function begins that a target names, in this unit's routine where it names none.
pub fn find_target<'a>(units: &'a [Unit], unit: &Unit, target: &Named) -> Option<Target<'a>>
    ensures which { option_map (λ t. record { at = t.at; unit = t.unit.now; line = t.line; head = t.head.now }) result
        ≡ finding.found units.now (lines.entry_in unit.now.name (target_of target.now)) }
    ensures there { IfSome result (λ t. slice_get units.now t.at ≡ Some t.unit.now) }
    ensures within { IfSome result (λ t. t.line ≤ length t.unit.now.heads.items) }
{
    match &target.routine {
        None => find_in(units, &unit.name, &target.label),
        Some(routine) => find_in(units, routine, &target.label),
    }
}

// The line with a label in the first unit with a name, or its first line where there is no label.
fn find_in<'a>(units: &'a [Unit], routine: &Text, label: &Option<Text>) -> Option<Target<'a>>
    ensures which { option_map (λ t. record { at = t.at; unit = t.unit.now; line = t.line; head = t.head.now }) result
        ≡ finding.found units.now (record { label = label.now; routine = routine.now }) }
    ensures there { IfSome result (λ t. slice_get units.now t.at ≡ Some t.unit.now) }
    ensures within { IfSome result (λ t. t.line ≤ length t.unit.now.heads.items) }
{
    for (at, unit) in units.iter().enumerate() {
        if unit.name == *routine {
            return line_at(at, unit, line_in(unit, label));
        }
    }
    None
}

// The line with this number of a unit that stands at a place, if it has one.
fn line_at<'a>(at: usize, unit: &'a Unit, line: usize) -> Option<Target<'a>>
    ensures which { option_map (λ t. record { at = t.at; unit = t.unit.now; line = t.line; head = t.head.now }) result ≡ finding.found_in at unit.now line }
    ensures same { IfSome result (λ t. (t.at ≡ at) × (t.unit.now ≡ unit.now)) }
    ensures within { IfSome result (λ t. t.line ≤ length t.unit.now.heads.items) }
{
    match unit.heads.get(line.saturating_sub(1)) {
        None => None,
        Some(head) => Some(Target {
            at,
            unit,
            line,
            head,
        }),
    }
}

// The number of the line that a label leads to, or of the first without one; the number after the last line where there is no such
// label.
fn line_in(unit: &Unit, label: &Option<Text>) -> usize
    ensures { result ≡ finding.line_in unit.now label.now }
{
    match label {
        None => 1,
        Some(label) => match unit.labels.line(label) {
            None => unit.heads.len() + 1,
            Some(line) => line as usize,
        },
    }
}
