// What a page is drawn of.

use crate::escape::put_escaped;
use crate::wording::{put, put_number};
use std::alloc::AllocError;

// In points: how high a row is, how wide a lane, and how wide the gutter left of its events, in which arrows go; what lies left of the lanes, and which part of
// that the numbers of lines take; what lies above the rows.
const ROW: usize = 20;

const LANE: usize = 340;

const GUTTER: usize = 32;

const LEFT: usize = 200;

const NUMBERS: usize = 50;

const TOP: usize = 40;

const HEAD: &[u8] =
    b"<!DOCTYPE html>\n<html lang=\"en\">\n<head>\n<meta charset=\"utf-8\">\n<title>A run</title>\n<style>\n\
body { font-family: sans-serif; margin: 1em; color: #222; background: #fff; }\n\
pre { font-family: monospace; white-space: pre-wrap; }\n\
svg text { font-family: monospace; font-size: 12px; fill: #222; }\n\
.job { font-weight: bold; }\n\
.number { fill: #888; text-anchor: end; }\n\
svg text.place { fill: #888; }\n\
.lane { stroke: #ccc; }\n\
.transaction { fill: #e8f0fe; stroke: #4a78c8; }\n\
.held { fill: #e0a030; }\n\
.wait { fill: #c03030; }\n\
.clash { stroke: #c03030; fill: none; stroke-width: 2; }\n\
.loss { stroke: #8040a0; fill: none; stroke-width: 2; stroke-dasharray: 5 3; }\n\
.key { font-size: 0.9em; color: #555; }\n\
</style>\n</head>\n<body>\n\
<p class=\"key\">A lane for each job, its events from above to below, with their lines in the trace and in the routines. Blue box: a transaction. \
Orange bar: a name that is held. Red bar: a name that is waited for. Red arrow: from a change to the commit that clashes by it. Dashed arrow: from what was set to what was set over it.</p>\n";

// The tips of arrows, each named as the class of its arrows.
const MARKS: &[u8] = b"<defs>\
<marker id=\"clash\" markerWidth=\"8\" markerHeight=\"8\" refX=\"7\" refY=\"4\" orient=\"auto\">\
<path d=\"M0,0 L8,4 L0,8 z\" fill=\"#c03030\"/></marker>\
<marker id=\"loss\" markerWidth=\"8\" markerHeight=\"8\" refX=\"7\" refY=\"4\" orient=\"auto\">\
<path d=\"M0,0 L8,4 L0,8 z\" fill=\"#8040a0\"/></marker></defs>\n";

// The left end of a lane.
fn left_of(lane: u32) -> usize {
    LEFT.saturating_add(LANE.saturating_mul(lane as usize))
}

// The left end of the events of a lane.
fn events_of(lane: u32) -> usize {
    left_of(lane).saturating_add(GUTTER)
}

// Where arrows from and to the events of a lane end.
fn ends_of(lane: u32) -> usize {
    left_of(lane).saturating_add(GUTTER - 4)
}

// Where an arrow of this number goes in the gutter of a lane.
fn gutter_of(lane: u32, number: usize) -> usize {
    left_of(lane).saturating_add(6 + number % 4 * 4)
}

// The middle of a row.
fn middle_of(row: usize) -> usize {
    top_of(row).saturating_add(ROW / 2)
}

// The upper end of a row.
fn top_of(row: usize) -> usize {
    TOP.saturating_add(ROW.saturating_mul(row))
}

// Puts a number as the value of a name to the end.
fn put_value(page: &mut Vec<u8>, name: &[u8], value: usize) -> Result<(), AllocError> {
    put(page, b" ")?;
    put(page, name)?;
    put(page, b"=\"")?;
    put_number(page, value)?;
    put(page, b"\"")
}

// Puts a class to the end.
fn put_class(page: &mut Vec<u8>, class: &[u8]) -> Result<(), AllocError> {
    put(page, b" class=\"")?;
    put(page, class)?;
    put(page, b"\"")
}

/// Begins a page of so many lanes and rows.
pub fn head(page: &mut Vec<u8>, lanes: u32, rows: usize) -> Result<(), AllocError> {
    put(page, HEAD)?;
    put(page, b"<svg xmlns=\"http://www.w3.org/2000/svg\"")?;
    put_value(page, b"width", left_of(lanes).saturating_add(20))?;
    put_value(page, b"height", top_of(rows.saturating_add(3)))?;
    put(page, b">\n")?;
    put(page, MARKS)
}

/// Draws a lane.
pub fn lane(page: &mut Vec<u8>, lane: u32, rows: usize) -> Result<(), AllocError> {
    let left = left_of(lane);
    put(page, b"<text")?;
    put_class(page, b"job")?;
    put_value(page, b"x", events_of(lane))?;
    put_value(page, b"y", TOP / 2)?;
    put(page, b">job ")?;
    put_number(page, (lane as usize).saturating_add(1))?;
    put(page, b"</text>\n<line")?;
    put_class(page, b"lane")?;
    put_value(page, b"x1", left)?;
    put_value(page, b"y1", TOP)?;
    put_value(page, b"x2", left)?;
    put_value(page, b"y2", top_of(rows.saturating_add(2)))?;
    put(page, b"/>\n")
}

// Begins a rectangle from one row to another.
fn put_rect(
    page: &mut Vec<u8>,
    class: &[u8],
    left: usize,
    width: usize,
    from: usize,
    to: usize,
) -> Result<(), AllocError> {
    let high = to.saturating_sub(from).saturating_add(1);
    put(page, b"<rect")?;
    put_class(page, class)?;
    put_value(page, b"x", left)?;
    put_value(page, b"y", top_of(from))?;
    put_value(page, b"width", width)?;
    put_value(page, b"height", ROW.saturating_mul(high))
}

/// Draws the box of a transaction.
pub fn boxed(page: &mut Vec<u8>, lane: u32, from: usize, to: usize) -> Result<(), AllocError> {
    let left = left_of(lane).saturating_add(4);
    put_rect(page, b"transaction", left, LANE - 60, from, to)?;
    put(page, b"/>\n")
}

/// Draws a bar beside the events of a lane, with a title.
pub fn bar(
    page: &mut Vec<u8>,
    class: &[u8],
    lane: u32,
    number: usize,
    from: usize,
    to: usize,
    title: &[u8],
) -> Result<(), AllocError> {
    let right = left_of(lane).saturating_add(LANE - 52);
    let left = right.saturating_add(number.saturating_mul(5));
    put_rect(page, class, left, 4, from, to)?;
    put(page, b"><title>")?;
    put_escaped(page, class)?;
    put(page, b": ")?;
    put_escaped(page, title)?;
    put(page, b"</title></rect>\n")
}

// Draws a text in a row, as much of it as there is room for, and all of it as its title.
fn put_line(
    page: &mut Vec<u8>,
    class: &[u8],
    left: usize,
    width: usize,
    row: usize,
    line: &[u8],
) -> Result<(), AllocError> {
    put(page, b"<svg")?;
    put_value(page, b"x", left)?;
    put_value(page, b"y", top_of(row))?;
    put_value(page, b"width", width)?;
    put_value(page, b"height", ROW)?;
    put(page, b"><text")?;
    put_class(page, class)?;
    put(page, b" x=\"0\" y=\"14\">")?;
    put_escaped(page, line)?;
    put(page, b"<title>")?;
    put_escaped(page, line)?;
    put(page, b"</title></text></svg>\n")
}

/// Draws where in the routines an event comes from, left of the lanes.
pub fn place(page: &mut Vec<u8>, row: usize, spot: &[u8]) -> Result<(), AllocError> {
    put_line(page, b"place", NUMBERS + 10, LEFT - NUMBERS - 20, row, spot)
}

/// Draws the line of an event, and the number of its line in the trace.
pub fn label(
    page: &mut Vec<u8>,
    lane: u32,
    row: usize,
    number: usize,
    line: &[u8],
) -> Result<(), AllocError> {
    let base = top_of(row).saturating_add(14);
    put(page, b"<text")?;
    put_class(page, b"number")?;
    put_value(page, b"x", NUMBERS)?;
    put_value(page, b"y", base)?;
    put(page, b">")?;
    put_number(page, number)?;
    put(page, b"</text>\n")?;
    put_line(
        page,
        b"event",
        events_of(lane),
        LANE - GUTTER - 60,
        row,
        line,
    )
}

// Puts a letter of a path and a number to the end.
fn put_move(page: &mut Vec<u8>, letter: &[u8], to: usize) -> Result<(), AllocError> {
    put(page, letter)?;
    put_number(page, to)
}

/// Draws an arrow of a number from an event of a lane to one of another. It goes down in the gutter of that lane of both which lies on the left: a row has one
/// event, so the arrow crosses none.
pub fn arrow(
    page: &mut Vec<u8>,
    class: &[u8],
    number: usize,
    from_lane: u32,
    from: usize,
    to_lane: u32,
    to: usize,
) -> Result<(), AllocError> {
    put(page, b"<path")?;
    put_class(page, class)?;
    put(page, b" d=\"")?;
    put_move(page, b"M", ends_of(from_lane))?;
    put_move(page, b",", middle_of(from))?;
    put_move(page, b" H", gutter_of(from_lane.min(to_lane), number))?;
    put_move(page, b" V", middle_of(to))?;
    put_move(page, b" H", ends_of(to_lane))?;
    put(page, b"\" marker-end=\"url(#")?;
    put(page, class)?;
    put(page, b")\"/>\n")
}

/// Ends what is drawn.
pub fn foot(page: &mut Vec<u8>) -> Result<(), AllocError> {
    put(page, b"</svg>\n")
}

/// Puts words below it, and ends the page.
pub fn words_of(page: &mut Vec<u8>, words: &[u8]) -> Result<(), AllocError> {
    put(page, b"<pre>")?;
    put_escaped(page, words)?;
    put(page, b"</pre>\n</body>\n</html>\n")
}
