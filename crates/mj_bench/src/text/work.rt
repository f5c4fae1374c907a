// What is measured.

use mj_oper::{Op, binary};
use mj_strfn as functions;
use mj_text::{Failure, Limit, Text};
use std::alloc::Global;

/// A call that is measured.
#[derive(Clone, Copy, PartialEq, Eq, Debug)]
pub enum Work {
    Ascii,
    Char,
    Extract,
    Find,
    Justify,
    Length,
    Pieces,
    PieceAtEnd,
    PieceSet,
    Reverse,
    Translate,
    TranslateAll,
    Join,
}

/// All of them.
pub const WORKS: [Work; 13] = [
    Work::Ascii,
    Work::Char,
    Work::Extract,
    Work::Find,
    Work::Justify,
    Work::Length,
    Work::Pieces,
    Work::PieceAtEnd,
    Work::PieceSet,
    Work::Reverse,
    Work::Translate,
    Work::TranslateAll,
    Work::Join,
];

impl Work {
    /// What is printed of it.
    pub fn name(self) -> &'static str {
        match self {
            Work::Ascii => "$ASCII(s,n)",
            Work::Char => "$CHAR(65,66)",
            Work::Extract => "$EXTRACT(s,2,n)",
            Work::Find => "$FIND(s,\"end\")",
            Work::Justify => "$JUSTIFY(\"\",n)",
            Work::Length => "$LENGTH(s)",
            Work::Pieces => "$LENGTH(s,\",\")",
            Work::PieceAtEnd => "$PIECE(s,\",\",last)",
            Work::PieceSet => "SET $PIECE(s,\",\",last)",
            Work::Reverse => "$REVERSE(s)",
            Work::Translate => "$TRANSLATE(s,\"ab\",\"x\")",
            Work::TranslateAll => "$TRANSLATE(s,256 bytes,..)",
            Work::Join => "s_\",\"",
        }
    }
}

/// The texts that are worked on.
#[derive(Drop)]
pub struct Sample {
    text: Text,
    size: Text,
    last: Text,
    one: Text,
    two: Text,
    comma: Text,
    part: Text,
    empty: Text,
    some: Text,
    all: Text,
}

impl Sample {
    /// A text of this many bytes, and what goes with it.
    pub fn new(alloc: Global, size: u32) -> Result<Sample, Failure> {
        // What may be refused comes first: the fewer values there are then, the less there is to drop, and to prove.
        Ok(Sample {
            text: text_of(alloc, size)?,
            all: every_byte(alloc)?,
            comma: Text::from(alloc, b",")?,
            part: Text::from(alloc, b"end")?,
            some: Text::from(alloc, b"ab")?,
            size: number(alloc, size),
            last: number(alloc, size / 7 + 1),
            one: Text::from_number(alloc, 65),
            two: Text::from_number(alloc, 2),
            empty: Text::new(alloc),
        })
    }
}

// A text of this many bytes: one piece more than there are commas in it.
fn text_of(alloc: Global, size: u32) -> Result<Text, Failure> {
    let mut bytes: Vec<u8> = Vec::new(alloc);
    for place in 0..size {
        bytes.push(byte_at(place))?;
    }
    Text::from(alloc, &bytes)
}

// A text with each byte once.
fn every_byte(alloc: Global) -> Result<Text, Failure> {
    let mut bytes: Vec<u8> = Vec::new(alloc);
    for byte in 0..=255_u8 {
        bytes.push(byte)?;
    }
    Text::from(alloc, &bytes)
}

// A number as a text.
fn number(alloc: Global, value: u32) -> Text {
    Text::from_number(alloc, i64::from(value))
}

// The bytes of the text: pieces of six bytes.
fn byte_at(place: u32) -> u8 {
    match place % 7 {
        6 => b',',
        0 | 3 => b'a',
        1 | 4 => b'b',
        _ => b'c',
    }
}

/// One call.
pub fn once(alloc: Global, work: Work, s: &Sample) -> Result<Text, Failure> {
    match work {
        Work::Ascii => functions::ascii(alloc, &s.text, Some(&s.size)),
        Work::Char => functions::char(alloc, &[s.one.try_clone()?, s.one.try_clone()?], Limit::V2),
        Work::Extract => functions::extract(&s.text, Some(&s.two), Some(&s.size)),
        Work::Find => functions::find(alloc, &s.text, &s.part, None),
        Work::Justify => functions::justify(alloc, &s.empty, &s.size, Limit::V2),
        Work::Length => Ok(functions::length(alloc, &s.text, None)),
        Work::Pieces => Ok(functions::length(alloc, &s.text, Some(&s.comma))),
        Work::PieceAtEnd => functions::piece(alloc, &s.text, &s.comma, Some(&s.last), None),
        Work::PieceSet => set_last(alloc, s),
        Work::Reverse => functions::reverse(alloc, &s.text),
        Work::Translate => functions::translate(alloc, &s.text, &s.some, Some(&s.comma)),
        Work::TranslateAll => functions::translate(alloc, &s.text, &s.all, Some(&s.all)),
        Work::Join => binary(alloc, Op::Join, &s.text, &s.comma, Limit::V2),
    }
}

// The last piece is set.
fn set_last(alloc: Global, s: &Sample) -> Result<Text, Failure> {
    match functions::assigned_pieces(&s.comma, Some(&s.last), None)? {
        Some(range) => functions::set_piece(alloc, &s.text, &s.comma, range, &s.some, Limit::V2),
        None => Ok(s.text.try_clone()?),
    }
}
