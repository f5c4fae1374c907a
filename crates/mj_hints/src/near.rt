// Words that are nearly another.

ghost use Rattle.std.specs.Prelude.{◌≡◌, ◌∷◌, ◌&&◌, [], IfOk, MatchOption, bytes_eq, length, map};
ghost use Rattle.std.specs.Option.{option_map};
ghost use Rattle.mj_ast.specs.Commands.{capital};
ghost use Rattle.mj_hints.specs.Near.{is_near as the_near, is_slip as the_slip, is_slipped as the_slipped, is_swapped as the_swapped, near_of};

use std::alloc::{AllocError, Global};

/// The word in capitals.
pub fn capitals(alloc: Global, word: &[u8]) -> Result<Vec<u8>, AllocError>
    ensures { IfOk result (λ capitals. capitals.items ≡ map capital word.now) }
{
    let mut capitals = Vec::new(alloc);
    for byte in word {
        capitals.push(capital(*byte))?;
    }
    Ok(capitals)
}

// A letter as a capital.
fn capital(byte: u8) -> u8
    ensures { result ≡ capital byte }
{
    match byte {
        b'a'..=b'z' => byte - 32,
        _ => byte,
    }
}

/// The first of the names, which are in capitals as the word is, that the word nearly is: the front of it, or it with one slip.
pub fn nearest<'a>(word: &[u8], names: &[&'a [u8]]) -> Option<&'a [u8]>
    ensures { option_map (λ n. n.now) result ≡ near_of word.now (map (λ n. n.now) names.now) }
{
    let (_, mut rest) = names.split_at(0);
    'names: while let [name, others @ ..] = rest {
        if is_near(word, *name) {
            return Some(*name);
        }
        rest = others;
    }
    None
}

// Whether the word is the front of the name, or the name with one slip.
fn is_near(word: &[u8], name: &[u8]) -> bool
    ensures { result ≡ the_near word.now name.now }
{
    word.len() >= 3 && (is_slip(word, name) || name.starts_with(word))
}

// Whether the word is the name with one slip.
#[tactic(auto, using(crate::proofs::Slips::slip_none, crate::proofs::Slips::slip_one))]
fn is_slip(word: &[u8], name: &[u8]) -> bool
    ensures { result ≡ the_slip word.now name.now }
{
    let mut word = word;
    let mut name = name;
    'same: while let [b, bs @ ..] = word {
        let [c, cs @ ..] = name else {
            return bs.is_empty();
        };
        if *b != *c {
            return is_slipped(*b, bs, *c, cs);
        }
        word = bs;
        name = cs;
    }
    name.len() == 1
}

// Whether these words, of which the first bytes differ, are the same but for one slip.
fn is_slipped(b: u8, bs: &[u8], c: u8, cs: &[u8]) -> bool
    ensures { result ≡ the_slipped b bs.now c cs.now }
{
    bs == cs || follows(c, cs, bs) || follows(b, bs, cs) || is_swapped(b, bs, c, cs)
}

// Whether the bytes are this one and those behind it.
fn follows(first: u8, behind: &[u8], bytes: &[u8]) -> bool
    ensures { result ≡ bytes_eq bytes.now (first ∷ behind.now) }
{
    match bytes {
        [] => false,
        [byte, rest @ ..] => *byte == first && rest == behind,
    }
}

// Whether two bytes have changed places.
fn is_swapped(b: u8, bs: &[u8], c: u8, cs: &[u8]) -> bool
    ensures { result ≡ the_swapped b bs.now c cs.now }
{
    match (bs, cs) {
        ([d, bs @ ..], [e, cs @ ..]) => b == *e && *d == c && bs == cs,
        _ => false,
    }
}
