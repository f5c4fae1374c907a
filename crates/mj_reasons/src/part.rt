// The parts of a line of a listing, and of a line of steps, byte by byte.

ghost use Rattle.std.specs.Prelude.{◌≡◌, ◌≤◌, ◌+◌, ◌-◌, IfNone, IfSome, length};
ghost use Rattle.mj_reasons.specs.Parts.{after as the_after, behind_escape as the_behind_escape, behind_quote as the_behind_quote};
ghost use Rattle.mj_reasons.specs.Parts.{behind_subscript as the_behind_subscript, in_late as the_in_late, in_number as the_in_number};
ghost use Rattle.mj_reasons.specs.Parts.{in_quotes as the_in_quotes, in_step as the_in_step, in_subscript as the_in_subscript, in_word as the_in_word};
ghost use Rattle.mj_reasons.specs.Parts.{is_digit as the_digit, is_hex as the_hex, is_letter as the_letter, is_whole as the_whole};
ghost use Rattle.mj_reasons.specs.Parts.{one_more, reached as the_reached, then_part};

/// The most digits behind the first of a number.
const MORE: u8 = 17;

/// Where a line stands: what was read of it, and so what may come next.
#[derive(Clone, Copy)]
pub enum Part {
    /// at the front of a line of a listing
    Caret,
    /// behind its `^`
    Word,
    /// in the word
    Letters,
    /// where a subscript begins
    Subscript,
    /// behind the `-` of a number
    Minus,
    /// in a number that may have so many digits more
    Digits(u8),
    /// behind the `)`
    Closed,
    /// behind the `=`
    Value,
    /// in the quotes of a subscript, or of the value
    Quoted { value: bool },
    /// behind a quote in these, which closes them if no other follows
    Quote { value: bool },
    /// behind a `\` in them
    Escape { value: bool },
    /// behind its first digit
    Hex { value: bool },
    /// at the front of a line of steps
    Job,
    /// in the number of a job, which is this as far as it was read
    Number(u8),
    /// behind so many bytes of ` late`
    Late(u8),
}

/// How many bytes of a line are read, and where it stands behind them: all, or up to the first that can't come next.
#[tactic(auto, using(crate::proofs::Passing::both))]
pub fn reached(begins: Part, line: &[u8]) -> (usize, Part)
    ensures value { result ≡ the_reached begins line.now }
    ensures within { result.0 ≤ length line.now }
{
    let mut part = begins;
    let mut rest = line;
    'bytes: while let Some((next, behind)) = read_on(part, rest) {
        part = next;
        rest = behind;
    }
    (line.len() - rest.len(), part)
}

// Where a line stands behind one byte more, and what is left of it, if that byte can come next.
#[tactic(auto, using(crate::proofs::Passing::goes_on, crate::proofs::Passing::goes_up))]
fn read_on(part: Part, rest: &[u8]) -> Option<(Part, &[u8])>
    ensures ends { IfNone result (the_reached part rest.now ≡ (0, part)) }
    ensures goes { IfSome result (λ x. the_reached part rest.now ≡ one_more (the_reached x.0 x.1.now)) }
    ensures shorter { IfSome result (λ x. length rest.now ≡ length x.1.now + 1) }
{
    match rest {
        [] => None,
        [byte, behind @ ..] => match after(part, *byte) {
            None => None,
            Some(next) => Some((next, behind)),
        },
    }
}

/// Whether a line may end there.
pub fn is_whole(part: Part) -> bool
    ensures { result ≡ the_whole part }
{
    match part {
        Part::Quote { value } => value,
        Part::Number(_) => true,
        Part::Late(count) => count == 5,
        _ => false,
    }
}

// Where a line stands behind one byte more, if that can come next.
fn after(part: Part, byte: u8) -> Option<Part>
    ensures { result ≡ the_after part byte }
{
    match part {
        Part::Caret => then(byte == b'^', Part::Word),
        Part::Word => then(is_letter(byte) || byte == b'%', Part::Letters),
        Part::Letters => in_word(byte),
        Part::Subscript => in_subscript(byte),
        Part::Minus => then(is_digit(byte) && byte != b'0', Part::Digits(MORE)),
        Part::Digits(more) => in_number(more, byte),
        Part::Closed => then(byte == b'=', Part::Value),
        Part::Value => then(byte == b'"', Part::Quoted { value: true }),
        Part::Quoted { value } => in_quotes(value, byte),
        Part::Quote { value } => behind_quote(value, byte),
        Part::Escape { value } => behind_escape(value, byte),
        Part::Hex { value } => then(is_hex(byte), Part::Quoted { value }),
        Part::Job => then(is_digit(byte) && byte != b'0', Part::Number(digit(byte))),
        Part::Number(number) => in_step(number, byte),
        Part::Late(count) => in_late(count, byte),
    }
}

// The part, if the byte is one that may come.
fn then(may: bool, part: Part) -> Option<Part>
    ensures { result ≡ then_part may part }
{
    if may { Some(part) } else { None }
}

// Behind a byte of a word.
fn in_word(byte: u8) -> Option<Part>
    ensures { result ≡ the_in_word byte }
{
    if is_letter(byte) || is_digit(byte) {
        Some(Part::Letters)
    } else if byte == b'(' {
        Some(Part::Subscript)
    } else {
        then(byte == b'=', Part::Value)
    }
}

// Where a subscript begins.
fn in_subscript(byte: u8) -> Option<Part>
    ensures { result ≡ the_in_subscript byte }
{
    if byte == b'"' {
        Some(Part::Quoted { value: false })
    } else if byte == b'-' {
        Some(Part::Minus)
    } else if byte == b'0' {
        Some(Part::Digits(0))
    } else {
        then(is_digit(byte), Part::Digits(MORE))
    }
}

// In a number that may have so many digits more.
fn in_number(more: u8, byte: u8) -> Option<Part>
    ensures { result ≡ the_in_number more byte }
{
    if !is_digit(byte) {
        behind_subscript(byte)
    } else if more == 0 {
        None
    } else {
        Some(Part::Digits(more - 1))
    }
}

// Behind a subscript.
fn behind_subscript(byte: u8) -> Option<Part>
    ensures { result ≡ the_behind_subscript byte }
{
    if byte == b',' {
        Some(Part::Subscript)
    } else {
        then(byte == b')', Part::Closed)
    }
}

// In quotes.
fn in_quotes(value: bool, byte: u8) -> Option<Part>
    ensures { result ≡ the_in_quotes value byte }
{
    if byte == b'"' {
        Some(Part::Quote { value })
    } else if byte == b'\\' {
        Some(Part::Escape { value })
    } else {
        then(byte >= 32 && byte < 127, Part::Quoted { value })
    }
}

// Behind a quote in quotes.
fn behind_quote(value: bool, byte: u8) -> Option<Part>
    ensures { result ≡ the_behind_quote value byte }
{
    if byte == b'"' {
        Some(Part::Quoted { value })
    } else if value {
        None
    } else {
        behind_subscript(byte)
    }
}

// Behind a `\` in quotes.
fn behind_escape(value: bool, byte: u8) -> Option<Part>
    ensures { result ≡ the_behind_escape value byte }
{
    if byte == b'\\' {
        Some(Part::Quoted { value })
    } else {
        then(is_hex(byte), Part::Hex { value })
    }
}

// In the number of a job, which is this as far as it was read.
fn in_step(number: u8, byte: u8) -> Option<Part>
    ensures { result ≡ the_in_step number byte }
{
    if !is_digit(byte) {
        return then(byte == b' ', Part::Late(1));
    }
    let next = u32::from(number) * 10 + u32::from(digit(byte));
    if next <= 255 {
        Some(Part::Number(next as u8))
    } else {
        None
    }
}

// Behind so many bytes of ` late`.
fn in_late(count: u8, byte: u8) -> Option<Part>
    ensures { result ≡ the_in_late count byte }
{
    match count {
        1 => then(byte == b'l', Part::Late(2)),
        2 => then(byte == b'a', Part::Late(3)),
        3 => then(byte == b't', Part::Late(4)),
        4 => then(byte == b'e', Part::Late(5)),
        _ => None,
    }
}

/// Whether it is a letter.
pub fn is_letter(byte: u8) -> bool
    ensures { result ≡ the_letter byte }
{
    (byte >= b'A' && byte <= b'Z') || (byte >= b'a' && byte <= b'z')
}

/// Whether it is a digit.
pub fn is_digit(byte: u8) -> bool
    ensures { result ≡ the_digit byte }
{
    byte >= b'0' && byte <= b'9'
}

// Whether it is a hexadecimal digit of lower case.
fn is_hex(byte: u8) -> bool
    ensures { result ≡ the_hex byte }
{
    is_digit(byte) || (byte >= b'a' && byte <= b'f')
}

// The number of a digit.
fn digit(byte: u8) -> u8
    ensures { result ≡ byte - 48 }
{
    byte.saturating_sub(48)
}
