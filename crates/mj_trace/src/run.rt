// Bytes at the front of others.

ghost use Rattle.std.specs.Prelude.{◌≡◌};
ghost use Rattle.mj_trace.specs.Reading.{is_in, front, behind_bytes, skipped, begins_with};

/// Which bytes stand in a run of them.
#[derive(Clone, Copy, PartialEq, Eq, Debug)]
pub(crate) enum Run {
    /// letters in lower case
    Letters,
    /// digits and signs
    Number,
    /// letters, digits and `%`
    Word,
    /// all but blanks
    Filled,
}

fn is_in(run: Run, byte: u8) -> bool
    ensures { result ≡ is_in run byte }
{
    match run {
        Run::Letters => byte.is_ascii_lowercase(),
        Run::Number => byte.is_ascii_digit() || byte == b'-',
        Run::Word => byte.is_ascii_alphanumeric() || byte == b'%',
        Run::Filled => byte != b' ',
    }
}

/// Splits off the bytes of such a run at the front, and gives what follows them too.
pub(crate) fn split(bytes: &[u8], run: Run) -> (&[u8], &[u8])
    ensures front { result.0.now ≡ front run bytes.now }
    ensures behind { result.1.now ≡ behind_bytes run bytes.now }
{
    for (place, byte) in bytes.iter().enumerate() {
        if !is_in(run, *byte) {
            return bytes.split_at(place);
        }
    }
    bytes.split_at(bytes.len())
}

/// Gives what follows the first byte.
pub(crate) fn skip(bytes: &[u8]) -> &[u8]
    ensures { result.now ≡ skipped bytes.now }
{
    match bytes {
        [] => bytes,
        [_, rest @ ..] => rest,
    }
}

/// Whether the first byte is this one.
pub(crate) fn begins_with(byte: u8, bytes: &[u8]) -> bool
    ensures { result ≡ begins_with byte bytes.now }
{
    match bytes {
        [] => false,
        [first, ..] => *first == byte,
    }
}
