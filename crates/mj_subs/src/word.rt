// Words, of which names and labels are made.

ghost use Rattle.std.specs.Prelude.{◌≡◌};
ghost use Rattle.std.specs.Char.{is_ascii_alphanumeric};
ghost use Rattle.std.specs.List.{list_all};
ghost use Rattle.mj_subs.specs.Name.{is_word};

/// The greatest number of bytes of a word.
pub const WORD_LIMIT: usize = 31;

/// Whether the bytes are a word: a letter or `%`, then letters and digits.
pub fn is_word(bytes: &[u8]) -> bool
    ensures { result ≡ is_word bytes.now }
{
    match bytes {
        [] => false,
        [first, rest @ ..] => {
            (first.is_ascii_alphabetic() || *first == b'%')
                && are_alphanumeric(rest)
                && rest.len() < WORD_LIMIT
        }
    }
}

fn are_alphanumeric(bytes: &[u8]) -> bool
    ensures { result ≡ list_all is_ascii_alphanumeric bytes.now }
{
    bytes.iter().all(|byte| byte.is_ascii_alphanumeric())
}
