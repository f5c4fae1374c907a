// The bytes around a column.

ghost use Rattle.std.specs.Prelude.{◌≡◌, ◌≤◌, false, length, nat_eq, nat_lt, not, reverse, take, take_while};
ghost use Rattle.std.specs.List.{starts_with, ends_with, list_all};
ghost use Rattle.mj_ast.specs.Commands.{verb_of as the_verb_of};
ghost use Rattle.mj_ast.specs.LeftOut.{has_verb};
ghost use Rattle.mj_ast.specs.Tokens.{is_blank as the_blank};
ghost use Rattle.mj_hints.specs.Hints.{begins_blank as the_begins_blank, begins_joint as the_begins_joint, command_part as the_command_part};
ghost use Rattle.mj_hints.specs.Hints.{is_dot_byte, is_no_colon};
ghost use Rattle.mj_hints.specs.Hints.{is_alias as the_alias, is_rollback_verb, is_rolled as the_rolled};
ghost use Rattle.mj_hints.specs.Hints.{ends_blank as the_ends_blank, ends_joint as the_ends_joint, is_across as the_across, is_bare as the_bare};
ghost use Rattle.mj_hints.specs.Hints.{is_blank_inside as the_blank_inside, is_command as the_command, is_inside as the_inside, is_second_blank};
ghost use Rattle.mj_hints.specs.Hints.{joins as the_joins, joins_or_opens, lacks_blank as the_lacks_blank, lacks_blank_there as the_lacks_blank_there};
ghost use Rattle.mj_hints.specs.Hints.{last_part as the_last_part, may_be_bare as the_may_be_bare, open_behind as the_open_behind};
ghost use Rattle.mj_hints.specs.Hints.{parts_before as the_parts_before, past_blanks as the_past_blanks, solid_length as the_solid_length};
ghost use Rattle.mj_hints.specs.Hints.{begins_argument as the_begins_argument, begins_command as the_begins_command, begins_part as the_begins_part};
ghost use Rattle.mj_hints.specs.Hints.{is_verb_of_locals as the_verb_of_locals, lacks_part as the_lacks_part, takes_locals as the_takes_locals};

use mj_ast::{Keyword, Verb};
use mj_cmd::verb_of;

/// A space or a tab.
fn is_blank(byte: u8) -> bool
    ensures { result ≡ the_blank byte }
{
    byte == b' ' || byte == b'\t'
}

/// How many bytes stand behind the last blank.
fn solid_length(before: &[u8]) -> usize
    ensures value { result ≡ the_solid_length before.now }
    ensures within { result ≤ length before.now }
{
    before
        .iter()
        .rev()
        .take_while(|byte| !is_blank(**byte))
        .count()
}

/// The bytes behind the last blank.
fn last_part(before: &[u8]) -> &[u8]
    ensures { result.now ≡ the_last_part before.now }
{
    &before[before.len() - solid_length(before)..]
}

/// The bytes before the last blank.
fn parts_before(before: &[u8]) -> &[u8]
    ensures { result.now ≡ the_parts_before before.now }
{
    let solid = solid_length(before);
    if solid < before.len() {
        &before[..before.len() - solid - 1]
    } else {
        &before[..0]
    }
}

/// Whether a blank stands before the column, or nothing.
pub fn ends_blank(before: &[u8]) -> bool
    ensures { result ≡ the_ends_blank before.now }
{
    solid_length(before) == 0
}

/// Whether a blank stands there.
fn begins_blank(there: &[u8]) -> bool
    ensures { result ≡ the_begins_blank there.now }
{
    match there {
        [] => false,
        [byte, ..] => is_blank(*byte),
    }
}

/// The bytes behind the blanks in front.
fn past_blanks(there: &[u8]) -> &[u8]
    ensures { result.now ≡ the_past_blanks there.now }
{
    let (_, mut rest) = there.split_at(0);
    'blanks: while let [byte, behind @ ..] = rest {
        if !is_blank(*byte) {
            return rest;
        }
        rest = behind;
    }
    rest
}

/// The word of the command that a part of a line is.
fn command_part(part: &[u8]) -> &[u8]
    ensures { result.now ≡ the_command_part part.now }
{
    let skipped = dots(part);
    let word = &part[skipped..];
    let count = before_colon(word);
    &word[..count]
}

/// How many dots stand in front.
fn dots(part: &[u8]) -> usize
    ensures value { result ≡ length (take_while is_dot_byte part.now) }
    ensures within { result ≤ length part.now }
{
    part.iter().take_while(|byte| **byte == b'.').count()
}

/// How many bytes stand before a `:`, or how many there are.
fn before_colon(word: &[u8]) -> usize
    ensures value { result ≡ length (take_while is_no_colon word.now) }
    ensures within { result ≤ length word.now }
{
    word.iter().take_while(|byte| **byte != b':').count()
}

/// Whether a command may stand without arguments.
fn may_be_bare(verb: Option<Verb>) -> bool
    ensures { result ≡ the_may_be_bare verb }
{
    match verb {
        None => false,
        Some(verb) => mj_cmd::may_be_bare(verb),
    }
}

/// Whether a part of a line is the word of a command.
fn is_command(part: &[u8]) -> bool
    ensures { result ≡ the_command part.now }
{
    verb_of(command_part(part)).is_some()
}

/// Whether it is that of a command that may stand without arguments.
fn is_bare(part: &[u8]) -> bool
    ensures { result ≡ the_bare part.now }
{
    may_be_bare(verb_of(command_part(part)))
}

/// Whether a second blank is wanted behind a command, as what stands behind the one counts as its argument: this word, or the one before the column.
pub fn lacks_blank(before: &[u8], word: &[u8]) -> bool
    ensures { result ≡ the_lacks_blank before.now word.now }
{
    let parts = parts_before(before);
    let part = last_part(parts);
    ends_blank(before)
        && ((is_bare(part) && is_command(word))
            || (is_command(part) && is_bare(last_part(parts_before(parts)))))
}

/// Whether it is wanted so, and a blank stands there.
pub fn lacks_blank_there(before: &[u8], there: &[u8]) -> bool
    ensures { result ≡ the_lacks_blank_there before.now there.now }
{
    begins_blank(there)
        && (is_command(last_part(before)) && is_bare(last_part(parts_before(before))))
}

/// Whether a second blank stands before the arguments of a command.
pub fn is_blank_twice(before: &[u8], there: &[u8]) -> bool
    ensures { result ≡ is_second_blank before.now there.now }
{
    begins_blank(there) && (ends_blank(before) && is_command(last_part(parts_before(before))))
}

/// Whether the word of a command stands before the column.
pub fn ends_command(before: &[u8]) -> bool
    ensures { result ≡ the_command (the_last_part before.now) }
{
    is_command(last_part(before))
}

/// Whether a verb is that of TROLLBACK.
fn is_rollback(verb: Option<Verb>) -> bool
    ensures { result ≡ is_rollback_verb verb }
{
    match verb {
        Some(Verb::Of(Keyword::TRollback)) => true,
        _ => false,
    }
}

/// Whether an argument of TROLLBACK would stand there.
pub fn is_rolled(before: &[u8]) -> bool
    ensures { result ≡ the_rolled before.now }
{
    ends_blank(before) && is_rollback(verb_of(command_part(last_part(parts_before(before)))))
}

/// Whether the first argument of a command would stand there.
pub fn begins_argument(before: &[u8]) -> bool
    ensures { result ≡ the_begins_argument before.now }
{
    ends_blank(before) && is_command(last_part(parts_before(before)))
}

/// Whether a command would stand there.
pub fn begins_command(before: &[u8]) -> bool
    ensures { result ≡ the_begins_command before.now }
{
    ends_blank(before) && !is_command(last_part(parts_before(before)))
}

/// Whether a part of an argument would begin there.
pub fn begins_part(before: &[u8]) -> bool
    ensures { result ≡ the_begins_part before.now }
{
    begins_argument(before) || (ends_joint(before) || before.ends_with(b"^"))
}

/// Whether the verb is that of a command whose arguments are locals without subscripts.
fn is_verb_of_locals(verb: Option<Verb>) -> bool
    ensures { result ≡ the_verb_of_locals verb }
{
    match verb {
        Some(Verb::Of(Keyword::New | Keyword::TStart)) => true,
        _ => false,
    }
}

/// Whether an argument of such a command would stand there, or go on there.
pub fn takes_locals(before: &[u8]) -> bool
    ensures { result ≡ the_takes_locals before.now }
{
    is_verb_of_locals(verb_of(command_part(last_part(parts_before(before)))))
}

/// Whether a `*` stands there where an argument or an actual begins.
pub fn is_alias(before: &[u8], there: &[u8]) -> bool
    ensures { result ≡ the_alias before.now there.now }
{
    there.starts_with(b"*")
        && ((before.ends_with(b"(") || before.ends_with(b","))
            || (ends_blank(before) && is_command(last_part(parts_before(before)))))
}

/// Whether a byte joins two parts of arguments.
fn joins(byte: u8) -> bool
    ensures { result ≡ the_joins byte }
{
    matches!(
        byte,
        b'=' | b'+'
            | b'-'
            | b'*'
            | b'/'
            | b'\\'
            | b'#'
            | b'_'
            | b'<'
            | b'>'
            | b'['
            | b']'
            | b'&'
            | b'!'
            | b'\''
            | b','
            | b':'
    )
}

/// Whether such a byte stands there.
fn begins_joint(there: &[u8]) -> bool
    ensures { result ≡ the_begins_joint there.now }
{
    match there {
        [] => false,
        [byte, ..] => joins(*byte),
    }
}

/// Whether such a byte, or a `(`, stands before the column.
fn ends_joint(before: &[u8]) -> bool
    ensures { result ≡ the_ends_joint before.now }
{
    match before.split_last() {
        None => false,
        Some((byte, _)) => *byte == b'(' || joins(*byte),
    }
}

/// Whether a blank stands inside arguments.
pub fn is_blank_inside(before: &[u8], there: &[u8]) -> bool
    ensures { result ≡ the_blank_inside before.now there.now }
{
    (begins_blank(there) && (begins_joint(past_blanks(there)) || ends_joint(before)))
        || (ends_blank(before) && begins_joint(there))
}

/// Whether what joins two parts stands there, and nothing is before it to be joined.
pub fn lacks_part(before: &[u8], there: &[u8]) -> bool
    ensures { result ≡ the_lacks_part before.now there.now }
{
    begins_joint(there) && begins_part(before)
}

/// Whether a `(` before the column is open.
pub fn is_inside(before: &[u8]) -> bool
    ensures { result ≡ the_inside before.now }
{
    open_behind(before) > 0
}

/// How many parentheses are open behind some bytes, outside of quotes.
fn open_behind(bytes: &[u8]) -> usize
    ensures value { result ≡ the_open_behind false 0 bytes.now }
{
    let mut quoted = false;
    let mut open: usize = 0;
    let (_, mut rest) = bytes.split_at(0);
    'bytes: while let [byte, behind @ ..] = rest {
        if *byte == b'"' {
            quoted = !quoted;
        } else if !quoted && *byte == b'(' {
            open += 1;
        } else if !quoted && *byte == b')' {
            open = open.saturating_sub(1);
        }
        rest = behind;
    }
    open
}

/// Whether these bytes stand there, or the first before the column and the others there.
pub fn is_across(before: &[u8], there: &[u8], left: &[u8], right: &[u8], both: &[u8]) -> bool
    ensures { result ≡ the_across before.now there.now left.now right.now both.now }
{
    (before.ends_with(left) && there.starts_with(right)) || there.starts_with(both)
}

/// Whether all bytes are blanks.
pub fn are_blanks(bytes: &[u8]) -> bool
    ensures { result ≡ list_all the_blank bytes.now }
{
    bytes.iter().all(|byte| is_blank(*byte))
}
