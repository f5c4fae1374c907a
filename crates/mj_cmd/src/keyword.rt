// The words that commands begin with.

ghost use Rattle.std.specs.Prelude.{◌≡◌, IsTrue, bytes_eq, drop, map};
ghost use Rattle.mj_ast.specs.Commands.{capital, command_words, is_serial_word, looked_up, verb_of};
ghost use Rattle.mj_cmd.specs.Words.{are_capitals};

use mj_ast::{Keyword, Verb};

/// Whether the word is the spelling, which is in capitals, in any case.
fn is_spelled(word: &[u8], spelling: &[u8]) -> bool
    requires { IsTrue (are_capitals spelling.now) }
    ensures { result ≡ bytes_eq (map capital word.now) spelling.now }
{
    word.eq_ignore_ascii_case(spelling)
}

/// Whether the word makes a transaction SERIAL.
pub fn is_serial(word: &[u8]) -> bool
    ensures { result ≡ is_serial_word word.now }
{
    is_spelled(word, b"SERIAL") || is_spelled(word, b"S")
}

/// Finds what a word is, or the abbreviation of one, in any case.
pub fn verb_of(word: &[u8]) -> Option<Verb>
    ensures { result ≡ verb_of word.now }
{
    if is_spelled(word, b"SET") || is_spelled(word, b"S") {
        return Some(Verb::Of(Keyword::Set));
    }
    if is_spelled(word, b"WRITE") || is_spelled(word, b"W") {
        return Some(Verb::Of(Keyword::Write));
    }
    if is_spelled(word, b"HALT") {
        return Some(Verb::Of(Keyword::Halt));
    }
    if is_spelled(word, b"HANG") {
        return Some(Verb::Of(Keyword::Hang));
    }
    if is_spelled(word, b"H") {
        return Some(Verb::HaltOrHang);
    }
    if is_spelled(word, b"JOB") || is_spelled(word, b"J") {
        return Some(Verb::Of(Keyword::Job));
    }
    if is_spelled(word, b"LOCK") || is_spelled(word, b"L") {
        return Some(Verb::Of(Keyword::Lock));
    }
    verb_from_kill(word)
}

// Finds a word among those of the table from KILL on.
fn verb_from_kill(word: &[u8]) -> Option<Verb>
    ensures { result ≡ looked_up (map capital word.now) (drop 11 command_words) }
{
    if is_spelled(word, b"KILL") || is_spelled(word, b"K") {
        return Some(Verb::Of(Keyword::Kill));
    }
    if is_spelled(word, b"MERGE") || is_spelled(word, b"M") {
        return Some(Verb::Of(Keyword::Merge));
    }
    if is_spelled(word, b"IF") || is_spelled(word, b"I") {
        return Some(Verb::Of(Keyword::If));
    }
    if is_spelled(word, b"ELSE") || is_spelled(word, b"E") {
        return Some(Verb::Of(Keyword::Else));
    }
    if is_spelled(word, b"FOR") || is_spelled(word, b"F") {
        return Some(Verb::Of(Keyword::For));
    }
    verb_from_do(word)
}

// Finds a word among those from DO on.
fn verb_from_do(word: &[u8]) -> Option<Verb>
    ensures { result ≡ looked_up (map capital word.now) (drop 21 command_words) }
{
    if is_spelled(word, b"DO") || is_spelled(word, b"D") {
        return Some(Verb::Of(Keyword::Do));
    }
    if is_spelled(word, b"GOTO") || is_spelled(word, b"G") {
        return Some(Verb::Of(Keyword::Goto));
    }
    if is_spelled(word, b"QUIT") || is_spelled(word, b"Q") {
        return Some(Verb::Of(Keyword::Quit));
    }
    if is_spelled(word, b"NEW") || is_spelled(word, b"N") {
        return Some(Verb::Of(Keyword::New));
    }
    if is_spelled(word, b"OPEN") || is_spelled(word, b"O") {
        return Some(Verb::Of(Keyword::Open));
    }
    if is_spelled(word, b"USE") || is_spelled(word, b"U") {
        return Some(Verb::Of(Keyword::Use));
    }
    verb_from_close(word)
}

// Finds a word among those from CLOSE on.
fn verb_from_close(word: &[u8]) -> Option<Verb>
    ensures { result ≡ looked_up (map capital word.now) (drop 33 command_words) }
{
    if is_spelled(word, b"CLOSE") || is_spelled(word, b"C") {
        return Some(Verb::Of(Keyword::Close));
    }
    if is_spelled(word, b"READ") || is_spelled(word, b"R") {
        return Some(Verb::Of(Keyword::Read));
    }
    if is_spelled(word, b"TSTART") || is_spelled(word, b"TS") {
        return Some(Verb::Of(Keyword::TStart));
    }
    if is_spelled(word, b"TCOMMIT") || is_spelled(word, b"TC") {
        return Some(Verb::Of(Keyword::TCommit));
    }
    if is_spelled(word, b"TRESTART") || is_spelled(word, b"TRE") {
        return Some(Verb::Of(Keyword::TRestart));
    }
    if is_spelled(word, b"TROLLBACK") || is_spelled(word, b"TRO") {
        return Some(Verb::Of(Keyword::TRollback));
    }
    if is_spelled(word, b"BREAK") || is_spelled(word, b"B") {
        return Some(Verb::Of(Keyword::Break));
    }
    None
}
