// Which phrase helps where a line is refused.

ghost use Rattle.std.specs.Prelude.{◌≡◌, ◌||◌, IfOk, bytes_eq, map};
ghost use Rattle.std.specs.Option.{option_map};
ghost use Rattle.mj_ast.specs.Commands.{capital};
ghost use Rattle.mj_lex.specs.Seen.{token_seen};
ghost use Rattle.mj_hints.specs.Hints.{Said, command_help, construct_help, end_help, foreign_help, front_there, function_help, help_at, help_seen};
ghost use Rattle.mj_hints.specs.Hints.{is_brace as the_brace, is_comment_mark as the_comment_mark, is_function as the_function};
ghost use Rattle.mj_hints.specs.Hints.{is_clock as the_clock, is_column as the_column, is_kept as the_kept, is_mark, is_raised as the_raised};
ghost use Rattle.mj_hints.specs.Hints.{is_increase as the_increase, is_one as the_one, is_trap as the_trap, is_unequal as the_unequal, named_help};
ghost use Rattle.mj_hints.specs.Hints.{lacks_set as the_lacks_set, is_byte_function as the_byte_function, is_list as the_list, is_system as the_system};
ghost use Rattle.mj_hints.specs.Hints.{is_told_of_devices as the_told_of_devices, unknown_function as the_unknown_function};
ghost use Rattle.mj_hints.specs.Hints.{byte_help, call_help, comment_help, digits_help, name_help, near_function_help, other_variable_help, place_help};
ghost use Rattle.mj_hints.specs.Hints.{sign_help, text_help, untrapped_function_help, word_help};
ghost use Rattle.mj_hints.specs.Hints.{may_hide as the_hidden, nearly_or, other_function_help, plain_help, slice_of, token_help, variable_help};
ghost use Rattle.mj_hints.specs.Near.{near_of};

use crate::around::{
    are_blanks, begins_argument, begins_command, begins_part, ends_blank, ends_command, is_across,
    is_alias, is_blank_inside, is_blank_twice, is_inside, is_rolled, lacks_blank,
    lacks_blank_there, lacks_part, takes_locals,
};
use crate::names::{COMMANDS, FUNCTIONS, VARIABLES};
use crate::near::{capitals, nearest};
use crate::phrases::Hint;
use crate::text::from;
use crate::token::front;
use mj_ast::{Construct, Sign};
use mj_expr::callee;
use mj_lex::Token;
use std::alloc::{AllocError, Global};

/// The most digits of a number.
const NUMBER: usize = 18;

/// What helps where a line can't go on behind some bytes with what stands there, which the language leaves out by this name or by none.
#[tactic(auto, unfolding(crate::specs::Hints::help_at))]
pub fn hint_at(
    alloc: Global,
    construct: Option<Construct>,
    before: &[u8],
    there: &[u8],
) -> Result<Option<Hint>, AllocError>
    ensures { IfOk result (λ h. option_map help_seen h ≡ help_at construct before.now there.now) }
{
    let front = front(alloc, there)?;
    if may_hide(construct)
        && (lacks_blank(before, slice(front)) || lacks_blank_there(before, there))
    {
        return Ok(Some(Hint::TwoBlanks));
    }
    if lacks_set(construct, before, there, slice(front)) {
        return Ok(Some(Hint::Valued));
    }
    if let Some(hint) = foreign(before, there) {
        return Ok(Some(hint));
    }
    match construct {
        None => Ok(plain(before, there, front)),
        Some(construct) => Ok(Some(instead_of(alloc, construct, slice(front))?)),
    }
}

// Whether a command may stand there that counts as an argument, for want of a blank: not where something else is left out by its name.
fn may_hide(construct: Option<Construct>) -> bool
    ensures { result ≡ the_hidden construct }
{
    match construct {
        None | Some(Construct::Command) => true,
        Some(_) => false,
    }
}

// Whether a value is given, and no SET stands before it: to the word that stands there, which is no command's, or to the one before the column, which is.
fn lacks_set(construct: Option<Construct>, before: &[u8], there: &[u8], word: &[u8]) -> bool
    ensures { result ≡ the_lacks_set construct before.now there.now word.now }
{
    match construct {
        None => there.starts_with(b":=") || (there.starts_with(b"=") && ends_command(before)),
        Some(Construct::Command) => from(there, word.len()).starts_with(b"="),
        Some(_) => false,
    }
}

// The bytes of what stands there.
fn slice<'a>(front: Option<(Token<'a>, &'a [u8])>) -> &'a [u8]
    ensures { result.now ≡ slice_of (option_map (λ x. (token_seen x.0, x.1.now)) front.entry) }
{
    match front {
        None => b"",
        Some((_, slice)) => slice,
    }
}

// What helps at signs that other languages have.
fn foreign(before: &[u8], there: &[u8]) -> Option<Hint>
    ensures { option_map help_seen result ≡ foreign_help before.now there.now }
{
    if there.starts_with(b"\xEF\xBB\xBF") {
        Some(Hint::Mark)
    } else if is_comment_mark(before, there) {
        Some(Hint::Semicolon)
    } else if is_brace(there) {
        Some(Hint::Braces)
    } else if is_across(before, there, b"<", b"=", b"<=") {
        Some(Hint::AtMost)
    } else if is_across(before, there, b">", b"=", b">=") {
        Some(Hint::AtLeast)
    } else if is_unequal(before, there) {
        Some(Hint::Unequal)
    } else if is_across(before, there, b"=", b"=", b"==") {
        Some(Hint::OneEquals)
    } else if is_across(before, there, b"&", b"&", b"&&") {
        Some(Hint::And)
    } else if there.starts_with(b"||") {
        Some(Hint::Or)
    } else if is_increase(there) {
        Some(Hint::Increase)
    } else {
        None
    }
}

fn is_comment_mark(before: &[u8], there: &[u8]) -> bool
    ensures { result ≡ the_comment_mark before.now there.now }
{
    is_across(before, there, b"/", b"/", b"//")
        || (there.starts_with(b"/*") || (are_blanks(before) && there.starts_with(b"#")))
}

fn is_brace(there: &[u8]) -> bool
    ensures { result ≡ the_brace there.now }
{
    there.starts_with(b"{") || there.starts_with(b"}")
}

fn is_unequal(before: &[u8], there: &[u8]) -> bool
    ensures { result ≡ the_unequal before.now there.now }
{
    is_across(before, there, b"!", b"=", b"!=") || is_across(before, there, b"<", b">", b"<>")
}

fn is_increase(there: &[u8]) -> bool
    ensures { result ≡ the_increase there.now }
{
    there.starts_with(b"+=")
        || (there.starts_with(b"-=") || (there.starts_with(b"++") || there.starts_with(b"--")))
}

// What helps at blanks inside arguments, or else at the token that stands there.
fn plain<'a>(before: &[u8], there: &'a [u8], front: Option<(Token<'a>, &'a [u8])>) -> Option<Hint>
    requires { option_map (λ x. (token_seen x.0, x.1.now)) front ≡ front_there there.now }
    ensures { option_map help_seen result ≡ plain_help before.now there.now }
{
    if is_blank_twice(before, there) {
        return Some(Hint::OneBlank);
    }
    if is_rolled(before) {
        return Some(Hint::Rollback);
    }
    if is_alias(before, there) {
        return Some(Hint::Alias);
    }
    if before.ends_with(b"!") {
        return Some(Hint::NewLine);
    }
    if is_blank_inside(before, there) {
        return Some(Hint::NoBlank);
    }
    if there.starts_with(b"'") {
        return Some(Hint::Apostrophe);
    }
    if there.starts_with(b"[") {
        return Some(Hint::Brackets);
    }
    if there.starts_with(b"%") {
        return Some(Hint::Remainder);
    }
    if is_column(there) {
        return Some(Hint::Column);
    }
    if lacks_part(before, there) {
        return Some(Hint::Fewer);
    }
    at_token(front, before)
}

// Whether a value is given to `$X` or `$Y` there.
fn is_column(there: &[u8]) -> bool
    ensures { result ≡ the_column there.now }
{
    there.starts_with(b"$X=")
        || (there.starts_with(b"$x=") || (there.starts_with(b"$Y=") || there.starts_with(b"$y=")))
}

// What helps at a token.
fn at_token<'a>(front: Option<(Token<'a>, &'a [u8])>, before: &[u8]) -> Option<Hint>
    ensures { option_map help_seen result ≡ token_help (option_map (λ x. (token_seen x.0, x.1.now)) front.entry) before.now }
{
    let Some((token, _)) = front else {
        return Some(at_end(is_inside(before)));
    };
    match token {
        Token::Comment(_) => Some(at_comment(before)),
        Token::Unclosed(_) => Some(Hint::Quote),
        Token::Quoted(_) => Some(at_text(before)),
        Token::Blank => Some(at_end(is_inside(before))),
        Token::Sign(sign) => at_sign(sign, before),
        Token::Digits(digits) => Some(at_digits(digits, before)),
        Token::Special(_) | Token::Called(_) => Some(at_place(before)),
        Token::Invoked(_) | Token::Numbered(_) => Some(at_call(before)),
        Token::Dollars => None,
        Token::Word(_) => at_word(before),
        Token::Stray(byte) => at_byte(byte),
    }
}

// What helps at what may stand nowhere there: a name is wanted, or a command, or what joins both.
fn at_place(before: &[u8]) -> Hint
    ensures { help_seen result ≡ place_help before.now }
{
    if begins_part(before) {
        Hint::NameThere
    } else if begins_command(before) {
        Hint::CommandThere
    } else {
        Hint::Apart
    }
}

// What helps at the call of a function.
fn at_call(before: &[u8]) -> Hint
    ensures { help_seen result ≡ call_help before.now }
{
    if begins_command(before) {
        Hint::Invoked
    } else {
        at_place(before)
    }
}

// What helps at a text in quotes.
fn at_text(before: &[u8]) -> Hint
    ensures { help_seen result ≡ text_help before.now }
{
    if begins_part(before) {
        Hint::NameThere
    } else {
        Hint::Joined
    }
}

// What helps at digits.
fn at_digits(digits: &[u8], before: &[u8]) -> Hint
    ensures { help_seen result ≡ digits_help digits.now before.now }
{
    if digits.len() > NUMBER {
        Hint::LongNumber
    } else {
        at_place(before)
    }
}

// What helps at a `(` and a `^`.
fn at_name(before: &[u8]) -> Hint
    ensures { help_seen result ≡ name_help before.now }
{
    if takes_locals(before) {
        Hint::Locals
    } else {
        at_place(before)
    }
}

// What helps at a word, which is none of a command where one may begin.
fn at_word(before: &[u8]) -> Option<Hint>
    ensures { option_map help_seen result ≡ word_help before.now }
{
    if begins_argument(before) {
        Some(Hint::TwoBlanks)
    } else if ends_blank(before) || begins_part(before) {
        None
    } else {
        Some(Hint::Apart)
    }
}

// What helps at a comment.
fn at_comment(before: &[u8]) -> Hint
    ensures { help_seen result ≡ comment_help before.now }
{
    if ends_blank(before) {
        at_end(is_inside(before))
    } else {
        Hint::CommentBlank
    }
}

// What helps at a byte that begins nothing: a `$` lacks its word.
fn at_byte(byte: u8) -> Option<Hint>
    ensures { option_map help_seen result ≡ byte_help byte }
{
    if byte == b'$' {
        None
    } else {
        Some(Hint::Stray)
    }
}

// What helps at a sign.
fn at_sign(sign: Sign, before: &[u8]) -> Option<Hint>
    ensures { option_map help_seen result ≡ sign_help sign before.now }
{
    match sign {
        Sign::Close => {
            if is_inside(before) {
                Some(Hint::Fewer)
            } else {
                Some(Hint::Closed)
            }
        }
        Sign::Dot => Some(Hint::Dotted),
        Sign::Underscore => Some(Hint::Underscored),
        Sign::Open | Sign::Caret => Some(at_name(before)),
        _ => None,
    }
}

// What helps where a line ends too early.
fn at_end(inside: bool) -> Hint
    ensures { help_seen result ≡ end_help inside }
{
    if inside {
        Hint::Parenthesis
    } else {
        Hint::Ends
    }
}

// What is written instead of a construct that is left out, by the word that stands there.
fn instead_of(alloc: Global, construct: Construct, word: &[u8]) -> Result<Hint, AllocError>
    ensures { IfOk result (λ h. help_seen h ≡ construct_help construct word.now) }
{
    let word = capitals(alloc, word)?;
    let hint = match construct {
        Construct::Function => function(&word),
        Construct::Variable => variable(&word),
        Construct::Command => command(&word),
        _ => Hint::Instead(construct),
    };
    drop(word);
    Ok(hint)
}

// Whether the word, in capitals, is this one, or its abbreviation.
fn is_one(word: &[u8], full: &[u8], short: &[u8]) -> bool
    ensures { result ≡ the_one word.now full.now short.now }
{
    word == full || word == short
}

fn is_trap(word: &[u8]) -> bool
    ensures { result ≡ the_trap word.now }
{
    is_one(word, b"$ECODE", b"$EC")
        || (is_one(word, b"$ETRAP", b"$ET")
            || (is_one(word, b"$STACK", b"$ST")
                || (is_one(word, b"$ESTACK", b"$ES")
                    || (is_one(word, b"$ZTRAP", b"$ZT") || is_one(word, b"$ZSTATUS", b"$ZS")))))
}

fn is_clock(word: &[u8]) -> bool
    ensures { result ≡ the_clock word.now }
{
    is_one(word, b"$HOROLOG", b"$H")
        || (is_one(word, b"$ZHOROLOG", b"$ZH") || word == b"$ZUT".as_slice())
}

fn is_raised(word: &[u8]) -> bool
    ensures { result ≡ the_raised word.now }
{
    is_one(word, b"$INCREMENT", b"$I") || is_one(word, b"$ZINCREMENT", b"$ZINCR")
}

// Whether it is the word of a command that keeps what is below.
fn is_kept(word: &[u8]) -> bool
    ensures { result ≡ the_kept word.now }
{
    is_one(word, b"ZKILL", b"ZK") || is_one(word, b"ZWITHDRAW", b"ZWI")
}

fn is_function(word: &[u8]) -> bool
    ensures { result ≡ the_function word.now }
{
    match word {
        [] => false,
        [_, name @ ..] => callee(name).is_some(),
    }
}

// Whether it is the name of a function with a `Z` before it.
fn is_byte_function(word: &[u8]) -> bool
    ensures { result ≡ the_byte_function word.now }
{
    word.starts_with(b"$Z") && is_function(from(word, 1))
}

fn is_system(word: &[u8]) -> bool
    ensures { result ≡ the_system word.now }
{
    is_one(word, b"$SYSTEM", b"$SY") || word == b"$STORAGE".as_slice()
}

// Whether it tells how a READ or a device fared.
fn is_told_of_devices(word: &[u8]) -> bool
    ensures { result ≡ the_told_of_devices word.now }
{
    is_one(word, b"$KEY", b"$K") || word == b"$DEVICE".as_slice()
}

fn is_list(word: &[u8]) -> bool
    ensures { result ≡ the_list word.now }
{
    word.starts_with(b"$LIST")
        || (is_one(word, b"$LB", b"$LI")
            || (is_one(word, b"$LG", b"$LL") || is_one(word, b"$LF", b"$LTS")))
}

// What helps at a word that is nearly one of these names, or else this.
fn near_or(word: &[u8], names: &[&'static [u8]], other: Hint) -> Hint
    requires { help_seen other ≡ Said other }
    ensures { help_seen result ≡ nearly_or (near_of word.now (map (λ n. n.now) names.now)) other }
{
    match nearest(word, names) {
        Some(name) => Hint::Near(name),
        None => other,
    }
}

// What helps at a variable that is left out.
fn variable(word: &[u8]) -> Hint
    ensures { help_seen result ≡ variable_help word.now }
{
    if is_clock(word) {
        Hint::Clock
    } else if is_trap(word) {
        Hint::Trap
    } else if is_one(word, b"$PRINCIPAL", b"$P") {
        Hint::Principal
    } else if is_function(word) {
        Hint::Directly
    } else if is_one(word, b"$ZEOF", b"$ZEO") {
        Hint::InputEnd
    } else if word.starts_with(b"$Z") {
        Hint::Passed
    } else {
        other_variable(word)
    }
}

// What helps at any other variable.
fn other_variable(word: &[u8]) -> Hint
    ensures { help_seen result ≡ other_variable_help word.now }
{
    if is_system(word) {
        Hint::System
    } else if is_told_of_devices(word) {
        Hint::Device
    } else if word == b"$QUIT".as_slice() {
        Hint::Asked
    } else {
        near_or(word, &VARIABLES, Hint::Variables)
    }
}

// What helps at a function that is left out.
fn function(word: &[u8]) -> Hint
    ensures { help_seen result ≡ function_help word.now }
{
    if is_one(word, b"$TEXT", b"$T") {
        Hint::Lines
    } else if is_one(word, b"$RANDOM", b"$R") {
        Hint::Chance
    } else if is_one(word, b"$FNUMBER", b"$FN") {
        Hint::Format
    } else if is_raised(word) {
        Hint::Raised
    } else if is_one(word, b"$NEXT", b"$N") {
        Hint::Next
    } else if is_one(word, b"$ZPREVIOUS", b"$ZP") {
        Hint::Back
    } else if is_one(word, b"$ZDATE", b"$ZD") {
        Hint::Dated
    } else if is_one(word, b"$ZCONVERT", b"$ZCO") {
        Hint::Letters
    } else {
        other_function(word)
    }
}

// What helps at any other function.
fn other_function(word: &[u8]) -> Hint
    ensures { help_seen result ≡ other_function_help word.now }
{
    if is_trap(word) {
        Hint::Trap
    } else {
        untrapped_function(word)
    }
}

// What helps at one that has nothing to do with faults.
fn untrapped_function(word: &[u8]) -> Hint
    ensures { help_seen result ≡ untrapped_function_help word.now }
{
    if is_one(word, b"$VIEW", b"$V") {
        Hint::System
    } else if is_list(word) {
        Hint::Lists
    } else if word == b"$CASE".as_slice() {
        Hint::Cases
    } else {
        near_function(word)
    }
}

// What helps at a function that is nearly another, or none.
fn near_function(word: &[u8]) -> Hint
    ensures { help_seen result ≡ near_function_help word.now }
{
    let other = unknown_function(word);
    near_or(word, &FUNCTIONS, other)
}

// What helps at a function that is nearly no other.
fn unknown_function(word: &[u8]) -> Hint
    ensures value { result ≡ the_unknown_function word.now }
    ensures said { help_seen result ≡ Said result }
{
    if is_byte_function(word) {
        Hint::Bytes
    } else if word.starts_with(b"$Z") {
        Hint::PassedFunctions
    } else {
        Hint::Functions
    }
}

// What helps at a word that is no command's.
fn command(word: &[u8]) -> Hint
    ensures { help_seen result ≡ command_help word.now }
{
    if is_one(word, b"XECUTE", b"X") {
        Hint::Execute
    } else if is_one(word, b"ZWRITE", b"ZWR") {
        Hint::Listed
    } else if is_kept(word) {
        Hint::Kept
    } else if is_one(word, b"VIEW", b"V") || word.starts_with(b"Z") {
        Hint::Extended
    } else if word == b"THEN".as_slice() {
        Hint::Then
    } else if word == b"RETURN".as_slice() {
        Hint::Returned
    } else if word == b"PRINT".as_slice() {
        Hint::Near(b"WRITE")
    } else {
        near_or(word, &COMMANDS, Hint::Commands)
    }
}
