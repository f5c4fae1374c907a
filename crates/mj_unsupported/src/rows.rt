// The rows of the table of what is left out by name.

ghost use Rattle.std.specs.Prelude.{◌≡◌, ◌&&◌, ◌||◌, IfOk, reverse, true};
ghost use Rattle.mj_ast.specs.LeftOut.{StandsFor, IsBehindDevice, IsBehindInput, IsBehindLabel, IsBehindSerial, IsBehindTimeout, MayBeOperator};
ghost use Rattle.mj_ast.specs.LeftOut.{MayBeginCommand, MayBeginDestination, MayBeginName, MayBeginOutput, MayBeginRestartable, called as the_called};
ghost use Rattle.mj_ast.specs.LeftOut.{ends_in};
ghost use Rattle.mj_ast.specs.LeftOut.{has_dollar as the_dollar, is_at as the_at, is_bar as the_bar, is_bracket as the_bracket, is_caret as the_caret};
ghost use Rattle.mj_ast.specs.LeftOut.{is_close as the_close, is_colon as the_colon, is_comma as the_comma, is_comma_in, ends_digits as the_digits, is_exponent};
ghost use Rattle.mj_ast.specs.LeftOut.{is_extract as the_extract, is_hash as the_hash, is_justify as the_justify, is_match as the_match, is_name as the_name};
ghost use Rattle.mj_ast.specs.LeftOut.{is_no_function, is_no_variable, is_open as the_open, is_order_name as the_order_name, is_plus as the_plus};
ghost use Rattle.mj_ast.specs.LeftOut.{is_query as the_query, is_slash as the_slash, is_star as the_star, is_transaction_word as the_transaction_word};
ghost use Rattle.mj_ast.specs.LeftOut.{is_unknown as the_unknown};
ghost use Rattle.mj_lex.specs.Seen.{token_seen, tokens_seen};
ghost use Rattle.mj_unsupported.specs.Fronts.{IsFront, Says, IsFraction, IsByReference, IsDeviceParameters, IsMnemonicSpace};

use crate::devices::{is_behind_colon, is_behind_device, is_behind_input, is_behind_timeout};
use crate::stand::{
    is_behind_label, may_be_operator, may_begin_actual, may_begin_command, may_begin_destination,
    may_begin_name, may_begin_operand, may_begin_output,
};
use crate::tokens::{
    ends_in_caret, ends_in_digits, ends_in_star, has_dollar, is_at, is_bar, is_bracket, is_close,
    is_colon, is_comma, is_dot, is_hash, is_negated_question, is_open, is_plus, is_question,
    is_slash, is_star, starts_digits, starts_word,
};
use crate::transactions::{is_behind_serial, may_begin_restartable};
use crate::words::{
    called, innermost, is_e, is_extract, is_justify, is_name, is_order_name, is_query, is_t,
    is_variable,
};
use mj_ast::{Construct, Keyword};
use mj_cmd::verb_of;
use mj_expr::callee;
use mj_lex::{Lexeme, Token};
use std::alloc::{AllocError, Global};

/// Whether it is `@` where a name or an operand may begin.
fn indirection(alloc: Global, front: &[Lexeme], token: Token) -> Result<bool, AllocError>
    requires { IsFront (tokens_seen front.now) }
    ensures { IfOk result (λ b. Says b ((the_at (token_seen token.entry) ≡ true) × MayBeginName (tokens_seen front.now))) }
{
    if !is_at(token) {
        return Ok(false);
    }
    may_begin_name(alloc, front)
}

/// Whether it is `.` behind digits, or before them where an operand may begin.
fn fraction(
    alloc: Global,
    front: &[Lexeme],
    token: Token,
    behind: &[Lexeme],
) -> Result<bool, AllocError>
    requires { IsFront (tokens_seen front.now) }
    ensures { IfOk result (λ b. Says b (IsFraction (tokens_seen front.now) (token_seen token.entry) (tokens_seen behind.now))) }
{
    if !is_dot(token) {
        return Ok(false);
    }
    if ends_in_digits(front) {
        return Ok(true);
    }
    if !starts_digits(behind) {
        return Ok(false);
    }
    may_begin_operand(alloc, front)
}

/// Whether it is a word that begins with `E`, behind digits.
fn exponent(front: &[Lexeme], token: Token) -> bool
    ensures { result ≡ (is_exponent (token_seen token.entry) && ends_in the_digits (tokens_seen front.now)) }
{
    match token {
        Token::Word(word) => is_e(word) && ends_in_digits(front),
        _ => false,
    }
}

/// Whether it is the second `*` of two.
fn power(front: &[Lexeme], token: Token) -> bool
    ensures { result ≡ (the_star (token_seen token.entry) && ends_in the_star (tokens_seen front.now)) }
{
    is_star(token) && ends_in_star(front)
}

/// Whether the token is `?` or `'?`.
fn is_match(token: Token) -> bool
    ensures { result ≡ the_match (token_seen token.entry) }
{
    is_question(token) || is_negated_question(token)
}

/// Whether it is `?` or `'?` where a binary operator may stand.
fn pattern(alloc: Global, front: &[Lexeme], token: Token) -> Result<bool, AllocError>
    requires { IsFront (tokens_seen front.now) }
    ensures { IfOk result (λ b. Says b ((the_match (token_seen token.entry) ≡ true) × MayBeOperator (tokens_seen front.now))) }
{
    if !is_match(token) {
        return Ok(false);
    }
    may_be_operator(alloc, front)
}

/// Whether it is `(` behind `^`.
fn naked(front: &[Lexeme], token: Token) -> bool
    ensures { result ≡ (the_open (token_seen token.entry) && ends_in the_caret (tokens_seen front.now)) }
{
    is_open(token) && ends_in_caret(front)
}

/// Whether it is `[` or `|` behind `^`.
fn environment(front: &[Lexeme], token: Token) -> bool
    ensures { result ≡ ((the_bracket (token_seen token.entry) || the_bar (token_seen token.entry)) && ends_in the_caret (tokens_seen front.now)) }
{
    (is_bracket(token) || is_bar(token)) && ends_in_caret(front)
}

/// Whether it is `$` behind `^`.
fn structured(front: &[Lexeme], token: Token) -> bool
    ensures { result ≡ (the_dollar (token_seen token.entry) && ends_in the_caret (tokens_seen front.now)) }
{
    has_dollar(token) && ends_in_caret(front)
}

/// Whether it is `.` and a word where an actual may begin.
fn by_reference(
    alloc: Global,
    front: &[Lexeme],
    token: Token,
    behind: &[Lexeme],
) -> Result<bool, AllocError>
    requires { IsFront (tokens_seen front.now) }
    ensures { IfOk result (λ b. Says b (IsByReference (tokens_seen front.now) (token_seen token.entry) (tokens_seen behind.now))) }
{
    let passed = is_dot(token) && starts_word(behind);
    if !passed {
        return Ok(false);
    }
    may_begin_actual(alloc, front)
}

/// Whether it is `+` behind the label of an entry.
fn entry_offset(alloc: Global, front: &[Lexeme], token: Token) -> Result<bool, AllocError>
    requires { IsFront (tokens_seen front.now) }
    ensures { IfOk result (λ b. Says b ((the_plus (token_seen token.entry) ≡ true) × IsBehindLabel (tokens_seen front.now))) }
{
    if !is_plus(token) {
        return Ok(false);
    }
    is_behind_label(alloc, front)
}

/// Whether it is `#` behind a variable of READ.
fn read_length(alloc: Global, front: &[Lexeme], token: Token) -> Result<bool, AllocError>
    requires { IsFront (tokens_seen front.now) }
    ensures { IfOk result (λ b. Says b ((the_hash (token_seen token.entry) ≡ true) × IsBehindInput (tokens_seen front.now))) }
{
    if !is_hash(token) {
        return Ok(false);
    }
    is_behind_input(alloc, front)
}

/// Whether it is `:` behind an argument of USE or CLOSE.
fn second_parameters(alloc: Global, front: &[Lexeme], token: Token) -> Result<bool, AllocError>
    requires { IsFront (tokens_seen front.now) }
    ensures { IfOk result (λ b. Says b ((the_colon (token_seen token.entry) ≡ true) × IsBehindDevice (tokens_seen front.now))) }
{
    if !is_colon(token) {
        return Ok(false);
    }
    is_behind_device(alloc, front)
}

/// Whether it is `:` behind an argument of USE or CLOSE, or what stands behind the first `:` of an argument of OPEN.
fn device_parameters(alloc: Global, front: &[Lexeme], token: Token) -> Result<bool, AllocError>
    requires { IsFront (tokens_seen front.now) }
    ensures { IfOk result (λ b. Says b (IsDeviceParameters (tokens_seen front.now) (token_seen token.entry))) }
{
    if second_parameters(alloc, front, token)? {
        return Ok(true);
    }
    is_behind_colon(alloc, Keyword::Open, front)
}

/// Whether it is the third `:` of an argument of OPEN.
fn third_colon(alloc: Global, front: &[Lexeme], token: Token) -> Result<bool, AllocError>
    requires { IsFront (tokens_seen front.now) }
    ensures { IfOk result (λ b. Says b ((the_colon (token_seen token.entry) ≡ true) × IsBehindTimeout (tokens_seen front.now))) }
{
    if !is_colon(token) {
        return Ok(false);
    }
    is_behind_timeout(alloc, front)
}

/// Whether it is `/` where an argument of WRITE or READ may begin.
fn output_space(alloc: Global, front: &[Lexeme], token: Token) -> Result<bool, AllocError>
    requires { IsFront (tokens_seen front.now) }
    ensures { IfOk result (λ b. Says b ((the_slash (token_seen token.entry) ≡ true) × MayBeginOutput (tokens_seen front.now))) }
{
    if !is_slash(token) {
        return Ok(false);
    }
    may_begin_output(alloc, front)
}

/// Whether it is the third `:` of an argument of OPEN, or `/` where an argument of WRITE or READ may begin.
fn mnemonic_space(alloc: Global, front: &[Lexeme], token: Token) -> Result<bool, AllocError>
    requires { IsFront (tokens_seen front.now) }
    ensures { IfOk result (λ b. Says b (IsMnemonicSpace (tokens_seen front.now) (token_seen token.entry))) }
{
    if third_colon(alloc, front, token)? {
        return Ok(true);
    }
    output_space(alloc, front, token)
}

/// Whether the token is a word that begins with `T`.
fn is_transaction_word(token: Token) -> bool
    ensures { result ≡ the_transaction_word (token_seen token.entry) }
{
    match token {
        Token::Word(word) => is_t(word),
        _ => false,
    }
}

/// Whether it is such a word behind the `:` of the argument of TSTART, or behind a `(` there.
fn transaction_id(alloc: Global, front: &[Lexeme], token: Token) -> Result<bool, AllocError>
    requires { IsFront (tokens_seen front.now) }
    ensures { IfOk result (λ b. Says b ((the_transaction_word (token_seen token.entry) ≡ true) × IsBehindSerial (tokens_seen front.now))) }
{
    if !is_transaction_word(token) {
        return Ok(false);
    }
    is_behind_serial(alloc, front)
}

/// Whether it is `:` where that argument may begin.
fn bare_serial(alloc: Global, front: &[Lexeme], token: Token) -> Result<bool, AllocError>
    requires { IsFront (tokens_seen front.now) }
    ensures { IfOk result (λ b. Says b ((the_colon (token_seen token.entry) ≡ true) × MayBeginRestartable (tokens_seen front.now))) }
{
    if !is_colon(token) {
        return Ok(false);
    }
    may_begin_restartable(alloc, front)
}

/// Whether it is `$EXTRACT(` where a destination may begin.
fn set_extract(alloc: Global, front: &[Lexeme], token: Token) -> Result<bool, AllocError>
    requires { IsFront (tokens_seen front.now) }
    ensures { IfOk result (λ b. Says b ((the_extract (the_called (token_seen token.entry)) ≡ true) × MayBeginDestination (tokens_seen front.now))) }
{
    if !is_extract(called(token)) {
        return Ok(false);
    }
    may_begin_destination(alloc, front)
}

/// Whether it is the second comma in `$JUSTIFY`.
fn justify_decimals(front: &[Lexeme], token: Token) -> bool
    ensures { result ≡ is_comma_in the_justify 1 (tokens_seen front.now) (token_seen token.entry) }
{
    let (function, commas) = innermost(front);
    is_comma(token) && is_justify(function) && commas == 1
}

/// Whether it is the first comma in `$QUERY`.
fn query_backward(front: &[Lexeme], token: Token) -> bool
    ensures { result ≡ is_comma_in the_query 0 (tokens_seen front.now) (token_seen token.entry) }
{
    let (function, commas) = innermost(front);
    is_comma(token) && is_query(function) && commas == 0
}

/// Whether it is the first comma in `$NAME`.
fn name_depth(front: &[Lexeme], token: Token) -> bool
    ensures { result ≡ is_comma_in the_name 0 (tokens_seen front.now) (token_seen token.entry) }
{
    let (function, commas) = innermost(front);
    is_comma(token) && is_name(function) && commas == 0
}

/// Whether it is what ends a variable of `$ORDER` without subscripts.
fn order_names(front: &[Lexeme], token: Token) -> bool
    ensures { result ≡ ((the_close (token_seen token.entry) || the_comma (token_seen token.entry)) && the_order_name (reverse (tokens_seen front.now))) }
{
    (is_close(token) || is_comma(token)) && is_order_name(front)
}

/// Whether it is a `$` word of no function, with a `(` behind it.
fn function(token: Token) -> bool
    ensures { result ≡ is_no_function (token_seen token.entry) }
{
    match token {
        Token::Called(word) => callee(word).is_none(),
        _ => false,
    }
}

/// Whether it is any other `$` word of no variable.
fn variable(token: Token) -> bool
    ensures { result ≡ is_no_variable (token_seen token.entry) }
{
    match token {
        Token::Special(word) => !is_variable(word),
        _ => false,
    }
}

/// Whether the token is a word that is no command's.
fn is_unknown(token: Token) -> bool
    ensures { result ≡ the_unknown (token_seen token.entry) }
{
    match token {
        Token::Word(word) => verb_of(word).is_none(),
        _ => false,
    }
}

/// Whether it is a word of no command where one may begin.
fn command(alloc: Global, front: &[Lexeme], token: Token) -> Result<bool, AllocError>
    requires { IsFront (tokens_seen front.now) }
    ensures { IfOk result (λ b. Says b ((the_unknown (token_seen token.entry) ≡ true) × MayBeginCommand (tokens_seen front.now))) }
{
    if !is_unknown(token) {
        return Ok(false);
    }
    may_begin_command(alloc, front)
}

/// Whether the token stands for the construct by its row.
pub fn fits(
    alloc: Global,
    construct: Construct,
    front: &[Lexeme],
    token: Token,
    behind: &[Lexeme],
) -> Result<bool, AllocError>
    requires { IsFront (tokens_seen front.now) }
    ensures { IfOk result (λ b. Says b (StandsFor construct (tokens_seen front.now) (token_seen token.entry) (tokens_seen behind.now))) }
{
    match construct {
        Construct::Indirection => indirection(alloc, front, token),
        Construct::Fraction => fraction(alloc, front, token, behind),
        Construct::Exponent => Ok(exponent(front, token)),
        Construct::Power => Ok(power(front, token)),
        Construct::Pattern => pattern(alloc, front, token),
        Construct::Naked => Ok(naked(front, token)),
        Construct::Environment => Ok(environment(front, token)),
        Construct::Structured => Ok(structured(front, token)),
        Construct::ByReference => by_reference(alloc, front, token, behind),
        Construct::EntryOffset => entry_offset(alloc, front, token),
        Construct::ReadLength => read_length(alloc, front, token),
        Construct::DeviceParameters => device_parameters(alloc, front, token),
        Construct::ProcessParameters => is_behind_colon(alloc, Keyword::Job, front),
        Construct::MnemonicSpace => mnemonic_space(alloc, front, token),
        Construct::TransactionId => transaction_id(alloc, front, token),
        Construct::BareSerial => bare_serial(alloc, front, token),
        Construct::SetExtract => set_extract(alloc, front, token),
        Construct::JustifyDecimals => Ok(justify_decimals(front, token)),
        Construct::QueryBackward => Ok(query_backward(front, token)),
        Construct::NameDepth => Ok(name_depth(front, token)),
        Construct::OrderNames => Ok(order_names(front, token)),
        Construct::Function => Ok(function(token)),
        Construct::Variable => Ok(variable(token)),
        Construct::Command => command(alloc, front, token),
    }
}
