// What a token is to an expression.

ghost use Rattle.std.specs.Prelude.{◌≡◌, ◌+◌, List, ◌∷◌, ◌<◌, ◌≤◌, [], length, nat_le, ◌&&◌, if◌then◌else◌, IfOk, MatchOption};
ghost use Rattle.mj_expr.specs.declared.stop.ParseError.TheVariants.{Stuck, Long};
ghost use Rattle.std.specs.Str.{str_eq_ignore_ascii_case};
ghost use Rattle.mj_ast.specs.Expressions.{Symbol, symbol, constant_of, Constant, Name, Mark, Other, callee_of, special_of, is_named};
ghost use Rattle.mj_ast.specs.Expressions.{least as least_of_function, most as most_of_function, least_subscripts as least_subscripts_of};
ghost use Rattle.mj_ast.specs.Expressions.{most_others as most_others_of, levels as levels_of_callee};
ghost use Rattle.mj_ast.specs.declared.sign.Sign.TheVariants.{Caret, Open, Close, Comma, Colon};
ghost use Rattle.mj_expr.specs.Machine.{unary_of, binary_of, refused_in};
ghost use Rattle.mj_expr.specs.Reads.{symbols_seen, Refuses, IsHead, HasNoBinary, HasNoOpen, HasNoComma, HasNoColon, HasNoClose, HasNoCaret, HasNoName};
ghost use Rattle.mj_expr.specs.Reads.{least_in, most_in, limited_in, StartsWith, StartsWithBinary, StartsWithName};
ghost use Rattle.mj_num.specs.Number.{reading};
ghost use Rattle.mj_lex.specs.Seen.{token_seen};
ghost use Rattle.mj_text.specs.declared.text.TheConstants.{TEXT_LIMIT};

use crate::stop::ParseError;
use mj_ast::{Callee, Function, NameFunction, Sign, Special};
use mj_lex::{Lexeme, Token, next, unquoted};
use mj_num::Num;
use mj_oper::{Op, TruthOp, UnaryOp};
use mj_text::{Failure, TEXT_LIMIT, Text};
use std::alloc::{AllocError, Global};

/// The most bytes of a name.
const NAME_LIMIT: usize = 31;

/// What a list of expressions is: the subscripts of a variable, or the arguments of a function.
#[derive(Clone, Copy)]
pub enum ListKind {
    Subscripts,
    Arguments(Function),
}

/// The most subscripts of a variable.
const WIDTH: usize = 31;

/// How many expressions there are at least.
pub fn least(kind: ListKind) -> usize
    ensures { result ≡ least_in kind }
{
    match kind {
        ListKind::Subscripts => 0,
        ListKind::Arguments(function) => match function {
            Function::Find
            | Function::Justify
            | Function::Piece
            | Function::QSubscript
            | Function::Translate => 2,
            Function::Ascii
            | Function::Char
            | Function::Extract
            | Function::Length
            | Function::QLength
            | Function::Reverse => 1,
        },
    }
}

/// How many expressions there are at most.
pub fn most(kind: ListKind) -> usize
    ensures { result ≡ most_in kind }
{
    match kind {
        ListKind::Subscripts => WIDTH,
        ListKind::Arguments(function) => match function {
            Function::QLength | Function::Reverse => 1,
            Function::Ascii | Function::Justify | Function::Length | Function::QSubscript => 2,
            Function::Extract | Function::Find | Function::Translate => 3,
            Function::Piece => 4,
            Function::Char => 8192,
        },
    }
}

/// How many subscripts the variable of a function has at least.
pub fn least_subscripts(function: NameFunction) -> usize
    ensures { result ≡ least_subscripts_of function }
{
    match function {
        NameFunction::Order => 1,
        NameFunction::Data | NameFunction::Get | NameFunction::Name | NameFunction::Query => 0,
    }
}

/// How many arguments stand behind the variable of a function at most.
pub fn most_others(function: NameFunction) -> usize
    ensures { result ≡ most_others_of function }
{
    match function {
        NameFunction::Get | NameFunction::Order => 1,
        NameFunction::Data | NameFunction::Name | NameFunction::Query => 0,
    }
}

/// How many levels open with a function at least.
pub(crate) fn levels(callee: Callee) -> usize
    ensures { result ≡ levels_of_callee callee }
{
    match callee {
        Callee::Names(function) => least_subscripts(function) + 1,
        Callee::Texts(_) | Callee::Select => 1,
    }
}

/// Whether one more than that is a list over its limit, and no mistake of grammar.
pub(crate) fn is_limited(kind: ListKind) -> bool
    ensures { result ≡ limited_in kind }
{
    match kind {
        ListKind::Subscripts => true,
        ListKind::Arguments(_) => false,
    }
}

/// Whether another one behind so many makes the list full, behind which a comma is over its limit.
pub(crate) fn fills(kind: ListKind, count: usize) -> bool
    requires { count < most_in kind }
    ensures { result ≡ (limited_in kind && nat_le (most_in kind) (count + 1)) }
{
    is_limited(kind) && count + 1 >= most(kind)
}

/// Whether the word is this one or its abbreviation, in any case.
fn is_word(word: &[u8], full: &[u8], short: &[u8]) -> bool
    ensures { result ≡ is_named word.now full.now short.now }
{
    word.eq_ignore_ascii_case(full) || word.eq_ignore_ascii_case(short)
}

/// What a `$` word names, if arguments may stand behind it.
pub fn callee(word: &[u8]) -> Option<Callee>
    ensures { result ≡ callee_of word.now }
{
    if is_word(word, b"ASCII", b"A") {
        Some(Callee::Texts(Function::Ascii))
    } else if is_word(word, b"CHAR", b"C") {
        Some(Callee::Texts(Function::Char))
    } else if is_word(word, b"DATA", b"D") {
        Some(Callee::Names(NameFunction::Data))
    } else if is_word(word, b"EXTRACT", b"E") {
        Some(Callee::Texts(Function::Extract))
    } else if is_word(word, b"FIND", b"F") {
        Some(Callee::Texts(Function::Find))
    } else if is_word(word, b"GET", b"G") {
        Some(Callee::Names(NameFunction::Get))
    } else if is_word(word, b"JUSTIFY", b"J") {
        Some(Callee::Texts(Function::Justify))
    } else if is_word(word, b"LENGTH", b"L") {
        Some(Callee::Texts(Function::Length))
    } else if is_word(word, b"NAME", b"NA") {
        Some(Callee::Names(NameFunction::Name))
    } else if is_word(word, b"ORDER", b"O") {
        Some(Callee::Names(NameFunction::Order))
    } else if is_word(word, b"PIECE", b"P") {
        Some(Callee::Texts(Function::Piece))
    } else if is_word(word, b"QLENGTH", b"QL") {
        Some(Callee::Texts(Function::QLength))
    } else if is_word(word, b"QSUBSCRIPT", b"QS") {
        Some(Callee::Texts(Function::QSubscript))
    } else if is_word(word, b"QUERY", b"Q") {
        Some(Callee::Names(NameFunction::Query))
    } else if is_word(word, b"REVERSE", b"RE") {
        Some(Callee::Texts(Function::Reverse))
    } else if is_word(word, b"SELECT", b"S") {
        Some(Callee::Select)
    } else if is_word(word, b"TRANSLATE", b"TR") {
        Some(Callee::Texts(Function::Translate))
    } else {
        None
    }
}

/// The special variable that a `$` word names, if no arguments stand behind it.
pub fn special(word: &[u8]) -> Option<Special>
    ensures { result ≡ special_of word.now }
{
    if is_word(word, b"IO", b"I") {
        Some(Special::Io)
    } else if is_word(word, b"JOB", b"J") {
        Some(Special::Job)
    } else if is_word(word, b"TEST", b"T") {
        Some(Special::Test)
    } else if is_word(word, b"TLEVEL", b"TL") {
        Some(Special::TLevel)
    } else if is_word(word, b"TRESTART", b"TR") {
        Some(Special::TRestart)
    } else if is_word(word, b"X", b"X") {
        Some(Special::X)
    } else if is_word(word, b"Y", b"Y") {
        Some(Special::Y)
    } else {
        None
    }
}

/// What an operand may begin with.
pub(crate) enum Head<'a> {
    Constant(Text),
    Special(Special),
    Name(&'a [u8]),
    Callee(Callee),
    /// `$$` and the label of an entry, if one stands there
    Entry(Option<&'a [u8]>),
    Caret,
    Open,
    Unary(Sign, UnaryOp),
    Nothing,
}

/// The canonic text of the number that digits read, if it is in range.
fn number_text(alloc: Global, digits: &[u8]) -> Option<Text>
    ensures { MatchOption result (constant_of (reading digits.now) ≡ Other) (λ t. constant_of (reading digits.now) ≡ Constant t) }
{
    match Num::read_bytes(digits) {
        Ok(number) => Some(number.to_text(alloc)),
        Err(_) => None,
    }
}

pub(crate) fn unary(sign: Sign) -> Option<UnaryOp>
    ensures { result ≡ unary_of sign }
{
    match sign {
        Sign::Plus => Some(UnaryOp::Plus),
        Sign::Minus => Some(UnaryOp::Minus),
        Sign::Apostrophe => Some(UnaryOp::Not),
        _ => None,
    }
}

pub(crate) fn binary(sign: Sign) -> Option<Op>
    ensures { result ≡ binary_of sign }
{
    match sign {
        Sign::Plus => Some(Op::Add),
        Sign::Minus => Some(Op::Subtract),
        Sign::Star => Some(Op::Multiply),
        Sign::Backslash => Some(Op::Quotient),
        Sign::Hash => Some(Op::Remainder),
        Sign::Slash => Some(Op::Divide),
        Sign::Underscore => Some(Op::Join),
        Sign::Equals => Some(Op::Is(TruthOp::Equal)),
        Sign::Less => Some(Op::Is(TruthOp::Less)),
        Sign::Greater => Some(Op::Is(TruthOp::Greater)),
        Sign::OpenBracket => Some(Op::Is(TruthOp::Contains)),
        Sign::CloseBracket => Some(Op::Is(TruthOp::Follows)),
        Sign::CloseBrackets => Some(Op::Is(TruthOp::SortsAfter)),
        Sign::Ampersand => Some(Op::Is(TruthOp::And)),
        Sign::Exclamation => Some(Op::Is(TruthOp::Or)),
        Sign::Negated(op) => Some(Op::IsNot(op)),
        _ => None,
    }
}

fn sign_head<'a>(sign: Sign) -> Head<'a>
    ensures { IsHead result (Mark sign) }
{
    match sign {
        Sign::Caret => Head::Caret,
        Sign::Open => Head::Open,
        _ => match unary(sign) {
            Some(op) => Head::Unary(sign, op),
            None => Head::Nothing,
        },
    }
}

pub(crate) fn head_of<'a>(alloc: Global, token: &Token<'a>) -> Result<Head<'a>, AllocError>
    ensures { IfOk result (λ h. IsHead h (symbol (token_seen token.now))) }
{
    match *token {
        Token::Digits(digits) => match number_text(alloc, digits) {
            Some(text) => Ok(Head::Constant(text)),
            None => Ok(Head::Nothing),
        },
        Token::Quoted(bytes) => match unquoted(alloc, bytes) {
            Ok(text) => {
                let length = text.len();
                prove!(length <= TEXT_LIMIT);
                Ok(Head::Constant(text))
            }
            Err(Failure::Fault(_)) => Ok(Head::Nothing),
            Err(Failure::Memory) => Err(AllocError),
        },
        Token::Word(word) => {
            if word.len() <= NAME_LIMIT {
                Ok(Head::Name(word))
            } else {
                Ok(Head::Nothing)
            }
        }
        Token::Called(word) => {
            if word.len() > NAME_LIMIT {
                return Ok(Head::Nothing);
            }
            match callee(word) {
                Some(callee) => Ok(Head::Callee(callee)),
                None => Ok(Head::Nothing),
            }
        }
        Token::Invoked(word) => {
            if word.len() > NAME_LIMIT {
                return Ok(Head::Nothing);
            }
            Ok(Head::Entry(Some(word)))
        }
        Token::Numbered(digits) => {
            if digits.len() > TEXT_LIMIT {
                return Ok(Head::Nothing);
            }
            Ok(Head::Entry(Some(digits)))
        }
        Token::Dollars => Ok(Head::Entry(None)),
        Token::Sign(sign) => Ok(sign_head(sign)),
        Token::Special(word) => {
            if word.len() > NAME_LIMIT {
                return Ok(Head::Nothing);
            }
            match special(word) {
                Some(variable) => Ok(Head::Special(variable)),
                None => Ok(Head::Nothing),
            }
        }
        Token::Blank | Token::Comment(_) | Token::Unclosed(_) | Token::Stray(_) => {
            Ok(Head::Nothing)
        }
    }
}

/// The token in front, where it lies, and the tokens behind it.
pub(crate) fn front<'a, 't>(tokens: &'t [Lexeme<'a>]) -> Option<(&'t Token<'a>, &'t [Lexeme<'a>])>
    ensures { MatchOption result (symbols_seen tokens.now ≡ []) (λ x. StartsWith (symbol (token_seen x.0.now)) tokens.now x.1.now) }
{
    match tokens {
        [] => None,
        [first, rest @ ..] => Some((&first.token, rest)),
    }
}

/// The token in front and the tokens behind it.
pub(crate) fn taken<'a, 't>(tokens: &'t [Lexeme<'a>]) -> Option<(Token<'a>, &'t [Lexeme<'a>])>
    ensures { MatchOption result (symbols_seen tokens.now ≡ []) (λ x. StartsWith (symbol (token_seen x.0)) tokens.now x.1.now) }
{
    next(tokens)
}

/// The binary operator in front and the tokens behind it.
pub(crate) fn behind_binary<'a, 't>(tokens: &'t [Lexeme<'a>]) -> Option<(Op, &'t [Lexeme<'a>])>
    ensures { MatchOption result (HasNoBinary (symbols_seen tokens.now)) (λ x. StartsWithBinary x.0 tokens.now x.1.now) }
{
    match taken(tokens) {
        Some((Token::Sign(sign), rest)) => match binary(sign) {
            Some(op) => Some((op, rest)),
            None => None,
        },
        _ => None,
    }
}

/// The tokens behind a `(` in front.
pub(crate) fn behind_open<'a, 't>(tokens: &'t [Lexeme<'a>]) -> Option<&'t [Lexeme<'a>]>
    ensures { MatchOption result (HasNoOpen (symbols_seen tokens.now)) (λ x. StartsWith (Mark Open) tokens.now x.now) }
{
    match taken(tokens) {
        Some((Token::Sign(Sign::Open), rest)) => Some(rest),
        _ => None,
    }
}

/// The tokens behind a `^` in front.
pub(crate) fn behind_caret<'a, 't>(tokens: &'t [Lexeme<'a>]) -> Option<&'t [Lexeme<'a>]>
    ensures { MatchOption result (HasNoCaret (symbols_seen tokens.now)) (λ x. StartsWith (Mark Caret) tokens.now x.now) }
{
    match taken(tokens) {
        Some((Token::Sign(Sign::Caret), rest)) => Some(rest),
        _ => None,
    }
}

/// The tokens behind a comma in front.
pub(crate) fn behind_comma<'a, 't>(tokens: &'t [Lexeme<'a>]) -> Option<&'t [Lexeme<'a>]>
    ensures { MatchOption result (HasNoComma (symbols_seen tokens.now)) (λ x. StartsWith (Mark Comma) tokens.now x.now) }
{
    match taken(tokens) {
        Some((Token::Sign(Sign::Comma), rest)) => Some(rest),
        _ => None,
    }
}

/// The tokens behind a colon in front.
pub(crate) fn behind_colon<'a, 't>(tokens: &'t [Lexeme<'a>]) -> Option<&'t [Lexeme<'a>]>
    ensures { MatchOption result (HasNoColon (symbols_seen tokens.now)) (λ x. StartsWith (Mark Colon) tokens.now x.now) }
{
    match taken(tokens) {
        Some((Token::Sign(Sign::Colon), rest)) => Some(rest),
        _ => None,
    }
}

/// The tokens behind a closing parenthesis in front.
pub(crate) fn behind_close<'a, 't>(tokens: &'t [Lexeme<'a>]) -> Option<&'t [Lexeme<'a>]>
    ensures { MatchOption result (HasNoClose (symbols_seen tokens.now)) (λ x. StartsWith (Mark Close) tokens.now x.now) }
{
    match taken(tokens) {
        Some((Token::Sign(Sign::Close), rest)) => Some(rest),
        _ => None,
    }
}

/// The name in front and the tokens behind it.
pub(crate) fn behind_name<'a, 't>(tokens: &'t [Lexeme<'a>]) -> Option<(&'a [u8], &'t [Lexeme<'a>])>
    ensures { MatchOption result (HasNoName (symbols_seen tokens.now)) (λ x. StartsWithName x.0.now tokens.now x.1.now) }
{
    match taken(tokens) {
        Some((Token::Word(word), rest)) => {
            if word.len() <= NAME_LIMIT {
                Some((word, rest))
            } else {
                None
            }
        }
        _ => None,
    }
}

/// Makes a text of a name.
pub(crate) fn name_text(alloc: Global, word: &[u8]) -> Result<Text, AllocError>
    requires { length word.now ≤ 31 }
    ensures { IfOk result (λ t. t ≡ word.now) }
{
    match Text::from(alloc, word) {
        Ok(text) => Ok(text),
        Err(_) => Err(AllocError),
    }
}

/// Makes a text of the label of an entry.
pub(crate) fn label_text(alloc: Global, label: &[u8]) -> Result<Text, AllocError>
    requires { length label.now ≤ TEXT_LIMIT }
    ensures { IfOk result (λ t. t ≡ label.now) }
{
    match Text::from(alloc, label) {
        Ok(text) => Ok(text),
        Err(_) => Err(AllocError),
    }
}

/// Says why nothing is given where a word stands with which no phrase goes on.
fn refused_word(word: &[u8], left: usize) -> ParseError
    ensures { result ≡ (if nat_le (length word.now) 31 then Stuck left else Long) }
{
    if word.len() <= NAME_LIMIT {
        ParseError::Stuck(left)
    } else {
        ParseError::Long
    }
}

/// Says why nothing is given where no phrase goes on with this token, which stands before others: `left` are left with it.
fn refused_at(token: Token<'_>, left: usize, full: bool) -> ParseError
    ensures { (ks : List Symbol) → length ks + 1 ≡ left → Refuses result (refused_in full (symbol (token_seen token.entry) ∷ ks)) }
{
    match token {
        Token::Word(word) => refused_word(word, left),
        Token::Called(word) => refused_word(word, left),
        Token::Special(word) => refused_word(word, left),
        Token::Invoked(word) => refused_word(word, left),
        Token::Numbered(_) => ParseError::Stuck(left),
        Token::Dollars => ParseError::Stuck(left),
        Token::Sign(sign) => refused_sign(sign, left, full),
        Token::Digits(_) => ParseError::Stuck(left),
        Token::Quoted(_) => ParseError::Stuck(left),
        Token::Blank => ParseError::Stuck(left),
        Token::Comment(_) => ParseError::Stuck(left),
        Token::Unclosed(_) => ParseError::Stuck(left),
        Token::Stray(_) => ParseError::Stuck(left),
    }
}

/// Says why nothing is given where no phrase goes on with this sign.
fn refused_sign(sign: Sign, left: usize, full: bool) -> ParseError
    ensures { (ks : List Symbol) → length ks + 1 ≡ left → Refuses result (refused_in full (Mark sign ∷ ks)) }
{
    match sign {
        Sign::Comma => {
            if full {
                ParseError::Long
            } else {
                ParseError::Stuck(left)
            }
        }
        _ => ParseError::Stuck(left),
    }
}

/// Says why nothing is given where no phrase goes on. A comma in a list that is full is too long.
pub(crate) fn refusal(tokens: &[Lexeme<'_>], full: bool) -> ParseError
    ensures { Refuses result (refused_in full (symbols_seen tokens.now)) }
{
    match taken(tokens) {
        None => ParseError::Stuck(0),
        Some((token, _)) => refused_at(token, tokens.len(), full),
    }
}
