// What a token is to the grammars.
ghost use Rattle.std.specs.Prelude.{◌≡◌, length};
ghost use Rattle.lgc_lexer.specs.Spans.{LiesIn, AllIn};
ghost use Rattle.lgc_tokens.specs.Spelled.{spelled, is_caret, begins_with_caret};
ghost use Rattle.lgc_tokens.specs.Classes.{class_of, class_of_word, class_of_number, class_of_digits, class_of_symbol, class_of_punct, same, is_lower, kind_of, same_kind};

use crate::number::{are_digits, long_number_in, number_in};
use lgc_lexer::{Kind, Token, content};

/// The tokens that the grammars tell apart.
#[derive(Clone, Copy, Debug, PartialEq, Eq)]
pub enum Class {
    LogicWord,
    ValuesWord,
    DesignatedWord,
    OrderingWord,
    OperatorWord,
    QuantifierWord,
    MappingWord,
    TableWord,
    InducedWord,
    InfWord,
    SupWord,
    RuleWord,
    AtWord,
    AllWord,
    SomeWord,
    EntailWord,
    MixedWord,
    EquationWord,
    QuasiWord,
    ReportWord,
    LineWord,
    ByWord,
    AxiomWord,
    PendingWord,
    OnWord,
    FromWord,
    ResolveWord,
    ClaimWord,
    ProvedWord,
    RefutedWord,
    UnfinishedWord,
    HoldsWord,
    EndWord,
    /// A Lower that is no keyword.
    Lower,
    Upper,
    /// The number 0 without a Symbol `^` behind it.
    Zero,
    /// The number 0 with a Symbol `^` behind it.
    CaretZero,
    /// Another number.
    Number,
    /// A number of a line or of a let that is too large for another number.
    LongNumber,
    /// A Digits of digits alone that is no number of either kind: with a leading zero, or too large.
    Digits,
    /// A Digits with a letter or `_`.
    Mixed,
    Quoted,
    Text,
    /// The Symbol `<`.
    Less,
    /// The Symbol `^`.
    Caret,
    /// The Symbol `|-`.
    Turnstile,
    /// The Symbol `=`.
    Equals,
    /// The Symbol `#`.
    Hash,
    /// Another Symbol.
    Symbol,
    OpenRound,
    CloseRound,
    OpenBrace,
    CloseBrace,
    OpenSquare,
    CloseSquare,
    Comma,
    Dot,
    Colon,
    Semicolon,
    Slash,
    /// A Punct that no grammar names.
    Punct,
}

pub(crate) fn same(class: Class, other: Class) -> bool
    ensures { result ≡ same class other }
{
    class == other
}

pub(crate) fn same_kind(kind: Kind, other: Kind) -> bool
    ensures { result ≡ same_kind kind other }
{
    kind == other
}

/// The kind of the tokens of a class.
pub(crate) fn kind_of(class: Class) -> Kind
    ensures { result ≡ kind_of class }
{
    match class {
        Class::Upper => Kind::Upper,
        Class::Zero
        | Class::CaretZero
        | Class::Number
        | Class::LongNumber
        | Class::Digits
        | Class::Mixed => Kind::Digits,
        Class::Quoted => Kind::Quoted,
        Class::Text => Kind::Text,
        Class::Less
        | Class::Caret
        | Class::Turnstile
        | Class::Equals
        | Class::Hash
        | Class::Symbol => Kind::Symbol,
        Class::OpenRound
        | Class::CloseRound
        | Class::OpenBrace
        | Class::CloseBrace
        | Class::OpenSquare
        | Class::CloseSquare
        | Class::Comma
        | Class::Dot
        | Class::Colon
        | Class::Semicolon
        | Class::Slash
        | Class::Punct => Kind::Punct,
        _ => Kind::Lower,
    }
}

/// Whether it is that of a Lower: a keyword's or another one's.
pub(crate) fn is_lower(class: Class) -> bool
    ensures { result ≡ is_lower class }
{
    matches!(
        class,
        Class::LogicWord
            | Class::ValuesWord
            | Class::DesignatedWord
            | Class::OrderingWord
            | Class::OperatorWord
            | Class::QuantifierWord
            | Class::MappingWord
            | Class::TableWord
            | Class::InducedWord
            | Class::InfWord
            | Class::SupWord
            | Class::RuleWord
            | Class::AtWord
            | Class::AllWord
            | Class::SomeWord
            | Class::EntailWord
            | Class::MixedWord
            | Class::EquationWord
            | Class::QuasiWord
            | Class::ReportWord
            | Class::LineWord
            | Class::ByWord
            | Class::AxiomWord
            | Class::PendingWord
            | Class::OnWord
            | Class::FromWord
            | Class::ResolveWord
            | Class::ClaimWord
            | Class::ProvedWord
            | Class::RefutedWord
            | Class::UnfinishedWord
            | Class::HoldsWord
            | Class::EndWord
            | Class::Lower
    )
}

#[tactic(auto, unfolding(crate::specs::Classes::class_of_word))]
fn class_of_word(text: &[u8]) -> Class
    ensures { result ≡ class_of_word text.now }
{
    if text == b"logic".as_slice() {
        Class::LogicWord
    } else if text == b"truth_values".as_slice() {
        Class::ValuesWord
    } else if text == b"designated_truth_values".as_slice() {
        Class::DesignatedWord
    } else if text == b"ordering".as_slice() {
        Class::OrderingWord
    } else if text == b"operator".as_slice() {
        Class::OperatorWord
    } else if text == b"quantifier".as_slice() {
        Class::QuantifierWord
    } else if text == b"mapping".as_slice() {
        Class::MappingWord
    } else if text == b"table".as_slice() {
        Class::TableWord
    } else if text == b"induced_by".as_slice() {
        Class::InducedWord
    } else if text == b"inf".as_slice() {
        Class::InfWord
    } else if text == b"sup".as_slice() {
        Class::SupWord
    } else if text == b"rule".as_slice() {
        Class::RuleWord
    } else if text == b"at".as_slice() {
        Class::AtWord
    } else if text == b"all".as_slice() {
        Class::AllWord
    } else if text == b"some".as_slice() {
        Class::SomeWord
    } else if text == b"entail".as_slice() {
        Class::EntailWord
    } else if text == b"mixed".as_slice() {
        Class::MixedWord
    } else if text == b"equation".as_slice() {
        Class::EquationWord
    } else if text == b"quasi".as_slice() {
        Class::QuasiWord
    } else if text == b"report".as_slice() {
        Class::ReportWord
    } else if text == b"line".as_slice() {
        Class::LineWord
    } else if text == b"by".as_slice() {
        Class::ByWord
    } else if text == b"axiom".as_slice() {
        Class::AxiomWord
    } else if text == b"pending".as_slice() {
        Class::PendingWord
    } else if text == b"on".as_slice() {
        Class::OnWord
    } else if text == b"from".as_slice() {
        Class::FromWord
    } else if text == b"resolve".as_slice() {
        Class::ResolveWord
    } else if text == b"claim".as_slice() {
        Class::ClaimWord
    } else if text == b"proved".as_slice() {
        Class::ProvedWord
    } else if text == b"refuted".as_slice() {
        Class::RefutedWord
    } else if text == b"unfinished".as_slice() {
        Class::UnfinishedWord
    } else if text == b"holds".as_slice() {
        Class::HoldsWord
    } else if text == b"end".as_slice() {
        Class::EndWord
    } else {
        Class::Lower
    }
}

#[tactic(auto, unfolding(crate::specs::Classes::class_of_punct))]
fn class_of_punct(text: &[u8]) -> Class
    ensures { result ≡ class_of_punct text.now }
{
    if text == b"(".as_slice() {
        Class::OpenRound
    } else if text == b")".as_slice() {
        Class::CloseRound
    } else if text == b"{".as_slice() {
        Class::OpenBrace
    } else if text == b"}".as_slice() {
        Class::CloseBrace
    } else if text == b"[".as_slice() {
        Class::OpenSquare
    } else if text == b"]".as_slice() {
        Class::CloseSquare
    } else if text == b",".as_slice() {
        Class::Comma
    } else if text == b".".as_slice() {
        Class::Dot
    } else if text == b":".as_slice() {
        Class::Colon
    } else if text == b";".as_slice() {
        Class::Semicolon
    } else if text == b"/".as_slice() {
        Class::Slash
    } else {
        Class::Punct
    }
}

fn class_of_symbol(text: &[u8]) -> Class
    ensures { result ≡ class_of_symbol text.now }
{
    if text == b"<".as_slice() {
        Class::Less
    } else if text == b"^".as_slice() {
        Class::Caret
    } else if text == b"|-".as_slice() {
        Class::Turnstile
    } else if text == b"=".as_slice() {
        Class::Equals
    } else if text == b"#".as_slice() {
        Class::Hash
    } else {
        Class::Symbol
    }
}

fn class_of_number(number: u32, before_caret: bool) -> Class
    ensures { result ≡ class_of_number number before_caret }
{
    match number {
        0 if before_caret => Class::CaretZero,
        0 => Class::Zero,
        _ => Class::Number,
    }
}

fn class_of_digits(text: &[u8], before_caret: bool) -> Class
    ensures { result ≡ class_of_digits text.now before_caret }
{
    match number_in(text) {
        Some(number) => class_of_number(number, before_caret),
        None if long_number_in(text).is_some() => Class::LongNumber,
        None if are_digits(text) => Class::Digits,
        None => Class::Mixed,
    }
}

// Whether the token is a Symbol `^`.
fn is_caret(bytes: &[u8], token: &Token) -> bool
    requires { LiesIn (length bytes.now) token.now }
    ensures { result ≡ is_caret bytes.now token.now }
{
    matches!(token.kind, Kind::Symbol) && content(bytes, token) == b"^".as_slice()
}

// Whether such a token comes first.
fn begins_with_caret(bytes: &[u8], tokens: &[Token]) -> bool
    requires { AllIn bytes.now tokens.now }
    ensures { result ≡ begins_with_caret bytes.now tokens.now }
{
    match tokens.split_first() {
        Some((token, _)) => is_caret(bytes, token),
        None => false,
    }
}

/// The class of a token before others, by its kind, its content and what is behind it.
#[tactic(auto, unfolding(crate::specs::Classes::class_of))]
pub(crate) fn class_of(bytes: &[u8], token: &Token, rest: &[Token]) -> Class
    requires token { LiesIn (length bytes.now) token.now }
    requires rest { AllIn bytes.now rest.now }
    ensures { result ≡ class_of (spelled bytes.now token.now rest.now) }
{
    let text = content(bytes, token);
    match token.kind {
        Kind::Lower => class_of_word(text),
        Kind::Upper => Class::Upper,
        Kind::Digits => class_of_digits(text, begins_with_caret(bytes, rest)),
        Kind::Quoted => Class::Quoted,
        Kind::Text => Class::Text,
        Kind::Symbol => class_of_symbol(text),
        Kind::Punct => class_of_punct(text),
    }
}
