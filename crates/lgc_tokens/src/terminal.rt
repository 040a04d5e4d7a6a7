// Reading single tokens.
ghost use Rattle.std.specs.Prelude.{◌≡◌, ◌≤◌, ◌<◌, ◌^◌, length, option_map, IfOk, IfSome};
ghost use Rattle.lgc_grammar.specs.Reading.{one_at, next_is, skip, past};
ghost use Rattle.lgc_lexer.specs.Spans.{LiesIn, AllIn};
ghost use Rattle.lgc_tokens.specs.Spelled.{spelled, spelled_all, place, IsRest, IsShorter};
ghost use Rattle.lgc_tokens.specs.Classes.{passes, is_a, told_by_kind, IsOfEach, names, names_or_symbols, values, order_values, logic_names, digits_alone, numbers, long_numbers, arguments, zeros, quantifier_clauses, begins_statement, begins_query};
ghost use Rattle.lgc_tokens.specs.Gives.{Gives};

use crate::class::{Class, class_of, is_lower, kind_of, same, same_kind};
use crate::stop::Stop;
use lgc_lexer::{Kind, Token};

/// What is read, and the tokens behind it.
pub type Reading<'a, T> = Result<(T, &'a [Token]), Stop<'a>>;

/// What the grammars ask of one token.
#[derive(Clone, Copy, Debug, PartialEq, Eq)]
pub enum Terminal {
    Only(Class),
    /// A Lower, which may be a keyword of some text.
    Word,
    Name,
    NameOrSymbol,
    Value,
    /// A value of an order text.
    OrderValue,
    /// The name of a logic.
    LogicName,
    /// A Digits of digits alone.
    DigitsAlone,
    Number,
    /// The number of a line or of a let, which may be larger than another number.
    LongNumber,
    /// A number with which the first literal of a clause begins: a 0 has a Symbol `^` behind it.
    Argument,
    /// The number 0.
    Zero,
    /// The keyword of a bound in an ordering.
    Bound,
    /// What a clause of a quantifier begins with.
    QuantifierClause,
    NodeStart,
    BracketedStart,
    RowStart,
    /// What begins a further cell: the comma before it, or a value.
    CellStart,
    StatementStart,
    TermStart,
    /// The keyword with which a query begins.
    QueryStart,
}

fn names(class: Class) -> bool
    ensures { result ≡ names class }
{
    is_lower(class) || same(Class::Quoted, class)
}

fn names_or_symbols(class: Class) -> bool
    ensures { result ≡ names_or_symbols class }
{
    names(class)
        || same(Class::Less, class)
        || same(Class::Caret, class)
        || same(Class::Turnstile, class)
        || same(Class::Equals, class)
        || same(Class::Hash, class)
        || same(Class::Symbol, class)
}

fn arguments(class: Class) -> bool
    ensures { result ≡ arguments class }
{
    same(Class::CaretZero, class) || same(Class::Number, class)
}

fn numbers(class: Class) -> bool
    ensures { result ≡ numbers class }
{
    same(Class::Zero, class) || arguments(class)
}

fn long_numbers(class: Class) -> bool
    ensures { result ≡ long_numbers class }
{
    numbers(class) || same(Class::LongNumber, class)
}

fn zeros(class: Class) -> bool
    ensures { result ≡ zeros class }
{
    same(Class::Zero, class) || same(Class::CaretZero, class)
}

fn digits_alone(class: Class) -> bool
    ensures { result ≡ digits_alone class }
{
    long_numbers(class) || same(Class::Digits, class)
}

fn values(class: Class) -> bool
    ensures { result ≡ values class }
{
    names_or_symbols(class)
        || same(Class::Upper, class)
        || digits_alone(class)
        || same(Class::Mixed, class)
}

fn order_values(class: Class) -> bool
    ensures { result ≡ order_values class }
{
    values(class) && !same(Class::Less, class)
}

fn logic_names(class: Class) -> bool
    ensures { result ≡ logic_names class }
{
    same(Class::Text, class)
        || is_lower(class)
        || same(Class::Upper, class)
        || same(Class::Quoted, class)
}

fn quantifier_clauses(class: Class) -> bool
    ensures { result ≡ quantifier_clauses class }
{
    zeros(class) || same(Class::AllWord, class) || same(Class::SomeWord, class)
}

fn begins_statement(class: Class) -> bool
    ensures { result ≡ begins_statement class }
{
    same(Class::LogicWord, class)
        || same(Class::ValuesWord, class)
        || same(Class::DesignatedWord, class)
        || same(Class::OrderingWord, class)
        || same(Class::OperatorWord, class)
        || same(Class::QuantifierWord, class)
}

fn begins_query(class: Class) -> bool
    ensures { result ≡ begins_query class }
{
    same(Class::EntailWord, class)
        || same(Class::MixedWord, class)
        || same(Class::EquationWord, class)
        || same(Class::QuasiWord, class)
}

fn passes(terminal: Terminal, class: Class) -> bool
    ensures { result ≡ passes terminal class }
{
    match terminal {
        Terminal::Only(only) => same(only, class),
        Terminal::Word => is_lower(class),
        Terminal::Name => names(class),
        Terminal::NameOrSymbol => names_or_symbols(class),
        Terminal::Value => values(class),
        Terminal::OrderValue => order_values(class),
        Terminal::LogicName => logic_names(class),
        Terminal::DigitsAlone => digits_alone(class),
        Terminal::Number => numbers(class),
        Terminal::LongNumber => long_numbers(class),
        Terminal::Argument => arguments(class),
        Terminal::Zero => zeros(class),
        Terminal::Bound => same(Class::InfWord, class) || same(Class::SupWord, class),
        Terminal::QuantifierClause => quantifier_clauses(class),
        Terminal::NodeStart => order_values(class) || same(Class::OpenBrace, class),
        Terminal::BracketedStart => same(Class::OpenBrace, class) || same(Class::OpenSquare, class),
        Terminal::RowStart => same(Class::OpenRound, class) || values(class),
        Terminal::CellStart => same(Class::Comma, class) || values(class),
        Terminal::StatementStart => begins_statement(class),
        Terminal::TermStart => same(Class::Upper, class) || is_lower(class),
        Terminal::QueryStart => begins_query(class),
    }
}

fn told_by_kind(terminal: Terminal, kind: Kind) -> Option<bool>
    ensures { result ≡ told_by_kind terminal kind }
{
    match terminal {
        Terminal::Only(class) => {
            if same_kind(kind_of(class), kind) {
                None
            } else {
                Some(false)
            }
        }
        Terminal::Word => Some(same_kind(Kind::Lower, kind)),
        Terminal::Name => Some(same_kind(Kind::Lower, kind) || same_kind(Kind::Quoted, kind)),
        Terminal::TermStart => Some(same_kind(Kind::Upper, kind) || same_kind(Kind::Lower, kind)),
        _ => None,
    }
}

// Whether each token of a kind is of the terminal, or none is; none where that depends on what it says.
fn of_each_of_kind(terminal: Terminal, kind: Kind) -> Option<bool>
    ensures { IfSome result (λ answer. IsOfEach terminal kind answer) }
{
    told_by_kind(terminal, kind)
}

/// Whether a token before others is one of the terminal.
pub fn is_a(bytes: &[u8], terminal: Terminal, token: &Token, rest: &[Token]) -> bool
    requires token { LiesIn (length bytes.now) token.now }
    requires rest { AllIn bytes.now rest.now }
    ensures { result ≡ is_a terminal (spelled bytes.now token.now rest.now) }
{
    match of_each_of_kind(terminal, token.kind) {
        Some(answer) => answer,
        None => passes(terminal, class_of(bytes, token, rest)),
    }
}

/// The next token, which has to be of the terminal, and those behind it.
pub fn one<'a>(bytes: &[u8], terminal: Terminal, tokens: &'a [Token]) -> Reading<'a, Token>
    requires { AllIn bytes.now tokens.now }
    ensures gives { Gives bytes.now (λ x. (spelled bytes.now x.0 x.1.now, spelled_all bytes.now x.1.now)) result (one_at (is_a terminal) (spelled_all bytes.now tokens.now)) }
    ensures token { IfOk result (λ x. LiesIn (length bytes.now) x.0) }
    ensures rest { IfOk result (λ x. IsShorter bytes.now tokens.now x.1.now) }
{
    match tokens.split_first() {
        Some((token, rest)) if is_a(bytes, terminal, token, rest) => Ok((*token, rest)),
        _ => Err(Stop::Unexpected(tokens)),
    }
}

/// Whether a token is next, and it is of the terminal.
pub fn next_is(bytes: &[u8], terminal: Terminal, tokens: &[Token]) -> bool
    requires { AllIn bytes.now tokens.now }
    ensures { result ≡ next_is (is_a terminal) (spelled_all bytes.now tokens.now) }
{
    match tokens.split_first() {
        Some((token, rest)) => is_a(bytes, terminal, token, rest),
        None => false,
    }
}

/// The tokens behind the next one, where that is of the terminal.
pub fn skip<'a>(bytes: &[u8], terminal: Terminal, tokens: &'a [Token]) -> Option<&'a [Token]>
    requires { AllIn bytes.now tokens.now }
    ensures skips { option_map (λ r. spelled_all bytes.now r.now) result ≡ skip (is_a terminal) (spelled_all bytes.now tokens.now) }
    ensures rest { IfSome result (λ r. IsShorter bytes.now tokens.now r.now) }
{
    match tokens.split_first() {
        Some((token, rest)) if is_a(bytes, terminal, token, rest) => Some(rest),
        _ => None,
    }
}

/// The tokens without a next one of the terminal.
pub fn past<'a>(bytes: &[u8], terminal: Terminal, tokens: &'a [Token]) -> &'a [Token]
    requires { AllIn bytes.now tokens.now }
    ensures gives { spelled_all bytes.now result.now ≡ past (is_a terminal) (spelled_all bytes.now tokens.now) }
    ensures rest { IsRest bytes.now tokens.now result.now }
{
    match tokens.split_first() {
        Some((token, rest)) if is_a(bytes, terminal, token, rest) => rest,
        _ => tokens,
    }
}

/// The offset of the first token, or of the end.
pub fn place(bytes: &[u8], tokens: &[Token]) -> u32
    requires { length bytes.now < 2 ^ 32 }
    ensures { result ≡ place (length bytes.now) (spelled_all bytes.now tokens.now) }
{
    match tokens.first() {
        Some(token) => token.start,
        None => bytes.len() as u32,
    }
}
