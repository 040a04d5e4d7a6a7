// The piece that begins at a place: a blank, a comment, a token, or a fault.
ghost use Rattle.std.specs.Prelude.{◌≡◌, ◌≤◌, length, IfSome};
ghost use Rattle.lgc_lexer.specs.Tokens.{close_len, line_comment, text_in, quoted_in, slash, piece_of, IsWithin};

use crate::scan::{
    DOUBLE_QUOTE, LINE_FEED, PERCENT, QUOTE, SLASH, STAR, UNDERSCORE, is_blank, is_punct,
    is_symbol, len_before, quotable_len, symbol_len, word_len,
};
use crate::token::Kind;

/// What begins at a place. A number counts the bytes that it takes after its first one.
#[derive(Clone, Copy, Debug, PartialEq, Eq)]
pub(crate) enum Piece {
    /// A blank or a comment.
    Blank(usize),
    /// A token.
    Taken(Kind, usize),
    /// No form takes the byte that stands so many bytes behind the first one.
    Bad(usize),
    /// A Quoted, a Text or a comment whose end is missing.
    Unclosed,
}

/// How many bytes there are up to the end of the first `*/`, if there is one.
fn close_len(bytes: &[u8]) -> Option<usize>
    ensures value { result ≡ close_len bytes.now }
    ensures within { IfSome result (λ n. n ≤ length bytes.now) }
{
    let mut i = 0;
    while i + 1 < bytes.len() {
        if bytes[i] == STAR && bytes[i + 1] == SLASH {
            return Some(i + 2);
        }
        i += 1;
    }
    None
}

/// The comment that `%` begins before these bytes.
fn line_comment(rest: &[u8]) -> Piece
    ensures value { result ≡ line_comment rest.now }
    ensures within { IsWithin result (length rest.now) }
{
    let inside = len_before(LINE_FEED, rest);
    if inside < rest.len() {
        Piece::Blank(inside + 1)
    } else {
        Piece::Blank(inside)
    }
}

/// The Text that its first quote begins before these bytes.
fn text_in(rest: &[u8]) -> Piece
    ensures value { result ≡ text_in rest.now }
    ensures within { IsWithin result (length rest.now) }
{
    let inside = len_before(DOUBLE_QUOTE, rest);
    if inside < rest.len() {
        Piece::Taken(Kind::Text, inside + 1)
    } else {
        Piece::Unclosed
    }
}

/// The Quoted that its first quote begins before these bytes.
fn quoted_in(rest: &[u8]) -> Piece
    ensures value { result ≡ quoted_in rest.now }
    ensures within { IsWithin result (length rest.now) }
{
    let inside = quotable_len(rest);
    match rest.get(inside) {
        None => Piece::Unclosed,
        Some(&QUOTE) if inside > 0 => Piece::Taken(Kind::Quoted, inside + 1),
        Some(_) => Piece::Bad(inside + 1),
    }
}

/// The comment or token that a slash begins before these bytes.
fn slash(rest: &[u8]) -> Piece
    ensures value { result ≡ slash rest.now }
    ensures within { IsWithin result (length rest.now) }
{
    match rest {
        [STAR, inside @ ..] => match close_len(inside) {
            Some(len) => Piece::Blank(1 + len),
            None => Piece::Unclosed,
        },
        _ => Piece::Taken(Kind::Punct, 0),
    }
}

/// The piece that begins with the byte `first`, before the bytes `rest`.
#[tactic(auto, unfolding(crate::specs::Tokens::piece_of))]
pub(crate) fn piece_at(first: u8, rest: &[u8]) -> Piece
    ensures value { result ≡ piece_of first rest.now }
    ensures within { IsWithin result (length rest.now) }
{
    if is_blank(first) {
        Piece::Blank(0)
    } else if first == PERCENT {
        line_comment(rest)
    } else if first.is_ascii_lowercase() {
        Piece::Taken(Kind::Lower, word_len(rest))
    } else if first.is_ascii_uppercase() || first == UNDERSCORE {
        Piece::Taken(Kind::Upper, word_len(rest))
    } else if first.is_ascii_digit() {
        Piece::Taken(Kind::Digits, word_len(rest))
    } else if first == QUOTE {
        quoted_in(rest)
    } else if first == DOUBLE_QUOTE {
        text_in(rest)
    } else if first == SLASH {
        slash(rest)
    } else if is_symbol(first) {
        Piece::Taken(Kind::Symbol, symbol_len(rest))
    } else if is_punct(first) {
        Piece::Taken(Kind::Punct, 0)
    } else {
        Piece::Bad(0)
    }
}
