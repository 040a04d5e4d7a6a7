// Equations and queries that are read.
use lgc_lexer::Token;
use lgc_meaning::{Pair, Query};
use lgc_tokens::Stop;
use lgc_values::List;

/// The tokens behind what is read, which goes to a place of the caller's.
pub(crate) type Rest<'a> = Result<&'a [Token], Stop<'a>>;

/// An equation that was read, and how many nodes are left behind it. Where its right side is bare it is, too.
#[derive(Drop)]
pub struct EquationRead {
    pub pair: Pair,
    pub nodes_left: u32,
    pub is_bare: bool,
}

/// Equations that were read in a row, and how many nodes are left behind them. Where the last of them is bare they are, too.
#[derive(Drop)]
pub struct Equations {
    pub list: List<Pair>,
    pub nodes_left: u32,
    pub is_bare: bool,
}

/// A query that was read. Where its last formula is bare it is, too: no text is right that goes on behind it with anything but the
/// arguments of that formula.
#[derive(Drop)]
pub struct QueryRead {
    pub query: Query,
    pub is_bare: bool,
}
