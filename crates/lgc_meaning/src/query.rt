// Queries.
use lgc_syntax::Formula;
use lgc_values::List;

/// Two formulas, as the sides of an equation.
#[derive(Drop)]
pub struct Pair {
    pub left: Formula,
    pub right: Formula,
}

/// A query about a logic.
///
/// A mixed entailment asks whether some conclusion takes a value in the set `wanted` where every premise takes one in the set `given`.
/// The sets are masks, which have the bit `2^v` for each member `v`. An equation asks whether both sides take the same value, and a
/// quasi-equation whether those of the conclusion do where those of every premise do.
#[derive(Drop)]
pub enum Query {
    Mixed {
        given: u16,
        wanted: u16,
        premises: List<Formula>,
        conclusions: List<Formula>,
    },
    Equation(Pair),
    Quasi {
        premises: List<Pair>,
        conclusion: Pair,
    },
}
