// Reports.
use lgc_clauses::Numbered;
use lgc_meaning::{Query, Valuation};
use lgc_sequents::{Line, Sequent};
use lgc_values::List;

/// What is known of a query. Lines are named by their positions, counted from 1. In a valid report these are:
///
/// - `Proved`: for each goal of the query in order, a line that is included in it and rests on no pending line;
/// - `Refuted`: a valuation that lists the atoms of the query and doesn't satisfy it;
/// - `Unfinished`: for each goal in order, a line that is included in it, and some of these rests on a pending line.
#[derive(Drop)]
pub enum Evidence {
    Proved(List<u64>),
    Refuted(Valuation),
    Unfinished(List<u64>),
}

/// A claim with the number that is written before it: the answer to a query, or that a sequent holds since it includes a line.
#[derive(Drop)]
pub enum Claim<const N: usize> {
    Answer {
        number: u32,
        query: Query,
        evidence: Evidence,
    },
    Holds {
        number: u32,
        sequent: Sequent<N>,
        line: u64,
    },
}

/// A report: rules, lines that are steps by these rules, and claims that cite the lines. Positions in each part are counted from 1.
#[derive(Drop)]
pub struct Report<const N: usize> {
    pub rules: List<Numbered<N>>,
    pub lines: List<Line<N>>,
    pub claims: List<Claim<N>>,
}
