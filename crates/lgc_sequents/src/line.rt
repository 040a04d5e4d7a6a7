// Lines of derivations.
use crate::Sequent;
use lgc_syntax::{Formula, Term};
use lgc_values::List;
use std::marker::Model;

/// A line that is cited as a premise, by its position, counted from 1.
///
/// Under the rule of a quantifier the terms stand for the sets of the premise's clause: one for each `all` set in order, and then one for a
/// `some` set that has members. Under the rule of an operator there are none.
#[derive(Drop)]
pub struct Cited {
    pub line: u64,
    pub terms: List<Term>,
}

/// Why a line stands in a derivation. Rules and lines are named by their positions, counted from 1.
///
/// - `Axiom`: some formula carries all truth values.
/// - `Pending`: no reason is given, and the line is left for later work.
/// - `ByRule`: the principal formula is introduced by a rule, from a premise for each of its clauses.
/// - `Resolve`: the line joins two others, of which each may carry values of a formula that the other lacks.
#[derive(Drop)]
pub enum Reason {
    Axiom,
    Pending,
    ByRule {
        rule: u32,
        principal: Formula,
        premises: List<Cited>,
    },
    Resolve {
        on: Formula,
        left: u64,
        right: u64,
    },
}

/// A line of a derivation: a sequent with the number that is written before it, and the reason for which it stands.
#[derive(Drop)]
pub struct Line<const N: usize> {
    pub number: u64,
    pub sequent: Sequent<N>,
    pub reason: Reason,
}

impl<const N: usize> Model for Line<N> {
    ghost use Rattle.lgc_sequents.specs.Lines.{PlainLine, line_code};

    ghost Value = { PlainLine };

    ghost coded = { line_code };

    ghost view = { λ line. record { number = line.number; sequent = line.sequent; reason = line.reason } };
}
