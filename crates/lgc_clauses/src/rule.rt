// Rules of each kind.
use crate::{Clause, QClause};
use lgc_values::{List, ValueSet};
use std::marker::Model;

/// A rule for operator `op`, counted from 0, at a sign.
#[derive(Debug, Drop)]
pub struct OpRule<const N: usize> {
    pub op: u16,
    pub sign: ValueSet<N>,
    pub clauses: List<Clause<N>>,
}

impl<const N: usize> Model for OpRule<N> {
    ghost use Rattle.lgc_clauses.specs.Rules.{OperatorRule};

    ghost Value = { OperatorRule };

    ghost view = { λ rule. record { op = rule.op; sign = rule.sign; clauses = rule.clauses } };
}

/// A rule for quantifier `quant`, counted from 0, at a sign.
#[derive(Debug, Drop)]
pub struct QRule<const N: usize> {
    pub quant: u16,
    pub sign: ValueSet<N>,
    pub clauses: List<QClause<N>>,
}

impl<const N: usize> Model for QRule<N> {
    ghost use Rattle.lgc_clauses.specs.Rules.{QuantifierRule};

    ghost Value = { QuantifierRule };

    ghost view = { λ rule. record { quant = rule.quant; sign = rule.sign; clauses = rule.clauses } };
}

/// A rule of any kind.
#[derive(Debug, Drop)]
pub enum Rule<const N: usize> {
    Operator(OpRule<N>),
    Quantifier(QRule<N>),
}

/// A rule with the number that is written before it.
#[derive(Debug, Drop)]
pub struct Numbered<const N: usize> {
    pub number: u32,
    pub rule: Rule<N>,
}
