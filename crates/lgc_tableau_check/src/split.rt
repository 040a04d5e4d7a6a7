// Splits of signed formulas, as they are judged on a branch.
ghost use Rattle.std.specs.Prelude.{◌≡◌, ◌<◌, ◌≤◌, ◌^◌, ◌↔◌, IsTrue, All, length, map};
ghost use Rattle.std.specs.List.{list_all};
ghost use Rattle.lgc_values.specs.declared.TheConstants.{MOST_ARGUMENTS, MOST_ROWS};
ghost use Rattle.lgc_values.specs.Values.{IsSize};
ghost use Rattle.lgc_values.specs.Logic.{operator_at};
ghost use Rattle.lgc_clauses.specs.Rules.{clause_holds, of_operator};
ghost use Rattle.lgc_clauses.specs.Exactness.{IsExact};
ghost use Rattle.lgc_tableau.specs.ClosedTableaux.{sets_of, rule_of};
ghost use Rattle.lgc_tableau_check.specs.Branches.{items_of, HasSign, HaveArguments, IsExactFor, IsSplitOf};

use crate::branch::{Branch, sign_on};
use lgc_sequents::Signed;
use lgc_syntax::{Formula, same_formula};
use lgc_tableau::Case;
use lgc_values::{Matrix, ValueSet, argument_at};

// Whether a signed formula may be split on a branch into cases.
pub(crate) fn is_split<const N: usize>(
    m: &Matrix<N>,
    branch: &Branch<Signed<N>>,
    on: &Signed<N>,
    cases: &[Case<Signed<N>>],
) -> bool
    ensures { IsTrue result ↔ IsSplitOf m.now (items_of branch.now) on.now cases.now }
{
    let _operators = m.operators();
    match &on.formula {
        Formula::Atom(_, _) => false,
        Formula::Op(op, args) => {
            has_sign(branch, on) && is_exact_for(m, *op, args.items(), on.sign, cases)
        }
        Formula::Quant(_, _) => false,
    }
}

// Whether a signed formula has just the values on a branch that are in its sign, and some.
fn has_sign<const N: usize>(branch: &Branch<Signed<N>>, on: &Signed<N>) -> bool
    requires { IsSize N }
    ensures { IsTrue result ↔ HasSign N (items_of branch.now) on.now }
{
    !on.sign.is_empty() && sign_on(branch, &on.formula).mask() == on.sign.mask()
}

// Whether cases are the clauses of an exact rule for an operator at a sign, with these arguments.
fn is_exact_for<const N: usize>(
    m: &Matrix<N>,
    op: u16,
    args: &[Formula],
    sign: ValueSet<N>,
    cases: &[Case<Signed<N>>],
) -> bool
    ensures { IsTrue result ↔ IsExactFor m.now op args.now sign.entry cases.now }
{
    match m.operators().get(op as usize) {
        Some(operator) => {
            args.len() == operator.arity as usize
                && have_arguments(args, cases)
                && are_exact(m, op, sign, cases)
        }
        None => false,
    }
}

// Whether each case has an item for each argument.
fn have_arguments<const N: usize>(args: &[Formula], cases: &[Case<Signed<N>>]) -> bool
    ensures { IsTrue result ↔ HaveArguments args.now cases.now }
{
    for case in cases {
        if !are_arguments(args, case.added.items()) {
            return false;
        }
    }
    true
}

// Whether the formulas of items are the arguments.
#[tactic(auto, using(std::proofs::lemmas::Grind::common_steps, crate::proofs::SplitLaws::formulas_more))]
fn are_arguments<const N: usize>(args: &[Formula], items: &[Signed<N>]) -> bool
    ensures { IsTrue result ↔ (map (λ item. item.formula) items.now ≡ args.now) }
{
    if items.len() != args.len() {
        return false;
    }
    for (i, item) in items.iter().enumerate() {
        if !same_formula(&item.formula, &args[i]) {
            return false;
        }
    }
    true
}

// Whether an operator takes a value in a sign exactly at the rows at which each case is true.
fn are_exact<const N: usize>(
    m: &Matrix<N>,
    op: u16,
    sign: ValueSet<N>,
    cases: &[Case<Signed<N>>],
) -> bool
    requires operator { op < length m.now.operators }
    requires widths { All (λ case. length case.added ≡ (operator_at m.now op).arity) cases.now }
    ensures { IsTrue result ↔ IsExact m.now (of_operator (rule_of op sign.entry cases.now)) }
{
    let operator = &m.operators()[op as usize];
    for row in 0..operator.table.len() as u32 {
        if are_true_at(cases, row) != sign.contains(m.apply(op, row)) {
            return false;
        }
    }
    true
}

// Whether each case is true at the row with an index.
fn are_true_at<const N: usize>(cases: &[Case<Signed<N>>], row: u32) -> bool
    requires size { IsSize N }
    requires rows { All (λ case. N ^ length case.added ≤ MOST_ROWS) cases.now }
    requires few { All (λ case. length case.added ≤ MOST_ARGUMENTS) cases.now }
    ensures { result ≡ list_all (λ sets. clause_holds N sets row) (map sets_of cases.now) }
{
    for case in cases {
        if !is_true_at(case.added.items(), row) {
            return false;
        }
    }
    true
}

// Whether the argument at some place of the row with an index is in the sign of the item at this place.
#[tactic(auto, using(std::proofs::lemmas::Grind::common_steps, crate::proofs::SplitLaws::true_more))]
fn is_true_at<const N: usize>(items: &[Signed<N>], row: u32) -> bool
    requires size { IsSize N }
    requires rows { N ^ length items.now ≤ MOST_ROWS }
    requires few { length items.now ≤ MOST_ARGUMENTS }
    ensures { result ≡ clause_holds N (map (λ item. item.sign) items.now) row }
{
    for (j, item) in items.iter().enumerate() {
        let argument = argument_at(N as u32, items.len() as u32, row, j as u32);
        if item.sign.contains(argument) {
            return true;
        }
    }
    false
}
