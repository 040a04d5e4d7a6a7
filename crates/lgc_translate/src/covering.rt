// Rules for a formula at a sign.
ghost use Rattle.std.specs.Prelude.{◌≡◌, ◌≢◌, ◌<◌, ◌≤◌, ◌+◌, ◌*◌, ◌^◌, ◌∷◌, [], true, false, length, take, map, IfOk, OnOk, OnErr, MatchOption};
ghost use Rattle.std.specs.List.{list_all};
ghost use Rattle.lgc_values.specs.declared.TheConstants.{MOST_SYMBOLS};
ghost use Rattle.lgc_syntax.specs.Fits.{Fits};
ghost use Rattle.lgc_calculus.specs.RuleBook.{IsRightBook};
ghost use Rattle.lgc_translate.specs.Covering.{has_rule, all_covered, covers};
ghost use Rattle.lgc_translate.specs.Words.{IsMissing};

use crate::rows::{has_member, rule_at};
use lgc_calculus::RuleBook;
use lgc_clause_sets::is_full;
use lgc_clauses::{Clause, OpRule};
use lgc_syntax::Formula;
use lgc_values::{Matrix, ValueSet};
use std::alloc::AllocError;

// The operator and the sign of a rule that isn't there.
#[derive(Clone, Copy, Debug)]
struct Missing<const N: usize> {
    op: u16,
    sign: ValueSet<N>,
}

// Makes rules cover a formula at a sign: those that are missing are derived and appended, and stay where memory is wanting.
pub(crate) fn cover<const N: usize>(
    m: &Matrix<N>,
    book: &mut RuleBook<N>,
    f: &Formula,
    sign: ValueSet<N>,
) -> Result<(), AllocError>
    requires fits { Fits m.now f.now }
    requires right { IsRightBook m.now book.old }
    ensures covered { OnOk result (covers N book.new f.now sign.entry ≡ true) }
    ensures kept { take (length book.old) book.new ≡ book.old }
    ensures right { IsRightBook m.now book.new }
{
    let _operators = m.operators();
    while let Some(missing) = first_missing(f, sign, book.rules()) {
        append_rule(m, book, missing)?;
    }
    Ok(())
}

// Appends a rule that isn't there.
fn append_rule<const N: usize>(
    m: &Matrix<N>,
    book: &mut RuleBook<N>,
    missing: Missing<N>,
) -> Result<(), AllocError>
    requires known { missing.op < length m.now.operators }
    requires nonempty { missing.sign ≢ [] }
    requires absent { has_rule book.old missing.op missing.sign ≡ false }
    requires right { IsRightBook m.now book.old }
    ensures one { OnOk result (length book.new ≡ length book.old + 1) }
    ensures few { length book.new ≤ MOST_SYMBOLS * 2 ^ N }
    ensures kept { take (length book.old) book.new ≡ book.old }
    ensures right { IsRightBook m.now book.new }
{
    let _operators = m.operators();
    let derived = book.rule_for(m, missing.op, missing.sign);
    let _rules = book.rules();
    derived?;
    Ok(())
}

// A rule that a formula at a sign asks for and that isn't there.
#[cycle(first_missing)]
fn first_missing<const N: usize>(
    f: &Formula,
    sign: ValueSet<N>,
    rules: &[OpRule<N>],
) -> Option<Missing<N>>
    ensures { MatchOption result (covers N rules.now f.now sign.entry ≡ true) (λ missing. IsMissing rules.now (f.now ∷ []) missing.op missing.sign) }
{
    if is_full(sign) || !has_member(sign) {
        return None;
    }
    match f {
        Formula::Op(op, args) => match rule_at(rules, *op, sign) {
            None => Some(Missing { op: *op, sign }),
            Some(rule) => missing_in_clauses(args.items(), rule.clauses.items(), rules),
        },
        _ => None,
    }
}

// One that some clause of a rule asks for at arguments.
#[cycle(first_missing)]
fn missing_in_clauses<const N: usize>(
    args: &[Formula],
    clauses: &[Clause<N>],
    rules: &[OpRule<N>],
) -> Option<Missing<N>>
    ensures { MatchOption result (list_all (λ sets. all_covered sets (map (covers N rules.now) args.now)) clauses.now ≡ true) (λ missing. IsMissing rules.now args.now missing.op missing.sign) }
{
    for clause in clauses {
        if let Some(missing) = missing_in_clause(args, clause.sets.items(), rules) {
            return Some(missing);
        }
    }
    None
}

// One that a clause asks for at arguments.
#[cycle(first_missing)]
fn missing_in_clause<const N: usize>(
    args: &[Formula],
    sets: &[ValueSet<N>],
    rules: &[OpRule<N>],
) -> Option<Missing<N>>
    ensures { MatchOption result (all_covered sets.now (map (covers N rules.now) args.now) ≡ true) (λ missing. IsMissing rules.now args.now missing.op missing.sign) }
{
    for j in 0..args.len().min(sets.len()) {
        if let Some(missing) = first_missing(&args[j], sets[j], rules) {
            return Some(missing);
        }
    }
    None
}
