// The clauses that a sign gives by itself, and the rule for an operator at a sign.
ghost use Rattle.std.specs.Prelude.{◌≡◌, ◌&&◌, [], true, false, bytes_eq, IfOk, MatchOption};
ghost use Rattle.lgc_values.specs.Values.{IsSize, has, values_where};
ghost use Rattle.lgc_syntax.specs.Equality.{same_formula};
ghost use Rattle.lgc_clause_sets.specs.AtomClauses.{has_member};
ghost use Rattle.lgc_translate.specs.Translation as translation;
ghost use Rattle.lgc_translate.specs.Covering.{has_rule};

use lgc_clause_sets::ClauseRow;
use lgc_clauses::OpRule;
use lgc_syntax::{Formula, same_formula};
use lgc_values::{List, ValueSet};
use std::alloc::{AllocError, Global};

// The clause that speaks of no atom.
pub(crate) fn no_items<const N: usize>(
    alloc: Global,
    atoms: &[Formula],
) -> Result<ClauseRow<N>, AllocError>
    requires { IsSize N }
    ensures { IfOk result (λ clause. clause ≡ translation.no_items atoms.now) }
{
    let mut sets = List::new(alloc);
    for _place in 0..atoms.len() {
        sets.push(ValueSet::empty())?;
    }
    Ok(ClauseRow::new(sets))
}

// The clause that an atom takes a value in a sign.
pub(crate) fn one_item<const N: usize>(
    alloc: Global,
    atom: &Formula,
    sign: ValueSet<N>,
    atoms: &[Formula],
) -> Result<ClauseRow<N>, AllocError>
    ensures { IfOk result (λ clause. clause ≡ translation.one_item N atoms.now atom.now sign.entry) }
{
    let mut sets = List::new(alloc);
    for other in atoms {
        sets.push(set_at(other, atom, sign))?;
    }
    Ok(ClauseRow::new(sets))
}

// The set of an atom in the clause that speaks of one atom alone.
#[tactic(auto, using(crate::proofs::RowLaws::item_law, crate::proofs::RowLaws::no_item_law))]
fn set_at<const N: usize>(other: &Formula, atom: &Formula, sign: ValueSet<N>) -> ValueSet<N>
    ensures { result ≡ values_where N (λ v. same_formula other.now atom.now && has sign.entry v) }
{
    let _mask = sign.mask();
    if same_formula(other, atom) {
        sign
    } else {
        ValueSet::empty()
    }
}

// Whether a sign has a member.
#[tactic(auto, using(crate::proofs::RowLaws::member_law))]
pub(crate) fn has_member<const N: usize>(sign: ValueSet<N>) -> bool
    ensures { result ≡ has_member sign.entry }
{
    !sign.is_empty()
}

// The rule for an operator at a sign.
pub(crate) fn rule_at<const N: usize>(
    rules: &[OpRule<N>],
    op: u16,
    sign: ValueSet<N>,
) -> Option<&OpRule<N>>
    ensures none { MatchOption result (has_rule rules.now op sign.entry ≡ false) (λ rule. has_rule rules.now op sign.entry ≡ true) }
    ensures some { MatchOption result (translation.rule_clauses rules.now op sign.entry ≡ []) (λ rule. rule.now.clauses ≡ translation.rule_clauses rules.now op sign.entry) }
{
    for rule in rules {
        if is_for(rule, op, sign) {
            return Some(rule);
        }
    }
    None
}

// Whether a rule is one for an operator at a sign.
fn is_for<const N: usize>(rule: &OpRule<N>, op: u16, sign: ValueSet<N>) -> bool
    ensures { result ≡ translation.is_for op sign.entry rule.now }
{
    rule.op == op && same_set(rule.sign, sign)
}

// Whether two sets are the same.
#[tactic(auto, using(crate::proofs::RowLaws::same_set_law))]
fn same_set<const N: usize>(set: ValueSet<N>, other: ValueSet<N>) -> bool
    ensures { result ≡ bytes_eq set.entry other.entry }
{
    set.mask() == other.mask()
}
