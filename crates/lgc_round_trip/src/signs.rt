// The signs and the sets of rules.
ghost use Rattle.std.specs.Prelude.{◌≡◌, ◌≢◌, ◌↔◌, [], All, IsTrue};
ghost use Rattle.lgc_clauses.specs.Kinds.{plain_rule};
ghost use Rattle.lgc_round_trip.specs.RoundTrip.{IsSet, HasSets};

use lgc_clauses::{Clause, QClause, Rule};
use lgc_values::ValueSet;

// Whether a set has members. The further clause tells what is true of each set.
#[tactic(auto, using(crate::proofs::SetLaws::set_of_members))]
fn has_members<const N: usize>(set: ValueSet<N>) -> bool
    ensures members { IsTrue result ↔ (set.entry ≢ []) }
    ensures set { IsSet N set.entry }
{
    let _mask = set.mask();
    !set.is_empty()
}

// What is true of each set of some.
#[tactic(auto, using(std::proofs::lemmas::Grind::common_steps, crate::proofs::SetLaws::all_more))]
fn see_sets<const N: usize>(sets: &[ValueSet<N>])
    ensures { All (IsSet N) sets.now }
{
    for set in sets {
        has_members(*set);
    }
}

// What is true of the sets of each clause of some.
#[tactic(auto, using(std::proofs::lemmas::Grind::common_steps, crate::proofs::SetLaws::all_more))]
fn see_clauses<const N: usize>(clauses: &[Clause<N>])
    ensures { All (λ sets. All (IsSet N) sets) clauses.now }
{
    for clause in clauses {
        see_sets(clause.sets.items());
    }
}

// What is true of the sets of a quantifier's clause.
fn see_quantifier_clause<const N: usize>(clause: &QClause<N>)
    ensures { All (IsSet N) clause.now }
{
    has_members(clause.some);
    see_sets(clause.all.items());
}

// What is true of the sets of each clause of some of a quantifier.
#[tactic(auto, using(std::proofs::lemmas::Grind::common_steps, crate::proofs::SetLaws::all_more))]
fn see_quantifier_clauses<const N: usize>(clauses: &[QClause<N>])
    ensures { All (λ sets. All (IsSet N) sets) clauses.now }
{
    for clause in clauses {
        see_quantifier_clause(clause);
    }
}

/// Nothing is done. The clauses tell what is true of the sets of each rule: they are rising lists of truth values.
pub fn see_sets_of_rule<const N: usize>(rule: &Rule<N>)
    ensures sign { IsSet N (plain_rule rule.now).sign }
    ensures clauses { All (λ sets. All (IsSet N) sets) (plain_rule rule.now).clauses }
{
    match rule {
        Rule::Operator(rule) => {
            has_members(rule.sign);
            see_clauses(rule.clauses.items());
        }
        Rule::Quantifier(rule) => {
            has_members(rule.sign);
            see_quantifier_clauses(rule.clauses.items());
        }
    }
}

fn has_sign<const N: usize>(rule: &Rule<N>) -> bool
    ensures { IsTrue result ↔ HasSets N (plain_rule rule.now) }
{
    match rule {
        Rule::Operator(rule) => {
            see_clauses(rule.clauses.items());
            has_members(rule.sign)
        }
        Rule::Quantifier(rule) => {
            see_quantifier_clauses(rule.clauses.items());
            has_members(rule.sign)
        }
    }
}

/// Whether the sign of each rule has members.
#[tactic(auto, using(std::proofs::lemmas::Grind::common_steps, crate::proofs::SetLaws::all_more))]
pub fn have_signs<const N: usize>(rules: &[Rule<N>]) -> bool
    ensures { IsTrue result ↔ All (λ rule. HasSets N (plain_rule rule)) rules.now }
{
    for rule in rules {
        if !has_sign(rule) {
            return false;
        }
    }
    true
}
