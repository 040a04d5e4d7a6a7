// The premises of a step by a rule.
ghost use Rattle.std.specs.Prelude.{◌≡◌, ◌<◌, ◌≤◌, ◌||◌, not, true, All, length, take};
ghost use Rattle.std.specs.List.{list_all, list_any};
ghost use Rattle.lgc_clauses.specs.Kinds.{plain_rule};
ghost use Rattle.lgc_clauses.specs.Irredundance.{clause_at};
ghost use Rattle.lgc_syntax.specs.Equality.{same_term};
ghost use Rattle.lgc_syntax.specs.Variables.{free, has_no_bound};
ghost use Rattle.lgc_sequents.specs.Sequents.{sign_in};
ghost use Rattle.lgc_sequents.specs.Lines.{sequent_at};
ghost use Rattle.lgc_sequents.specs.Steps.{is_compound_of, auxiliary_formulas, are_allowed, carries};
ghost use Rattle.lgc_values.specs.Values.{has};
ghost use Rattle.lgc_steps.specs.StepTests.{all_zip, is_position, has_terms, is_allowed, is_eigenvariable, are_eigenvariables, has_eigenvariables};

use crate::near::sign_near;
use crate::standing::{clause_count, eigenvariable_count, standing, term_count};
use lgc_clauses::Rule;
use lgc_sequents::{Cited, Line, Sequent, Signed};
use lgc_syntax::{Formula, Term, has_free, same_term};
use lgc_values::Name;

/// Whether a line stands at a position, counted from 1.
pub fn is_position<const N: usize>(lines: &[Line<N>], position: u64) -> bool
    ensures { result ≡ is_position lines.now position }
{
    position > 0 && position <= lines.len() as u64
}

// The items of the line at a position, counted from 1, and none where there is no line.
pub(crate) fn items_at<const N: usize>(lines: &[Line<N>], position: u64) -> &[Signed<N>]
    ensures { result.now ≡ sequent_at lines.now position }
{
    if !is_position(lines, position) {
        return &[];
    }
    let line = &lines[position as usize - 1];
    line.sequent.items()
}

// Whether each cited line stands among those before.
pub(crate) fn are_earlier<const N: usize>(before: &[Line<N>], premises: &[Cited]) -> bool
    ensures { result ≡ list_all (λ c. is_position before.now c.line) premises.now }
{
    for premise in premises {
        if !is_position(before, premise.line) {
            return false;
        }
    }
    true
}

// Whether there is a premise for each clause, with as many terms as the clause asks for.
pub(crate) fn have_terms<const N: usize>(rule: &Rule<N>, premises: &[Cited]) -> bool
    ensures { result ≡ all_zip (has_terms (plain_rule rule.now).head) (plain_rule rule.now).clauses premises.now }
{
    if clause_count(rule) != premises.len() {
        return false;
    }
    for i in 0..premises.len() {
        let premise = &premises[i];
        if premise.terms.len() != term_count(rule, i) {
            return false;
        }
    }
    true
}

// ---- what premises may have

// Whether each value of an item's sign lies in the conclusion, which is looked through from the place `near` on, or in a set of clause `i`
// that stands on the item's formula.
fn is_item_allowed<const N: usize>(
    rule: &Rule<N>,
    i: usize,
    principal: &Formula,
    conclusion: &Sequent<N>,
    terms: &[Term],
    item: &Signed<N>,
    near: &mut usize,
) -> bool
    requires clause { i < length (plain_rule rule.now).clauses }
    requires compound { is_compound_of (plain_rule rule.now).head principal.now ≡ true }
    requires terms { All (λ t. has_no_bound t ≡ true) terms.now }
    requires near { near.old ≤ length conclusion.now }
    ensures allowed { result ≡ list_all (λ v. has (sign_in conclusion.now item.now.formula) v || carries (auxiliary_formulas (plain_rule rule.now).head (clause_at (plain_rule rule.now).clauses i) principal.now terms.now) item.now.formula v) item.now.sign }
    ensures near { near.new ≤ length conclusion.now }
{
    let items = conclusion.items();
    let _below = item.sign.bound();
    let by_clause = standing(rule, i, principal, terms, &item.formula);
    item.sign.is_subset(by_clause)
        || item
            .sign
            .is_subset(sign_near(items, &item.formula, near).union(by_clause))
}

// Whether the same is true of each item.
fn are_items_allowed<const N: usize>(
    rule: &Rule<N>,
    i: usize,
    principal: &Formula,
    conclusion: &Sequent<N>,
    terms: &[Term],
    items: &[Signed<N>],
) -> bool
    requires clause { i < length (plain_rule rule.now).clauses }
    requires compound { is_compound_of (plain_rule rule.now).head principal.now ≡ true }
    requires terms { All (λ t. has_no_bound t ≡ true) terms.now }
    ensures { result ≡ are_allowed conclusion.now (auxiliary_formulas (plain_rule rule.now).head (clause_at (plain_rule rule.now).clauses i) principal.now terms.now) items.now }
{
    let mut near = 0;
    for item in items {
        if !is_item_allowed(rule, i, principal, conclusion, terms, item, &mut near) {
            return false;
        }
    }
    true
}

// Whether there is a premise for each clause, and it has allowed items alone.
pub(crate) fn are_premises_allowed<const N: usize>(
    rule: &Rule<N>,
    principal: &Formula,
    before: &[Line<N>],
    conclusion: &Sequent<N>,
    premises: &[Cited],
) -> bool
    requires compound { is_compound_of (plain_rule rule.now).head principal.now ≡ true }
    requires terms { All (λ c. All (λ t. has_no_bound t ≡ true) c.terms) premises.now }
    ensures { result ≡ all_zip (is_allowed (plain_rule rule.now).head principal.now conclusion.now before.now) (plain_rule rule.now).clauses premises.now }
{
    if clause_count(rule) != premises.len() {
        return false;
    }
    for i in 0..premises.len() {
        let premise = &premises[i];
        let items = items_at(before, premise.line);
        if !are_items_allowed(rule, i, principal, conclusion, premise.terms.items(), items) {
            return false;
        }
    }
    true
}

// ---- eigenvariables

// Whether a term is among others.
fn is_among(term: &Term, others: &[Term]) -> bool
    ensures { result ≡ list_any (same_term term.now) others.now }
{
    for other in others {
        if same_term(term, other) {
            return true;
        }
    }
    false
}

// Whether a variable isn't free in the conclusion.
fn is_fresh<const N: usize>(name: &Name, conclusion: &[Signed<N>]) -> bool
    ensures { result ≡ list_all (λ item. not (free name.now item.formula)) conclusion.now }
{
    for item in conclusion {
        if has_free(name, &item.formula) {
            return false;
        }
    }
    true
}

// Whether a term is a free variable that isn't among others and isn't free in the conclusion.
#[tactic(auto, using(crate::proofs::Eigenvariables::eigenvariable_rules))]
fn is_eigenvariable<const N: usize>(conclusion: &[Signed<N>], others: &[Term], term: &Term) -> bool
    ensures { result ≡ is_eigenvariable conclusion.now others.now term.now }
{
    match term {
        Term::Bound(_) => false,
        Term::Free(name) => !is_among(term, others) && is_fresh(name, conclusion),
        Term::Apply(_, _) => false,
    }
}

// Whether terms are eigenvariables.
fn are_eigenvariables<const N: usize>(conclusion: &[Signed<N>], terms: &[Term]) -> bool
    ensures { result ≡ are_eigenvariables conclusion.now terms.now }
{
    for i in 0..terms.len() {
        let term = &terms[i];
        if !is_eigenvariable(conclusion, &terms[i + 1..], term) {
            return false;
        }
    }
    true
}

// The first of some terms, so many of them, as far as there are.
fn first_terms(terms: &[Term], count: usize) -> &[Term]
    ensures { result.now ≡ take count terms.now }
{
    if count < terms.len() {
        &terms[..count]
    } else {
        terms
    }
}

// Whether there is a premise for each clause, and its terms for `all` sets are eigenvariables.
pub(crate) fn have_eigenvariables<const N: usize>(
    rule: &Rule<N>,
    conclusion: &[Signed<N>],
    premises: &[Cited],
) -> bool
    ensures { result ≡ all_zip (has_eigenvariables (plain_rule rule.now).head conclusion.now) (plain_rule rule.now).clauses premises.now }
{
    if clause_count(rule) != premises.len() {
        return false;
    }
    for i in 0..premises.len() {
        let premise = &premises[i];
        let terms = first_terms(premise.terms.items(), eigenvariable_count(rule, i));
        if !are_eigenvariables(conclusion, terms) {
            return false;
        }
    }
    true
}
