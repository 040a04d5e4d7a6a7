// The sets of a rule's clause that stand on a formula.
ghost use Rattle.std.specs.Prelude.{◌≡◌, ◌<◌, ◌++◌, true, List, All, length, map, take, drop};
ghost use Rattle.lgc_values.specs.Values.{IsSize};
ghost use Rattle.lgc_clauses.specs.Kinds.{plain_rule};
ghost use Rattle.lgc_clauses.specs.Rules.{operator, quantifier};
ghost use Rattle.lgc_clauses.specs.Irredundance.{clause_at};
ghost use Rattle.lgc_syntax.specs.Variables.{has_no_bound};
ghost use Rattle.lgc_syntax.specs.declared.formula.Term.{Term};
ghost use Rattle.lgc_syntax.specs.Substitution.{inst};
ghost use Rattle.lgc_sequents.specs.Steps.{is_compound_of, formulas_below, with_signs, auxiliary_formulas, eigenvariable_count, term_count};
ghost use Rattle.lgc_steps.specs.StepTests.{Covers};

use lgc_clauses::{QClause, Rule};
use lgc_syntax::{Formula, Term, is_instance, same_formula};
use lgc_values::ValueSet;

// The number of a rule's clauses.
pub(crate) fn clause_count<const N: usize>(rule: &Rule<N>) -> usize
    ensures { result ≡ length (plain_rule rule.now).clauses }
{
    match rule {
        Rule::Operator(rule) => rule.clauses.len(),
        Rule::Quantifier(rule) => rule.clauses.len(),
    }
}

fn clause_terms<const N: usize>(clause: &QClause<N>) -> usize
    ensures { result ≡ term_count (quantifier 0) clause.now }
{
    let all = clause.all.items().len();
    if clause.some.is_empty() { all } else { all + 1 }
}

// How many terms the premise for clause `i`, counted from 0, has.
pub(crate) fn term_count<const N: usize>(rule: &Rule<N>, i: usize) -> usize
    requires { i < length (plain_rule rule.now).clauses }
    ensures { result ≡ term_count (plain_rule rule.now).head (clause_at (plain_rule rule.now).clauses i) }
{
    match rule {
        Rule::Operator(_) => 0,
        Rule::Quantifier(rule) => clause_terms(rule.clauses.get(i)),
    }
}

// How many of them are eigenvariables.
pub(crate) fn eigenvariable_count<const N: usize>(rule: &Rule<N>, i: usize) -> usize
    requires { i < length (plain_rule rule.now).clauses }
    ensures { result ≡ eigenvariable_count (plain_rule rule.now).head (clause_at (plain_rule rule.now).clauses i) }
{
    match rule {
        Rule::Operator(_) => 0,
        Rule::Quantifier(rule) => rule.clauses.get(i).all.len(),
    }
}

// The values of the sets that stand on a formula, where each set stands on the argument at its place.
fn on_arguments<const N: usize>(
    sets: &[ValueSet<N>],
    arguments: &[Formula],
    f: &Formula,
) -> ValueSet<N>
    requires { IsSize N }
    ensures { Covers N (with_signs sets.now arguments.now) f.now result }
{
    let mut covered = ValueSet::empty();
    for i in 0..sets.len().min(arguments.len()) {
        let argument = &arguments[i];
        if same_formula(f, argument) {
            covered = covered.union(sets[i]);
        }
    }
    covered
}

// The same, where each set stands on the instance of a formula by the term at its place.
fn on_instances<const N: usize>(
    sets: &[ValueSet<N>],
    body: &Formula,
    terms: &[Term],
    f: &Formula,
) -> ValueSet<N>
    requires size { IsSize N }
    requires terms { All (λ t. has_no_bound t ≡ true) terms.now }
    ensures { Covers N (with_signs sets.now (map (inst body.now) terms.now)) f.now result }
{
    let mut covered = ValueSet::empty();
    for i in 0..sets.len().min(terms.len()) {
        let term = &terms[i];
        if is_instance(body, term, f) {
            covered = covered.union(sets[i]);
        }
    }
    covered
}

// The same with the sets of a quantifier's clause, of which the `some` set is the last.
fn on_clause<const N: usize>(
    clause: &QClause<N>,
    body: &Formula,
    terms: &[Term],
    f: &Formula,
) -> ValueSet<N>
    requires size { IsSize N }
    requires terms { All (λ t. has_no_bound t ≡ true) terms.now }
    ensures { Covers N (with_signs (drop 1 clause.now ++ take 1 clause.now) (map (inst body.now) terms.now)) f.now result }
{
    let all = clause.all.items();
    let covered = on_instances(all, body, terms, f);
    if terms.len() <= all.len() {
        return covered;
    }
    let term = &terms[all.len()];
    if is_instance(body, term, f) {
        covered.union(clause.some)
    } else {
        covered
    }
}

// The arguments of a compound of this operator.
#[tactic(auto, using(crate::proofs::Compounds::compound_rules))]
fn arguments_of(op: u16, principal: &Formula) -> &[Formula]
    requires { is_compound_of (operator op) principal.now ≡ true }
    ensures { (terms : List Term) → result.now ≡ formulas_below principal.now terms }
{
    match principal {
        Formula::Op(_, arguments) => arguments.items(),
        Formula::Atom(_, _) => unreachable!(),
        Formula::Quant(_, _) => unreachable!(),
    }
}

// The body of a compound of this quantifier.
#[tactic(auto, using(crate::proofs::Compounds::compound_rules))]
fn body_of(quant: u16, principal: &Formula) -> &Formula
    requires { is_compound_of (quantifier quant) principal.now ≡ true }
    ensures { (terms : List Term) → map (inst result.now) terms ≡ formulas_below principal.now terms }
{
    match principal {
        Formula::Quant(_, body) => body.get(),
        Formula::Atom(_, _) => unreachable!(),
        Formula::Op(_, _) => unreachable!(),
    }
}

/// The values of the sets of clause `i`, counted from 0, that stand on a formula in its premise, which has these terms.
pub(crate) fn standing<const N: usize>(
    rule: &Rule<N>,
    i: usize,
    principal: &Formula,
    terms: &[Term],
    f: &Formula,
) -> ValueSet<N>
    requires size { IsSize N }
    requires clause { i < length (plain_rule rule.now).clauses }
    requires compound { is_compound_of (plain_rule rule.now).head principal.now ≡ true }
    requires terms { All (λ t. has_no_bound t ≡ true) terms.now }
    ensures { Covers N (auxiliary_formulas (plain_rule rule.now).head (clause_at (plain_rule rule.now).clauses i) principal.now terms.now) f.now result }
{
    match rule {
        Rule::Operator(rule) => {
            let sets = rule.clauses.get(i).sets.items();
            on_arguments(sets, arguments_of(rule.op, principal), f)
        }
        Rule::Quantifier(rule) => {
            let clause = rule.clauses.get(i);
            on_clause(clause, body_of(rule.quant, principal), terms, f)
        }
    }
}
