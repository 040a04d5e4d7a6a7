// Whether a line is a step.
ghost use Rattle.std.specs.Prelude.{◌≡◌, ◌<◌, ◌↔◌, true, All, length, map, take, slice_get, option_map, Some, IsNone};
ghost use Rattle.std.specs.List.{list_all};
ghost use Rattle.lgc_values.specs.Values.{IsSize, has};
ghost use Rattle.lgc_clauses.specs.Kinds.{plain_rule};
ghost use Rattle.lgc_clauses.specs.Rules.{operator, quantifier};
ghost use Rattle.lgc_syntax.specs.Variables.{has_no_bound};
ghost use Rattle.lgc_sequents.specs.Sequents.{sign_in, is_included};
ghost use Rattle.lgc_sequents.specs.Lines.{PlainLine, at_position, premises_of, FitsLine};
ghost use Rattle.lgc_sequents.specs.Steps.{is_compound_of, without, IsStep};
ghost use Rattle.lgc_steps.specs.StepFaults.{plain_rules, FoundAt};
ghost use Rattle.lgc_steps.specs.StepTests.{first_failing, introduces, is_resolvent, rule_tests, resolve_tests, step_tests};

use crate::StepFault;
use crate::near::sign_near;
use crate::premises::{
    are_earlier, are_premises_allowed, have_eigenvariables, have_terms, is_position, items_at,
};
use lgc_clauses::{Numbered, Rule};
use lgc_sequents::{Cited, Line, Reason, Sequent, Signed};
use lgc_syntax::{Formula, same_formula};
use lgc_values::{Matrix, ValueSet};

// The rule at a position, counted from 1.
fn rule_at<const N: usize>(rules: &[Numbered<N>], position: u32) -> Option<&Rule<N>>
    ensures { option_map (λ rule. plain_rule rule.now) result ≡ at_position (plain_rules rules.now) position }
{
    if position == 0 || position as usize > rules.len() {
        return None;
    }
    let numbered = &rules[position as usize - 1];
    Some(&numbered.rule)
}

// ---- by a rule

// Whether the principal formula's outermost symbol is this operator.
#[tactic(auto, using(crate::proofs::Compounds::compound_rules))]
fn is_operation(op: u16, principal: &Formula) -> bool
    ensures { result ≡ is_compound_of (operator op) principal.now }
{
    match principal {
        Formula::Op(own, _) => *own == op,
        Formula::Atom(_, _) => false,
        Formula::Quant(_, _) => false,
    }
}

// Whether it is this quantifier.
#[tactic(auto, using(crate::proofs::Compounds::compound_rules))]
fn is_quantification(quant: u16, principal: &Formula) -> bool
    ensures { result ≡ is_compound_of (quantifier quant) principal.now }
{
    match principal {
        Formula::Quant(own, _) => *own == quant,
        Formula::Atom(_, _) => false,
        Formula::Op(_, _) => false,
    }
}

// Whether the principal formula's outermost symbol is the rule's, and its sign in the conclusion has all values of the rule's sign.
fn introduces<const N: usize>(rule: &Rule<N>, principal: &Formula, conclusion: &Sequent<N>) -> bool
    ensures { result ≡ introduces (plain_rule rule.now) principal.now conclusion.now }
{
    match rule {
        Rule::Operator(rule) => {
            is_operation(rule.op, principal) && rule.sign.is_subset(conclusion.sign_of(principal))
        }
        Rule::Quantifier(rule) => {
            is_quantification(rule.quant, principal)
                && rule.sign.is_subset(conclusion.sign_of(principal))
        }
    }
}

// The first part in which a line isn't a step by a rule.
fn rule_fault<const N: usize>(
    rule: &Rule<N>,
    before: &[Line<N>],
    conclusion: &Sequent<N>,
    principal: &Formula,
    premises: &[Cited],
) -> Option<StepFault>
    requires { All (λ c. All (λ t. has_no_bound t ≡ true) c.terms) premises.now }
    ensures { result ≡ first_failing (rule_tests before.now conclusion.now principal.now premises.now (plain_rule rule.now)) }
{
    if !are_earlier(before, premises) {
        return Some(StepFault::NotEarlier);
    }
    if !have_terms(rule, premises) {
        return Some(StepFault::Premises);
    }
    if !introduces(rule, principal, conclusion) {
        return Some(StepFault::Sign);
    }
    if !are_premises_allowed(rule, principal, before, conclusion, premises) {
        return Some(StepFault::Foreign);
    }
    if !have_eigenvariables(rule, conclusion.items(), premises) {
        return Some(StepFault::Eigenvariable);
    }
    None
}

// ---- by resolution

// The sign of a formula among items, empty where it doesn't occur.
fn sign_among<const N: usize>(items: &[Signed<N>], f: &Formula) -> ValueSet<N>
    requires { IsSize N }
    ensures { result ≡ sign_in items.now f.now }
{
    for item in items {
        if same_formula(f, &item.formula) {
            return item.sign;
        }
    }
    ValueSet::empty()
}

// Whether the items on other formulas are included in the conclusion.
fn are_kept<const N: usize>(f: &Formula, items: &[Signed<N>], conclusion: &Sequent<N>) -> bool
    ensures { result ≡ is_included (without f.now items.now) conclusion.now }
{
    let all = conclusion.items();
    let mut near = 0;
    for item in items {
        if !same_formula(f, &item.formula)
            && !item
                .sign
                .is_subset(sign_near(all, &item.formula, &mut near))
        {
            return false;
        }
    }
    true
}

// Whether the conclusion follows by resolution on a formula.
fn is_resolvent<const N: usize>(
    f: &Formula,
    left: &[Signed<N>],
    right: &[Signed<N>],
    conclusion: &Sequent<N>,
) -> bool
    ensures { result ≡ is_resolvent f.now left.now right.now conclusion.now }
{
    let _sequent = conclusion.items();
    if !are_kept(f, left, conclusion) {
        return false;
    }
    if !are_kept(f, right, conclusion) {
        return false;
    }
    let on_left = sign_among(left, f);
    let _below = on_left.bound();
    on_left
        .meet(sign_among(right, f))
        .is_subset(conclusion.sign_of(f))
}

// The first part in which a line isn't a step by resolution.
fn resolve_fault<const N: usize>(
    before: &[Line<N>],
    conclusion: &Sequent<N>,
    f: &Formula,
    left: u64,
    right: u64,
) -> Option<StepFault>
    ensures { result ≡ first_failing (resolve_tests before.now conclusion.now f.now left right) }
{
    if !is_position(before, left) || !is_position(before, right) {
        return Some(StepFault::NotEarlier);
    }
    if !is_resolvent(
        f,
        items_at(before, left),
        items_at(before, right),
        conclusion,
    ) {
        return Some(StepFault::Foreign);
    }
    None
}

// ---- by any reason

fn reason_fault<const N: usize>(
    rules: &[Numbered<N>],
    before: &[Line<N>],
    conclusion: &Sequent<N>,
    reason: &Reason,
) -> Option<StepFault>
    requires { All (λ c. All (λ t. has_no_bound t ≡ true) c.terms) (premises_of reason.now) }
    ensures { result ≡ first_failing (step_tests N (plain_rules rules.now) before.now conclusion.now reason.now) }
{
    match reason {
        Reason::Axiom => {
            if conclusion.is_axiom() {
                None
            } else {
                Some(StepFault::Incomplete)
            }
        }
        Reason::Pending => None,
        Reason::ByRule {
            rule,
            principal,
            premises,
        } => match rule_at(rules, *rule) {
            Some(rule) => rule_fault(rule, before, conclusion, principal, premises.items()),
            None => Some(StepFault::UnknownRule),
        },
        Reason::Resolve { on, left, right } => {
            resolve_fault(before, conclusion, on, *left, *right)
        }
    }
}

/// Tells whether the line at a place, counted from 0, is a step by the rules and the lines before it. It takes no memory.
///
/// `None` says that it is. Else the answer is the first part in which it isn't, in the order of the variants of [`StepFault`]. Whether the
/// rules are exact isn't asked, nor is the number that is written before the line.
pub fn step_fault<const N: usize>(
    m: &Matrix<N>,
    rules: &[Numbered<N>],
    lines: &[Line<N>],
    at: usize,
) -> Option<StepFault>
    requires at { at < length lines.now }
    requires fits { All (FitsLine m.now) lines.now }
    ensures found { FoundAt N (plain_rules rules.now) lines.now at result }
    // It is a step exactly where no part fails.
    ensures step { (line : PlainLine) → slice_get lines.now at ≡ Some line → (IsNone result ↔ IsStep N (plain_rules rules.now) (take at lines.now) line) }
{
    let line = &lines[at];
    reason_fault(rules, &lines[..at], &line.sequent, &line.reason)
}
