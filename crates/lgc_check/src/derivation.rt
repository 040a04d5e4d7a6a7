// The first rule or line that has a cause.
ghost use Rattle.std.specs.Prelude.{◌≡◌, ◌<◌, ◌+◌, map, slice_get, Some, IsNone, MatchOption, All, length};
ghost use Rattle.lgc_clauses.specs.Kinds.{plain_rule};
ghost use Rattle.lgc_clauses.specs.Rules.{Fits};
ghost use Rattle.lgc_sequents.specs.Sequents.{IsSequent};
ghost use Rattle.lgc_sequents.specs.Lines.{PlainLine, FitsLine};
ghost use Rattle.lgc_steps.specs.StepFaults.{plain_rules};
ghost use Rattle.lgc_report.specs.Reports.{plain_numbered};
ghost use Rattle.lgc_check.specs.Causes.{cause_of_step, found_of_number, found_of_rule, found_of_line};
ghost use Rattle.lgc_check.specs.Verdicts.{AreRight, IsFirstFault};

use crate::verdict::{Cause, Fault};
use lgc_clauses::{Numbered, rule_exact};
use lgc_sequents::Line;
use lgc_steps::{StepFault, step_fault};
use lgc_values::Matrix;

// The cause of an item with a number, where only that is asked.
fn number_cause(number: u64, position: u64) -> Option<Cause>
    ensures { found_of_number position number result }
{
    if number == position {
        None
    } else {
        Some(Cause::Misnumbered)
    }
}

// ---- rules

fn rule_cause<const N: usize>(m: &Matrix<N>, numbered: &Numbered<N>, position: u64) -> Option<Cause>
    requires { Fits m.now (plain_rule numbered.now.rule) }
    ensures { found_of_rule m.now position (plain_numbered numbered.now) result }
{
    match rule_exact(m, &numbered.rule) {
        Some(row) => Some(Cause::Inexact(row)),
        None => number_cause(u64::from(numbered.number), position),
    }
}

pub(crate) fn first_of_rules<const N: usize>(m: &Matrix<N>, rules: &[Numbered<N>]) -> Option<Fault>
    requires { All (λ numbered. Fits m.now (plain_rule numbered.rule)) rules.now }
    ensures { MatchOption result (AreRight (found_of_rule m.now) (map plain_numbered rules.now)) (λ fault. IsFirstFault (found_of_rule m.now) (map plain_numbered rules.now) fault.position fault.cause) }
{
    for (i, numbered) in rules.iter().enumerate() {
        let position = i as u64 + 1;
        if let Some(cause) = rule_cause(m, numbered, position) {
            return Some(Fault { position, cause });
        }
    }
    None
}

// ---- lines

fn cause_of_step(fault: StepFault) -> Cause
    ensures { result ≡ cause_of_step fault }
{
    match fault {
        StepFault::UnknownRule => Cause::UnknownRule,
        StepFault::NotEarlier => Cause::UnknownLine,
        StepFault::Premises => Cause::Premises,
        StepFault::Sign => Cause::Sign,
        StepFault::Foreign => Cause::Foreign,
        StepFault::Eigenvariable => Cause::Eigenvariable,
        StepFault::Incomplete => Cause::Incomplete,
    }
}

// The cause of the line at a place, counted from 0.
fn line_cause<const N: usize>(
    m: &Matrix<N>,
    rules: &[Numbered<N>],
    lines: &[Line<N>],
    at: usize,
) -> Option<Cause>
    requires at { at < length lines.now }
    requires fits { All (FitsLine m.now) lines.now }
    ensures cause { (line : PlainLine) → slice_get lines.now at ≡ Some line → found_of_line N (plain_rules rules.now) lines.now (at + 1) line result }
    ensures sequent { (line : PlainLine) → slice_get lines.now at ≡ Some line → IsSequent N line.sequent }
{
    let line = &lines[at];
    let _items = line.sequent.items();
    match step_fault(m, rules, lines, at) {
        Some(fault) => Some(cause_of_step(fault)),
        None => number_cause(line.number, at as u64 + 1),
    }
}

pub(crate) fn first_of_lines<const N: usize>(
    m: &Matrix<N>,
    rules: &[Numbered<N>],
    lines: &[Line<N>],
) -> Option<Fault>
    requires { All (FitsLine m.now) lines.now }
    ensures found { MatchOption result (AreRight (found_of_line N (plain_rules rules.now) lines.now) lines.now) (λ fault. IsFirstFault (found_of_line N (plain_rules rules.now) lines.now) lines.now fault.position fault.cause) }
    ensures sequents { IsNone result → All (λ line. IsSequent N line.sequent) lines.now }
{
    for i in 0..lines.len() {
        if let Some(cause) = line_cause(m, rules, lines, i) {
            let position = i as u64 + 1;
            return Some(Fault { position, cause });
        }
    }
    None
}
