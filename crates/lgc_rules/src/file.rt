// Reading rule files, and single rules among tokens.
ghost use Rattle.std.specs.Prelude.{◌≡◌, ℕ, [], ◌+◌, ◌<◌, ◌≤◌, ◌^◌, ◌-◌, ◌++◌, List, length, drop, All, IfOk, Result, Ok};
ghost use Rattle.lgc_grammar.specs.Reading.{whole};
ghost use Rattle.lgc_lexer.specs.Spans.{AllIn};
ghost use Rattle.lgc_lexer.specs.Tokens.{tokens_of};
ghost use Rattle.lgc_clauses.specs.declared.rule.Rule.{Rule};
ghost use Rattle.lgc_clauses.specs.declared.rule.Numbered.{Numbered};
ghost use Rattle.lgc_syntax.specs.declared.fault.InputFault.{InputFault};
ghost use Rattle.lgc_tokens.specs.declared.number.TheConstants.{MOST_NUMBER};
ghost use Rattle.lgc_tokens.specs.Spelled.{Spelled, spelled_all, place_of, IsRest, IsShorter};
ghost use Rattle.lgc_rules.specs.RuleReading.{next_rule_at, rules_at};
ghost use Rattle.lgc_tokens.specs.Gives.{Gives};
ghost use Rattle.lgc_inputs.specs.Told.{Holds, IfFault, IsTree, Tells, told_of};
ghost use Rattle.lgc_rules.specs.RuleFile.{IsRuleFor, FileGives, IsFileOf, IsRuleFault, IsFileFault};
ghost use Rattle.lgc_inputs.specs.Places.{with_rest};
ghost use Rattle.lgc_rules.specs.RulePlace.{AnyNumbered, RuleGives};
ghost use Rattle.lgc_rules.specs.FileReading.{file_read, rule_read};

use crate::reading::Rest;
use crate::rule::one_rule;
use lgc_clauses::{Numbered, Rule};
use lgc_inputs::{fault_at, fault_of, tokens_in};
use lgc_lexer::Token;
use lgc_syntax::{InputFault, UNEXPECTED};
use lgc_tokens::{Class, MOST_NUMBER, Reading, Stop, Terminal, next_is, place};
use lgc_values::{List, Matrix};
use std::alloc::Global;

/// The greatest length of a rule file, in bytes.
pub const LONGEST_FILE: usize = 33_554_432;

// The next rule, whose number is its place, is appended.
fn next_rule<'a, const N: usize>(
    alloc: Global,
    m: &Matrix<N>,
    bytes: &[u8],
    rules: &mut List<Rule<N>>,
    tokens: &'a [Token],
) -> Rest<'a>
    requires inside { AllIn bytes.now tokens.now }
    requires few { length rules.old < MOST_NUMBER }
    ensures gives { Gives bytes.now (λ x. (rules.new, spelled_all bytes.now x.now)) result (next_rule_at N m.now rules.old (spelled_all bytes.now tokens.now)) }
    ensures one { IfOk result (λ _. length rules.new ≡ length rules.old + 1) }
    ensures rest { IfOk result (λ x. IsShorter bytes.now tokens.now x.now) }
{
    let number = rules.len() as u32 + 1;
    match one_rule(alloc, m, bytes, number, number, tokens) {
        Ok((next, rest)) => {
            rules.push(next.rule)?;
            Ok(rest)
        }
        Err(stop) => Err(stop),
    }
}

// All rules.
fn more_rules<'a, const N: usize>(
    alloc: Global,
    m: &Matrix<N>,
    bytes: &[u8],
    tokens: &'a [Token],
) -> Reading<'a, List<Rule<N>>>
    requires inside { AllIn bytes.now tokens.now }
    requires few { length tokens.now < MOST_NUMBER }
    ensures gives { Gives bytes.now (λ x. (x.0, spelled_all bytes.now x.1.now)) result (rules_at N m.now (spelled_all bytes.now tokens.now)) }
{
    let mut rules = List::new(alloc);
    let mut rest = tokens;
    while next_is(bytes, Terminal::Only(Class::RuleWord), rest) {
        rest = next_rule(alloc, m, bytes, &mut rules, rest)?;
    }
    Ok((rules, rest))
}

fn rules_of<const N: usize>(
    alloc: Global,
    m: &Matrix<N>,
    bytes: &[u8],
    tokens: &[Token],
) -> Result<List<Rule<N>>, InputFault>
    requires length { length bytes.now < 2 ^ 32 }
    requires inside { AllIn bytes.now tokens.now }
    requires few { length tokens.now < MOST_NUMBER }
    ensures { Tells (λ rules. rules) result (told_of place_of (length bytes.now) (whole (rules_at N m.now) (spelled_all bytes.now tokens.now))) }
{
    match more_rules(alloc, m, bytes, tokens) {
        Ok((rules, [])) => Ok(rules),
        Ok((_, rest)) => Err(fault_at(UNEXPECTED, place(bytes, rest))),
        Err(stop) => Err(fault_of(bytes, stop)),
    }
}

fn rules_in<const N: usize>(
    alloc: Global,
    m: &Matrix<N>,
    bytes: &[u8],
) -> Result<List<Rule<N>>, InputFault>
    ensures { Tells (λ rules. rules) result (file_read N m.now bytes.now) }
{
    let tokens = tokens_in(alloc, bytes, LONGEST_FILE as u32)?;
    rules_of(alloc, m, bytes, &tokens)
}

/// The rules of a rule file, in their order; or its first fault.
///
/// The faults are looked for in this order: the file is longer than 33,554,432 bytes, then the bytes have no tokens, and then
/// the text is read from the left, up to the first token at which there is one. The numbers and places are those of `InputFault`'s
/// constants. `Memory` may come at any bytes.
pub fn read_rules<const N: usize>(
    alloc: Global,
    m: &Matrix<N>,
    bytes: &[u8],
) -> Result<List<Rule<N>>, InputFault>
    // The rules are the grammar's, and a fault is at the first token that breaks a rule, or with which no rule file goes on.
    ensures answer { Holds (FileGives N m.now bytes.now) result }
    // No other answer is right.
    ensures once { (told : Result (List (Rule N)) InputFault) → FileGives N m.now bytes.now told → Tells (λ rules. rules) result told }
    // What is in the grammar is read, with these rules alone.
    ensures complete { (rules : List (Rule N)) → IsFileOf N m.now bytes.now rules → IsTree (λ rules. rules) result rules }
    // Each is a rule for the logic.
    ensures fits { IfOk result (λ rules. All (IsRuleFor N m.now) rules) }
    // The number of a fault is one from 1 to 6, or from 10 to 12.
    ensures faults { IfFault result IsFileFault }
    // The same as one function of the bytes.
    ensures exact { Tells (λ rules. rules) result (file_read N m.now bytes.now) }
{
    let _names = m.names();
    rules_in(alloc, m, bytes)
}

// The rule that begins with these tokens, and how many tokens are behind it.
fn rule_behind<const N: usize>(
    alloc: Global,
    m: &Matrix<N>,
    bytes: &[u8],
    tokens: &[Token],
) -> Result<(Numbered<N>, usize), InputFault>
    requires length { length bytes.now < 2 ^ 32 }
    requires inside { AllIn bytes.now tokens.now }
    ensures exact { Tells (λ x. (x.0, drop (length tokens.now - x.1) (spelled_all bytes.now tokens.now))) result (rule_read N m.now (length bytes.now) (spelled_all bytes.now tokens.now)) }
    ensures within { IfOk result (λ x. x.1 < length tokens.now) }
{
    match one_rule(alloc, m, bytes, 0, MOST_NUMBER, tokens) {
        Ok((rule, rest)) => Ok((rule, rest.len())),
        Err(stop) => Err(fault_of(bytes, stop)),
    }
}

fn rule_from<const N: usize>(
    alloc: Global,
    m: &Matrix<N>,
    bytes: &[u8],
    tokens: &[Token],
    at: usize,
) -> Result<(Numbered<N>, usize), InputFault>
    requires length { length bytes.now < 2 ^ 32 }
    requires inside { AllIn bytes.now tokens.now }
    requires at { at ≤ length tokens.now }
    ensures exact { Tells (λ x. (x.0, drop x.1 (spelled_all bytes.now tokens.now))) result (rule_read N m.now (length bytes.now) (drop at (spelled_all bytes.now tokens.now))) }
    ensures behind { IfOk result (λ x. at < x.1) }
    ensures within { IfOk result (λ x. x.1 ≤ length tokens.now) }
{
    let (_, from) = tokens.split_at(at);
    match rule_behind(alloc, m, bytes, from) {
        Ok((rule, left)) => Ok((rule, tokens.len() - left)),
        Err(fault) => Err(fault),
    }
}

/// The rule that begins at token `at`, counted from 0, with any number, and the place of the token behind it; or the first
/// fault from there on.
///
/// The tokens are those of `lex` over the bytes. `Memory` may come at any tokens.
pub fn rule_at<const N: usize>(
    alloc: Global,
    m: &Matrix<N>,
    bytes: &[u8],
    tokens: &[Token],
    at: usize,
) -> Result<(Numbered<N>, usize), InputFault>
    requires length { length bytes.now < 2 ^ 32 }
    requires tokens { tokens_of bytes.now ≡ Ok tokens.now }
    requires at { at ≤ length tokens.now }
    // The rule is one of the grammar, and a fault is at the first token that breaks a rule, or with which no rule goes on.
    ensures answer { Holds (RuleGives N m.now (length bytes.now) (spelled_all bytes.now tokens.now) at) result }
    // No other answer is right.
    ensures once { (told : Result (Numbered N × ℕ) InputFault) → RuleGives N m.now (length bytes.now) (spelled_all bytes.now tokens.now) at told → Tells (λ x. (x.0, drop x.1 (spelled_all bytes.now tokens.now))) result (with_rest (spelled_all bytes.now tokens.now) told) }
    // A rule that stands there is read.
    ensures complete { (rule : Numbered N) (front rest : List Spelled) → drop at (spelled_all bytes.now tokens.now) ≡ front ++ rest → AnyNumbered N m.now (Ok rule) front → IsTree {A = Numbered N × List Spelled} (λ x. (x.0, drop x.1 (spelled_all bytes.now tokens.now))) result (rule, rest) }
    // It is a rule for the logic.
    ensures fits { IfOk result (λ x. IsRuleFor N m.now x.0.rule) }
    // The number of a fault is one from 4 to 6, or from 10 to 12.
    ensures faults { IfFault result IsRuleFault }
    // The place behind it is behind that of its first token.
    ensures behind { IfOk result (λ x. at < x.1) }
    ensures within { IfOk result (λ x. x.1 ≤ length tokens.now) }
    // The same as one function of the tokens.
    ensures exact { Tells (λ x. (x.0, drop x.1 (spelled_all bytes.now tokens.now))) result (rule_read N m.now (length bytes.now) (drop at (spelled_all bytes.now tokens.now))) }
{
    let _names = m.names();
    rule_from(alloc, m, bytes, tokens, at)
}
