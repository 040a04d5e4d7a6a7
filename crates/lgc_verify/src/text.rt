// The lines that tell verdicts.
ghost use Rattle.std.specs.Prelude.{◌≡◌, ◌++◌, ◌<◌, ◌≤◌, ◌^◌, ◌↔◌, [], ℕ, ◌-◌, length, All, map, slice_index_or, IsTrue, OnOk, IfOk};
ghost use Rattle.lgc_values.specs.declared.TheConstants.{MOST_ROWS};
ghost use Rattle.lgc_values.specs.Logic.{operator_at, arguments_at};
ghost use Rattle.lgc_clauses.specs.Kinds.{plain_rule};
ghost use Rattle.lgc_values.specs.Values.{set_of_row};
ghost use Rattle.lgc_clauses.specs.Rules.{operator, rows_of, Fits};
ghost use Rattle.lgc_clauses.specs.Irredundance.{IsNumbered};
ghost use Rattle.lgc_print.specs.Text.{set_text};
ghost use Rattle.lgc_verify.specs.Verdicts.{IsVerdict, values_text, row_text, place_text, clause_label, part_text, verdict_text, line_text, IsRight, IsText};

use crate::verdict::{Verdict, is_right, judge};
use lgc_clauses::{Droppable, Part, Rule};
use lgc_print::{put_number, put_set, put_value};
use lgc_values::{Matrix, Name, argument_at};
use std::alloc::{AllocError, Global};

/// The lines on rules, and whether all of the rules are right.
#[derive(Debug, Drop)]
pub struct Judged {
    pub lines: Vec<u8>,
    pub all_right: bool,
}

fn name_of(names: &[Name], value: u8) -> &[u8]
    ensures { result.now ≡ slice_index_or names.now value [] }
{
    match names.get(value as usize) {
        Some(name) => name.bytes(),
        None => b"",
    }
}

// The number of arguments of operator `op`.
fn arity_of<const N: usize>(m: &Matrix<N>, op: u16) -> u32
    requires { op < length m.now.operators }
    ensures arity { result ≡ (operator_at m.now op).arity }
    ensures rows { N ^ result ≤ MOST_ROWS }
    ensures size { m.now.size ≡ N }
{
    u32::from(m.operators()[op as usize].arity)
}

#[tactic(auto, using(std::proofs::lemmas::Grind::common_steps, lgc_print::proofs::TextLaws::joined_more, lgc_print::proofs::TextLaws::between_more, crate::proofs::Lines::arguments_more, crate::proofs::Lines::all_arguments))]
fn put_arguments<const N: usize>(
    m: &Matrix<N>,
    arity: u32,
    row: u32,
    into: &mut Vec<u8>,
) -> Result<(), AllocError>
    requires { N ^ arity ≤ MOST_ROWS }
    ensures { OnOk result (into.new.items ≡ into.old.items ++ values_text m.now.names (arguments_at N arity row)) }
{
    let names = m.names();
    let mut separator: &[u8] = b"";
    for j in 0..arity {
        into.extend_from_slice(separator)?;
        let argument = argument_at(N as u32, arity, row, j);
        put_value(name_of(names, argument), into)?;
        separator = b",";
    }
    Ok(())
}

// Puts the arguments of a row of operator `op`.
fn put_operator_row<const N: usize>(
    m: &Matrix<N>,
    op: u16,
    row: u32,
    into: &mut Vec<u8>,
) -> Result<(), AllocError>
    requires { op < length m.now.operators }
    ensures { OnOk result (into.new.items ≡ into.old.items ++ row_text m.now (operator op) row) }
{
    let arity = arity_of(m, op);
    into.push(b'(')?;
    put_arguments(m, arity, row, into)?;
    into.push(b')')?;
    Ok(())
}

// Puts the set in a quantifier's row.
fn put_quantifier_row<const N: usize>(
    m: &Matrix<N>,
    row: u32,
    into: &mut Vec<u8>,
) -> Result<(), AllocError>
    requires { row < 2 ^ m.now.size - 1 }
    ensures { OnOk result (into.new.items ≡ into.old.items ++ set_text m.now.names (set_of_row m.now.size row)) }
{
    put_set(m.names(), m.set_of_row(row), into)
}

/// Puts a row of a rule's table: the arguments of an operator's row in round brackets, or the set in a quantifier's row. The row is given by
/// its index.
pub fn put_row<const N: usize>(
    m: &Matrix<N>,
    rule: &Rule<N>,
    row: u32,
    into: &mut Vec<u8>,
) -> Result<(), AllocError>
    requires fits { Fits m.now (plain_rule rule.now) }
    requires row { row < rows_of m.now (plain_rule rule.now).head }
    ensures { OnOk result (into.new.items ≡ into.old.items ++ row_text m.now (plain_rule rule.now).head row) }
{
    match rule {
        Rule::Operator(rule) => put_operator_row(m, rule.op, row, into),
        Rule::Quantifier(_) => put_quantifier_row(m, row, into),
    }
}

fn put_place(alloc: Global, part: Part, into: &mut Vec<u8>) -> Result<(), AllocError>
    ensures { OnOk result (into.new.items ≡ into.old.items ++ place_text part) }
{
    match part {
        Part::Argument(argument) => {
            into.extend_from_slice(b"argument ")?;
            put_number(alloc, argument, into)
        }
        Part::All(all) => {
            into.extend_from_slice(b"all ")?;
            put_number(alloc, all, into)
        }
        Part::Some => into.extend_from_slice(b"some"),
    }
}

fn put_clause(alloc: Global, clause: u32, into: &mut Vec<u8>) -> Result<(), AllocError>
    ensures { OnOk result (into.new.items ≡ into.old.items ++ clause_label clause) }
{
    into.extend_from_slice(b"clause ")?;
    put_number(alloc, clause, into)
}

fn put_part(
    alloc: Global,
    names: &[Name],
    part: Droppable,
    into: &mut Vec<u8>,
) -> Result<(), AllocError>
    ensures { OnOk result (into.new.items ≡ into.old.items ++ part_text names.now part) }
{
    match part {
        Droppable::Clause(clause) => put_clause(alloc, clause, into),
        Droppable::Value {
            clause,
            part,
            value,
        } => {
            into.extend_from_slice(b"value ")?;
            put_value(name_of(names, value), into)?;
            into.extend_from_slice(b" of ")?;
            put_place(alloc, part, into)?;
            into.extend_from_slice(b" in ")?;
            put_clause(alloc, clause, into)
        }
    }
}

fn put_verdict<const N: usize>(
    alloc: Global,
    m: &Matrix<N>,
    rule: &Rule<N>,
    verdict: Verdict,
    into: &mut Vec<u8>,
) -> Result<(), AllocError>
    requires fits { Fits m.now (plain_rule rule.now) }
    requires judged { IsVerdict m.now (plain_rule rule.now) verdict }
    ensures { OnOk result (into.new.items ≡ into.old.items ++ verdict_text m.now (plain_rule rule.now) verdict) }
{
    match verdict {
        Verdict::Differs(row) => {
            into.extend_from_slice(b"differs at ")?;
            put_row(m, rule, row, into)
        }
        Verdict::Superfluous(part) => {
            put_part(alloc, m.names(), part, into)?;
            into.extend_from_slice(b" is superfluous")
        }
        Verdict::Right => into.extend_from_slice(b"right"),
    }
}

// Puts the line on a rule.
#[tactic(auto, unfolding(crate::specs::Verdicts::line_text))]
fn put_line<const N: usize>(
    alloc: Global,
    m: &Matrix<N>,
    number: usize,
    rule: &Rule<N>,
    verdict: Verdict,
    into: &mut Vec<u8>,
) -> Result<(), AllocError>
    requires fits { Fits m.now (plain_rule rule.now) }
    requires judged { IsVerdict m.now (plain_rule rule.now) verdict }
    ensures { OnOk result (into.new.items ≡ into.old.items ++ line_text m.now number (plain_rule rule.now) verdict) }
{
    let head = format!(in alloc; "rule {number}: ")?;
    into.extend_from_slice(head.as_bytes())?;
    put_verdict(alloc, m, rule, verdict, into)?;
    into.extend_from_slice(b".\n")
}

/// The lines on rules, and whether all of them are right: whether each is exact and irredundant.
pub fn judge_rules<const N: usize>(
    alloc: Global,
    m: &Matrix<N>,
    rules: &[Rule<N>],
) -> Result<Judged, AllocError>
    requires fits { All (λ rule. Fits m.now (plain_rule rule)) rules.now }
    requires numbered { All (λ rule. IsNumbered (plain_rule rule)) rules.now }
    ensures lines { IfOk result (λ judged. IsText m.now (map plain_rule rules.now) judged.lines.items) }
    ensures right { IfOk result (λ judged. IsTrue judged.all_right ↔ All (IsRight m.now) (map plain_rule rules.now)) }
{
    let mut lines = Vec::new(alloc);
    let mut all_right = true;
    for (i, rule) in rules.iter().enumerate() {
        let verdict = judge(m, rule);
        put_line(alloc, m, i + 1, rule, verdict, &mut lines)?;
        all_right = all_right && is_right(verdict);
    }
    Ok(Judged { lines, all_right })
}
