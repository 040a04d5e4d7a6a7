// Rules in the order of their first use.
ghost use Rattle.std.specs.Prelude.{◌≡◌, ◌<◌, ◌^◌, [], length, map, All, Contains, IfOk, OnOk};
ghost use Rattle.std.specs.List.{fold};
ghost use Rattle.lgc_clauses.specs.Rules.{of_operator};
ghost use Rattle.lgc_sequents.specs.Lines.{IsPosition};
ghost use Rattle.lgc_sequents.specs.Steps.{AreSteps};
ghost use Rattle.lgc_report.specs.Reports.{plain_numbered};
ghost use Rattle.lgc_prove.specs.ByUse.{IsByUse, rules_of_reason, rules_cited, with_number, first_uses, renumbered};
ghost use Rattle.lgc_prove.specs.Uses.{number_in, AreNumberedFrom};

use crate::copy::copy_rule;
use indexmap::IndexSet;
use lgc_clauses::{Numbered, OpRule, Rule};
use lgc_sequents::{Line, Reason};
use lgc_values::List;
use std::alloc::{AllocError, Global};

/// The rules that lines cite, numbered in the order of their first use, and the lines with these numbers.
pub(crate) fn by_use<const N: usize>(
    alloc: Global,
    rules: &[OpRule<N>],
    lines: List<Line<N>>,
) -> Result<(List<Numbered<N>>, List<Line<N>>), AllocError>
    requires few { length rules.now < 2 ^ 32 }
    requires steps { AreSteps N (map of_operator rules.now) [] lines }
    ensures { IfOk result (λ told. IsByUse N rules.now lines.entry (map plain_numbered told.0) told.1) }
{
    let uses = rules_in_use(alloc, lines.items())?;
    let used = numbered_from(alloc, rules, uses.as_slice())?;
    Ok((used, renumber_lines(lines, &uses)))
}

// The positions of the rules that lines cite, in the order of their first use.
fn rules_in_use<const N: usize>(
    alloc: Global,
    lines: &[Line<N>],
) -> Result<IndexSet<u32>, AllocError>
    ensures { IfOk result (λ uses. uses.keys ≡ first_uses (rules_cited lines.now)) }
{
    let mut uses = IndexSet::new(alloc);
    for line in lines {
        put_use(line, &mut uses)?;
    }
    Ok(uses)
}

fn put_use<const N: usize>(line: &Line<N>, uses: &mut IndexSet<u32>) -> Result<(), AllocError>
    ensures { OnOk result (uses.new.keys ≡ fold with_number uses.old.keys (rules_of_reason line.now.reason)) }
{
    if let Reason::ByRule { rule, .. } = &line.reason {
        uses.insert(*rule)?;
    }
    Ok(())
}

// Copies of the rules at some positions, numbered in this order.
fn numbered_from<const N: usize>(
    alloc: Global,
    rules: &[OpRule<N>],
    uses: &[u32],
) -> Result<List<Numbered<N>>, AllocError>
    requires few { length uses.now < 2 ^ 32 }
    requires positions { All (IsPosition rules.now) uses.now }
    ensures { IfOk result (λ used. AreNumberedFrom rules.now uses.now (map plain_numbered used)) }
{
    let mut used = List::new(alloc);
    for position in uses {
        let rule = copy_rule(alloc, &rules[*position as usize - 1])?;
        let number = used.len() as u32 + 1;
        used.push(Numbered {
            number,
            rule: Rule::Operator(rule),
        })?;
    }
    Ok(used)
}

// The lines with the new numbers of the rules that they cite.
fn renumber_lines<const N: usize>(lines: List<Line<N>>, uses: &IndexSet<u32>) -> List<Line<N>>
    requires few { length uses.now.keys < 2 ^ 32 }
    requires cited { All (Contains uses.now.keys) (rules_cited lines) }
    ensures { result ≡ map (renumbered (number_in uses.now.keys)) lines.entry }
{
    let mut lines = lines.into_vec();
    for i in 0..lines.len() {
        renumber(&mut lines[i], uses);
    }
    List::of_vec(lines)
}

fn renumber<const N: usize>(line: &mut Line<N>, uses: &IndexSet<u32>)
    requires few { length uses.now.keys < 2 ^ 32 }
    requires cited { All (Contains uses.now.keys) (rules_of_reason line.old.reason) }
    ensures { line.new ≡ renumbered (number_in uses.now.keys) line.old }
{
    if let Reason::ByRule { rule, .. } = &mut line.reason {
        *rule = number_of(*rule, uses);
    }
}

// The number of a rule: its place among those in use, counted from 1.
fn number_of(rule: u32, uses: &IndexSet<u32>) -> u32
    requires few { length uses.now.keys < 2 ^ 32 }
    requires cited { Contains uses.now.keys rule }
    ensures { result ≡ number_in uses.now.keys rule }
{
    match uses.get_index_of(&rule) {
        Some(place) => place as u32 + 1,
        None => unreachable!(),
    }
}
