// The first claim that has a cause.
ghost use Rattle.std.specs.Prelude.{◌≡◌, ◌≤◌, map, All, IfOk, MatchOption};
ghost use Rattle.std.specs.List.{list_all};
ghost use Rattle.lgc_meaning.specs.Queries.{HasSetsBelow};
ghost use Rattle.lgc_goals.specs.declared.TheConstants.{MOST_GOALS};
ghost use Rattle.lgc_goals.specs.Goals.{goal_count, goals_of};
ghost use Rattle.lgc_sequents.specs.Lines.{IsPosition};
ghost use Rattle.lgc_steps.specs.StepTests.{is_position, first_failing, all_zip};
ghost use Rattle.lgc_report.specs.Reports.{plain_claim, number_of, FitsAnswer, FitsClaim};
ghost use Rattle.lgc_check.specs.Causes.{found_of_answer, found_of_evidence, found_of_claim};
ghost use Rattle.lgc_check.specs.Verdicts.{AreRight, IsFirstFault};
ghost use Rattle.lgc_check.specs.Marks.{AreMarks};
ghost use Rattle.lgc_check.specs.ClaimTests.{is_included_at, goal_tests, holding_tests, is_settled};

use crate::pending::{is_marked, is_some_marked};
use crate::refutation::is_refutation;
use crate::verdict::{Cause, Fault};
use lgc_goals::{goal_at, goal_count};
use lgc_meaning::Query;
use lgc_report::{Claim, Evidence};
use lgc_sequents::{Line, Sequent};
use lgc_steps::{are_included, is_position};
use lgc_values::Matrix;
use std::alloc::{AllocError, Global};

// ---- by lines

fn are_positions<const N: usize>(lines: &[Line<N>], cited: &[u64]) -> bool
    ensures { result ≡ list_all (is_position lines.now) cited.now }
{
    for position in cited {
        if !is_position(lines, *position) {
            return false;
        }
    }
    true
}

// Whether the line at a position, counted from 1, is included in a sequent.
fn is_included_at<const N: usize>(lines: &[Line<N>], position: u64, sequent: &Sequent<N>) -> bool
    requires { IsPosition lines.now position }
    ensures { result ≡ is_included_at lines.now position sequent.now }
{
    let line = &lines[position as usize - 1];
    are_included(line.sequent.items(), sequent)
}

// Whether there is a cited line for each goal of a query, and it is included in the goal.
fn are_in_goals<const N: usize>(
    alloc: Global,
    m: &Matrix<N>,
    lines: &[Line<N>],
    query: &Query,
    cited: &[u64],
) -> Result<bool, AllocError>
    requires sets { HasSetsBelow N query.now }
    requires few { goal_count N query.now ≤ MOST_GOALS }
    requires positions { All (IsPosition lines.now) cited.now }
    ensures { IfOk result (λ included. included ≡ all_zip (is_included_at lines.now) cited.now (goals_of N query.now)) }
{
    let _operators = m.operators();
    let count = goal_count(m, query);
    if cited.len() != count as usize {
        return Ok(false);
    }
    for place in 0..count {
        let goal = goal_at(alloc, m, query, place)?;
        if !is_included_at(lines, cited[place as usize], &goal) {
            return Ok(false);
        }
    }
    Ok(true)
}

fn goals_cause<const N: usize>(
    alloc: Global,
    m: &Matrix<N>,
    lines: &[Line<N>],
    query: &Query,
    cited: &[u64],
) -> Result<Option<Cause>, AllocError>
    requires sets { HasSetsBelow N query.now }
    requires few { goal_count N query.now ≤ MOST_GOALS }
    ensures { IfOk result (λ found. found ≡ first_failing (goal_tests N lines.now query.now cited.now)) }
{
    if !are_positions(lines, cited) {
        return Ok(Some(Cause::UnknownLine));
    }
    if !are_in_goals(alloc, m, lines, query, cited)? {
        return Ok(Some(Cause::NotIncluded));
    }
    Ok(None)
}

fn holding_cause<const N: usize>(
    lines: &[Line<N>],
    sequent: &Sequent<N>,
    position: u64,
) -> Option<Cause>
    ensures { result ≡ first_failing (holding_tests lines.now sequent.now position) }
{
    if !is_position(lines, position) {
        return Some(Cause::UnknownLine);
    }
    if !is_included_at(lines, position, sequent) {
        return Some(Cause::NotIncluded);
    }
    None
}

// ---- what a claim asks

// The cause of the answer to a query, where neither its number nor pending lines are asked.
fn answer_cause<const N: usize>(
    alloc: Global,
    m: &Matrix<N>,
    lines: &[Line<N>],
    query: &Query,
    evidence: &Evidence,
) -> Result<Option<Cause>, AllocError>
    requires { FitsAnswer m.now query.now evidence.now }
    ensures { IfOk result (found_of_answer m.now lines.now query.now evidence.now) }
{
    let _operators = m.operators();
    match evidence {
        Evidence::Proved(cited) => goals_cause(alloc, m, lines, query, cited.items()),
        Evidence::Refuted(v) => {
            if is_refutation(alloc, m, query, v)? {
                Ok(None)
            } else {
                Ok(Some(Cause::NotRefuted))
            }
        }
        Evidence::Unfinished(cited) => goals_cause(alloc, m, lines, query, cited.items()),
    }
}

// The same of any claim.
fn evidence_cause<const N: usize>(
    alloc: Global,
    m: &Matrix<N>,
    lines: &[Line<N>],
    claim: &Claim<N>,
) -> Result<Option<Cause>, AllocError>
    requires { FitsClaim m.now (plain_claim claim.now) }
    ensures { IfOk result (found_of_evidence m.now lines.now (plain_claim claim.now)) }
{
    match claim {
        Claim::Answer {
            query,
            evidence,
            ..
        } => answer_cause(alloc, m, lines, query, evidence),
        Claim::Holds { sequent, line, .. } => Ok(holding_cause(lines, sequent, *line)),
    }
}

fn number_of<const N: usize>(claim: &Claim<N>) -> u32
    ensures { result ≡ number_of (plain_claim claim.now) }
{
    match claim {
        Claim::Answer { number, .. } => *number,
        Claim::Holds { number, .. } => *number,
    }
}

// Whether the cited lines rest on pending ones as the claim asks.
fn is_settled<const N: usize>(marks: &[bool], claim: &Claim<N>) -> bool
    ensures { result ≡ is_settled marks.now (plain_claim claim.now) }
{
    match claim {
        Claim::Answer { evidence, .. } => match evidence {
            Evidence::Proved(cited) => !is_some_marked(marks, cited.items()),
            Evidence::Refuted(_) => true,
            Evidence::Unfinished(cited) => is_some_marked(marks, cited.items()),
        },
        Claim::Holds { line, .. } => !is_marked(marks, *line),
    }
}

// ---- claims

fn claim_cause<const N: usize>(
    alloc: Global,
    m: &Matrix<N>,
    lines: &[Line<N>],
    marks: &[bool],
    claim: &Claim<N>,
    position: u64,
) -> Result<Option<Cause>, AllocError>
    requires fits { FitsClaim m.now (plain_claim claim.now) }
    requires marks { AreMarks lines.now marks.now }
    ensures { IfOk result (found_of_claim m.now lines.now position (plain_claim claim.now)) }
{
    if let Some(cause) = evidence_cause(alloc, m, lines, claim)? {
        return Ok(Some(cause));
    }
    if u64::from(number_of(claim)) != position {
        return Ok(Some(Cause::Misnumbered));
    }
    if !is_settled(marks, claim) {
        return Ok(Some(Cause::Pending));
    }
    Ok(None)
}

pub(crate) fn first_of_claims<const N: usize>(
    alloc: Global,
    m: &Matrix<N>,
    lines: &[Line<N>],
    marks: &[bool],
    claims: &[Claim<N>],
) -> Result<Option<Fault>, AllocError>
    requires fits { All (λ claim. FitsClaim m.now (plain_claim claim)) claims.now }
    requires marks { AreMarks lines.now marks.now }
    ensures { IfOk result (λ found. MatchOption found (AreRight (found_of_claim m.now lines.now) (map plain_claim claims.now)) (λ fault. IsFirstFault (found_of_claim m.now lines.now) (map plain_claim claims.now) fault.position fault.cause)) }
{
    for (i, claim) in claims.iter().enumerate() {
        let position = i as u64 + 1;
        if let Some(cause) = claim_cause(alloc, m, lines, marks, claim, position)? {
            return Ok(Some(Fault { position, cause }));
        }
    }
    Ok(None)
}
