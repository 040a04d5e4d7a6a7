// The line that tells the verdict on a report.
ghost use Rattle.std.specs.Prelude.{◌≡◌, ◌++◌, map, All, IfOk, OnOk};
ghost use Rattle.std.specs.Fmt.{decimal};
ghost use Rattle.lgc_clauses.specs.Kinds.{plain_rule};
ghost use Rattle.lgc_clauses.specs.Rules.{Fits};
ghost use Rattle.lgc_sequents.specs.Lines.{at_position};
ghost use Rattle.lgc_report.specs.Reports.{plain_numbered, plain_report, FitsReport};
ghost use Rattle.lgc_check.specs.Verdicts.{IsVerdict};
ghost use Rattle.lgc_check.specs.VerdictText.{counts_text, accepted_text, place_text, row_at, cause_text, rejected_text, verdict_text, IsTold};
ghost use Rattle.lgc_check.specs.Rows.{IsRowAt, HasRow, is_accepted};

use crate::{Cause, Place, Verdict, check_report};
use lgc_clauses::Numbered;
use lgc_report::Report;
use lgc_values::Matrix;
use lgc_verify::put_row;
use std::alloc::{AllocError, Global};

/// The line that tells the verdict on a report, and whether the report is accepted.
#[derive(Debug, Drop)]
pub struct Told {
    pub line: Vec<u8>,
    pub accepted: bool,
}

// ---- accepted reports

// Puts a number, and what stands behind it.
fn put_count(
    alloc: Global,
    count: usize,
    behind: &[u8],
    into: &mut Vec<u8>,
) -> Result<(), AllocError>
    ensures { OnOk result (into.new.items ≡ into.old.items ++ (decimal count ++ behind.now)) }
{
    let number = format!(in alloc; "{count}")?;
    into.extend_from_slice(number.as_bytes())?;
    into.extend_from_slice(behind)
}

#[tactic(auto, unfolding(crate::specs::VerdictText::counts_text))]
fn put_counts(
    alloc: Global,
    rules: usize,
    lines: usize,
    claims: usize,
    into: &mut Vec<u8>,
) -> Result<(), AllocError>
    ensures { OnOk result (into.new.items ≡ into.old.items ++ counts_text rules lines claims) }
{
    into.extend_from_slice(b"accepted: ")?;
    put_count(alloc, rules, b" rules, ", into)?;
    put_count(alloc, lines, b" lines, ", into)?;
    put_count(alloc, claims, b" claims\n", into)
}

fn put_accepted<const N: usize>(
    alloc: Global,
    report: &Report<N>,
    into: &mut Vec<u8>,
) -> Result<(), AllocError>
    ensures { OnOk result (into.new.items ≡ into.old.items ++ accepted_text (plain_report report.now)) }
{
    let rules = report.rules.items();
    let lines = report.lines.items();
    let claims = report.claims.items();
    put_counts(alloc, rules.len(), lines.len(), claims.len(), into)
}

// ---- rejected reports

fn put_place(place: Place, into: &mut Vec<u8>) -> Result<(), AllocError>
    ensures { OnOk result (into.new.items ≡ into.old.items ++ place_text place) }
{
    match place {
        Place::Rule => into.extend_from_slice(b"rule"),
        Place::Line => into.extend_from_slice(b"line"),
        Place::Claim => into.extend_from_slice(b"claim"),
    }
}

// Puts a row of the rule at a position.
fn put_row_at<const N: usize>(
    m: &Matrix<N>,
    rules: &[Numbered<N>],
    position: u64,
    row: u32,
    into: &mut Vec<u8>,
) -> Result<(), AllocError>
    requires fits { All (λ numbered. Fits m.now (plain_rule numbered.rule)) rules.now }
    requires row { IsRowAt m.now (map plain_numbered rules.now) position row }
    ensures { OnOk result (into.new.items ≡ into.old.items ++ row_at m.now (at_position (map plain_numbered rules.now) position) row) }
{
    let numbered = &rules[position as usize - 1];
    put_row(m, &numbered.rule, row, into)
}

fn put_cause<const N: usize>(
    m: &Matrix<N>,
    rules: &[Numbered<N>],
    position: u64,
    cause: Cause,
    into: &mut Vec<u8>,
) -> Result<(), AllocError>
    requires fits { All (λ numbered. Fits m.now (plain_rule numbered.rule)) rules.now }
    requires row { HasRow m.now (map plain_numbered rules.now) position cause }
    ensures { OnOk result (into.new.items ≡ into.old.items ++ cause_text m.now (map plain_numbered rules.now) position cause) }
{
    match cause {
        Cause::Inexact(row) => {
            into.extend_from_slice(b"C1 at ")?;
            put_row_at(m, rules, position, row, into)
        }
        Cause::UnknownRule => into.extend_from_slice(b"C2"),
        Cause::UnknownLine => into.extend_from_slice(b"C3"),
        Cause::Premises => into.extend_from_slice(b"C4"),
        Cause::Sign => into.extend_from_slice(b"C5"),
        Cause::Foreign => into.extend_from_slice(b"C6"),
        Cause::Eigenvariable => into.extend_from_slice(b"C7"),
        Cause::Incomplete => into.extend_from_slice(b"C8"),
        Cause::NotIncluded => into.extend_from_slice(b"C9"),
        Cause::NotRefuted => into.extend_from_slice(b"C10"),
        Cause::Misnumbered => into.extend_from_slice(b"C11"),
        Cause::Pending => into.extend_from_slice(b"C12"),
    }
}

#[tactic(auto, unfolding(crate::specs::VerdictText::rejected_text))]
fn put_rejected<const N: usize>(
    alloc: Global,
    m: &Matrix<N>,
    rules: &[Numbered<N>],
    place: Place,
    position: u64,
    cause: Cause,
    into: &mut Vec<u8>,
) -> Result<(), AllocError>
    requires fits { All (λ numbered. Fits m.now (plain_rule numbered.rule)) rules.now }
    requires row { HasRow m.now (map plain_numbered rules.now) position cause }
    ensures { OnOk result (into.new.items ≡ into.old.items ++ rejected_text m.now (map plain_numbered rules.now) place position cause) }
{
    into.extend_from_slice(b"rejected: ")?;
    put_place(place, into)?;
    let number = format!(in alloc; " {position} by ")?;
    into.extend_from_slice(number.as_bytes())?;
    put_cause(m, rules, position, cause, into)?;
    into.extend_from_slice(b"\n")
}

// ---- verdicts

fn put_verdict<const N: usize>(
    alloc: Global,
    m: &Matrix<N>,
    report: &Report<N>,
    verdict: Verdict,
    into: &mut Vec<u8>,
) -> Result<(), AllocError>
    requires fits { FitsReport m.now (plain_report report.now) }
    requires verdict { IsVerdict m.now (plain_report report.now) verdict }
    ensures { OnOk result (into.new.items ≡ into.old.items ++ verdict_text m.now (plain_report report.now) verdict) }
{
    match verdict {
        Verdict::Accepted => put_accepted(alloc, report, into),
        Verdict::Rejected {
            place,
            position,
            cause,
        } => put_rejected(alloc, m, report.rules.items(), place, position, cause, into),
    }
}

/// The line that tells the verdict on a report of the logic. It fails only where memory is wanting.
pub fn write_verdict<const N: usize>(
    alloc: Global,
    m: &Matrix<N>,
    report: &Report<N>,
    verdict: Verdict,
) -> Result<Vec<u8>, AllocError>
    requires fits { FitsReport m.now (plain_report report.now) }
    requires verdict { IsVerdict m.now (plain_report report.now) verdict }
    ensures { IfOk result (λ line. line.items ≡ verdict_text m.now (plain_report report.now) verdict) }
{
    let mut line = Vec::new(alloc);
    put_verdict(alloc, m, report, verdict, &mut line)?;
    Ok(line)
}

fn is_accepted(verdict: Verdict) -> bool
    ensures { result ≡ is_accepted verdict }
{
    matches!(verdict, Verdict::Accepted)
}

/// Checks a report of the logic, and tells the verdict on it in a line. It is accepted exactly if it is valid, and what it derives then holds
/// in every finite structure of the logic, as [`check_report`] says. It fails only where memory is wanting.
pub fn tell_verdict<const N: usize>(
    alloc: Global,
    m: &Matrix<N>,
    report: &Report<N>,
) -> Result<Told, AllocError>
    requires { FitsReport m.now (plain_report report.now) }
    ensures { IfOk result (λ told. IsTold m.now (plain_report report.now) told.accepted told.line.items) }
{
    let verdict = check_report(alloc, m, report)?;
    let line = write_verdict(alloc, m, report, verdict)?;
    Ok(Told {
        line,
        accepted: is_accepted(verdict),
    })
}
