// Reading reports.
ghost use Rattle.std.specs.Prelude.{◌≡◌, ◌<◌, ◌^◌, length, IfOk, Result};
ghost use Rattle.lgc_grammar.specs.Reading.{whole};
ghost use Rattle.lgc_lexer.specs.Spans.{AllIn};
ghost use Rattle.lgc_syntax.specs.declared.fault.InputFault.{InputFault};
ghost use Rattle.lgc_report.specs.declared.report.Report.{Report};
ghost use Rattle.lgc_report.specs.Reports.{plain_report};
ghost use Rattle.lgc_report.specs.Writable.{IsWritableReport};
ghost use Rattle.lgc_tokens.specs.Spelled.{IsRest, IsShorter};
ghost use Rattle.lgc_tokens.specs.Gives.{GivesAs};
ghost use Rattle.lgc_inputs.specs.Told.{Holds, IfFault, IsTree, Tells, told_of};
ghost use Rattle.lgc_formulas.specs.Setting.{setting_of};
ghost use Rattle.lgc_formulas.specs.FormulaTexts.{text_setting};
ghost use Rattle.lgc_report_reader.specs.Reported.{reports, reported_all, reported_place};
ghost use Rattle.lgc_report_reader.specs.ReportReading.{next_rule_at, rules_at, next_line_at, lines_at, next_claim_at, claims_at, report_at};
ghost use Rattle.lgc_report_reader.specs.ReportFile.{ReportGives, IsReportOf, IsReportFault};
ghost use Rattle.lgc_report_reader.specs.FileReading.{report_read};

use crate::claim::claim;
use crate::line::line;
use crate::part::rule;
use crate::token::{Rest, next_is, one, version};
use lgc_clauses::Numbered;
use lgc_formulas::Context;
use lgc_inputs::{fault_of, tokens_in};
use lgc_lexer::Token;
use lgc_report::{Claim, Report};
use lgc_sequents::Line;
use lgc_syntax::InputFault;
use lgc_tokens::{Class, Reading, Stop};
use lgc_values::{List, Matrix};
use std::alloc::Global;

/// The greatest length of a report, in bytes.
pub const LONGEST_REPORT: u32 = 33_554_432;

// ---- the parts of a report

// The next rule, which is appended.
#[tactic(auto, unfolding(crate::specs::ReportReading::next_rule_at))]
fn next_rule<'a, const N: usize>(
    alloc: Global,
    c: &Context<N>,
    rules: &mut List<Numbered<N>>,
    tokens: &'a [Token],
) -> Rest<'a>
    requires { AllIn c.now.bytes.now tokens.now }
    ensures gives { GivesAs (reports c.now) (λ x. (rules.new, reports c.now x.now)) result (next_rule_at N (setting_of c.now) rules.old (reports c.now tokens.now)) }
    ensures rest { IfOk result (λ x. IsShorter c.now.bytes.now tokens.now x.now) }
{
    let (next, rest) = rule(alloc, c, tokens)?;
    rules.push(next)?;
    Ok(rest)
}

// All rules.
fn rules<'a, const N: usize>(
    alloc: Global,
    c: &Context<N>,
    tokens: &'a [Token],
) -> Reading<'a, List<Numbered<N>>>
    requires { AllIn c.now.bytes.now tokens.now }
    ensures gives { GivesAs (reports c.now) (λ x. (x.0, reports c.now x.1.now)) result (rules_at N (setting_of c.now) (reports c.now tokens.now)) }
    ensures rest { IfOk result (λ x. IsRest c.now.bytes.now tokens.now x.1.now) }
{
    let mut rules = List::new(alloc);
    let mut rest = tokens;
    while next_is(c, Class::RuleWord, rest) {
        rest = next_rule(alloc, c, &mut rules, rest)?;
    }
    Ok((rules, rest))
}

// The next line, which is appended.
#[tactic(auto, unfolding(crate::specs::ReportReading::next_line_at))]
fn next_line<'a, const N: usize>(
    alloc: Global,
    c: &Context<N>,
    lines: &mut List<Line<N>>,
    tokens: &'a [Token],
) -> Rest<'a>
    requires { AllIn c.now.bytes.now tokens.now }
    ensures gives { GivesAs (reports c.now) (λ x. (lines.new, reports c.now x.now)) result (next_line_at N (setting_of c.now) lines.old (reports c.now tokens.now)) }
    ensures rest { IfOk result (λ x. IsShorter c.now.bytes.now tokens.now x.now) }
{
    let (next, rest) = line(alloc, c, tokens)?;
    lines.push(next)?;
    Ok(rest)
}

// All lines.
fn lines<'a, const N: usize>(
    alloc: Global,
    c: &Context<N>,
    tokens: &'a [Token],
) -> Reading<'a, List<Line<N>>>
    requires { AllIn c.now.bytes.now tokens.now }
    ensures gives { GivesAs (reports c.now) (λ x. (x.0, reports c.now x.1.now)) result (lines_at N (setting_of c.now) (reports c.now tokens.now)) }
    ensures rest { IfOk result (λ x. IsRest c.now.bytes.now tokens.now x.1.now) }
{
    let mut lines = List::new(alloc);
    let mut rest = tokens;
    while next_is(c, Class::LineWord, rest) {
        rest = next_line(alloc, c, &mut lines, rest)?;
    }
    Ok((lines, rest))
}

// The next claim, which is appended.
#[tactic(auto, unfolding(crate::specs::ReportReading::next_claim_at))]
fn next_claim<'a, const N: usize>(
    alloc: Global,
    c: &Context<N>,
    claims: &mut List<Claim<N>>,
    tokens: &'a [Token],
) -> Rest<'a>
    requires { AllIn c.now.bytes.now tokens.now }
    ensures gives { GivesAs (reports c.now) (λ x. (claims.new, reports c.now x.now)) result (next_claim_at N (setting_of c.now) claims.old (reports c.now tokens.now)) }
    ensures rest { IfOk result (λ x. IsShorter c.now.bytes.now tokens.now x.now) }
{
    let (next, rest) = claim(alloc, c, tokens)?;
    claims.push(next)?;
    Ok(rest)
}

// All claims.
fn claims<'a, const N: usize>(
    alloc: Global,
    c: &Context<N>,
    tokens: &'a [Token],
) -> Reading<'a, List<Claim<N>>>
    requires { AllIn c.now.bytes.now tokens.now }
    ensures gives { GivesAs (reports c.now) (λ x. (x.0, reports c.now x.1.now)) result (claims_at N (setting_of c.now) (reports c.now tokens.now)) }
    ensures rest { IfOk result (λ x. IsRest c.now.bytes.now tokens.now x.1.now) }
{
    let mut claims = List::new(alloc);
    let mut rest = tokens;
    while next_is(c, Class::ClaimWord, rest) {
        rest = next_claim(alloc, c, &mut claims, rest)?;
    }
    Ok((claims, rest))
}

// ---- reports

#[tactic(auto, unfolding(crate::specs::ReportReading::report_at, crate::specs::ReportReading::ended_at))]
fn report<'a, const N: usize>(
    alloc: Global,
    c: &Context<N>,
    tokens: &'a [Token],
) -> Reading<'a, Report<N>>
    requires { AllIn c.now.bytes.now tokens.now }
    ensures gives { GivesAs (reports c.now) (λ x. (x.0, reports c.now x.1.now)) result (report_at N (setting_of c.now) (reports c.now tokens.now)) }
    ensures rest { IfOk result (λ x. IsShorter c.now.bytes.now tokens.now x.1.now) }
{
    let (_, rest) = one(c, Class::ReportWord, tokens)?;
    let (_, rest) = version(c, rest)?;
    let (_, rest) = one(c, Class::Dot, rest)?;
    let (rules, rest) = rules(alloc, c, rest)?;
    let (lines, rest) = lines(alloc, c, rest)?;
    let (claims, rest) = claims(alloc, c, rest)?;
    let (_, rest) = one(c, Class::EndWord, rest)?;
    let (_, rest) = one(c, Class::Dot, rest)?;
    let report = Report {
        rules,
        lines,
        claims,
    };
    Ok((report, rest))
}

// The report that all of the tokens are.
fn whole_report<'a, const N: usize>(
    alloc: Global,
    c: &Context<N>,
    tokens: &'a [Token],
) -> Result<Report<N>, Stop<'a>>
    requires { AllIn c.now.bytes.now tokens.now }
    ensures { GivesAs (reports c.now) (λ report. report) result (whole (report_at N (setting_of c.now)) (reports c.now tokens.now)) }
{
    let (report, rest) = report(alloc, c, tokens)?;
    match rest.split_first() {
        Some(_) => Err(Stop::Unexpected(rest)),
        None => Ok(report),
    }
}

fn report_of<'a, const N: usize>(
    alloc: Global,
    m: &'a Matrix<N>,
    bytes: &'a [u8],
    tokens: &[Token],
) -> Result<Report<N>, InputFault>
    requires length { length bytes.now < 2 ^ 32 }
    requires inside { AllIn bytes.now tokens.now }
    ensures { Tells (λ report. report) result (told_of reported_place (length bytes.now) (whole (report_at N (text_setting m.now)) (reported_all (text_setting m.now) bytes.now tokens.now))) }
{
    let c = Context {
        m,
        bytes,
        quantified: true,
        lets: None,
    };
    match whole_report(alloc, &c, tokens) {
        Ok(report) => Ok(report),
        Err(stop) => Err(fault_of(bytes, stop)),
    }
}

fn report_in<const N: usize>(
    alloc: Global,
    m: &Matrix<N>,
    bytes: &[u8],
) -> Result<Report<N>, InputFault>
    ensures { Tells (λ report. report) result (report_read N m.now bytes.now) }
{
    let tokens = tokens_in(alloc, bytes, LONGEST_REPORT)?;
    report_of(alloc, m, bytes, &tokens)
}

/// The report that the bytes are, or its first fault.
///
/// The faults are looked for in this order: the text is longer than 33,554,432 bytes, then the bytes have no tokens, and then the text is
/// read from the left, up to the first token at which there is one. Each formula, each query and each cited term has at most 1,000 nodes
/// and depth 100, and a query at most 4,096 goals. Quantifiers may stand. The numbers before rules, lines and claims and the positions
/// that are cited are read as they are written; whether they are right isn't looked at. The numbers and places of faults are those of
/// `InputFault`'s constants. `Memory` may come at any bytes.
pub fn read_report<const N: usize>(
    alloc: Global,
    m: &Matrix<N>,
    bytes: &[u8],
) -> Result<Report<N>, InputFault>
    // The report is the grammar's, and a fault is at the first token that breaks a rule, or with which no report goes on.
    ensures answer { Holds (ReportGives N m.now bytes.now) result }
    // No other answer is right.
    ensures once { (told : Result (Report N) InputFault) → ReportGives N m.now bytes.now told → Tells (λ report. report) result told }
    // What is in the grammar is read, as this report alone.
    ensures complete { (report : Report N) → IsReportOf N m.now bytes.now report → IsTree (λ report. report) result report }
    // It is a report for the logic, and can be written so that it can be read again.
    ensures fits { IfOk result (λ report. IsWritableReport m.now (plain_report report)) }
    // The number of a fault is one from 1 to 11, or 14.
    ensures faults { IfFault result IsReportFault }
    // The same as one function of the bytes.
    ensures exact { Tells (λ report. report) result (report_read N m.now bytes.now) }
{
    let _names = m.names();
    report_in(alloc, m, bytes)
}
