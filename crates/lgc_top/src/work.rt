// The work of each command on a specification's logic, and the step to the types that carry the number of truth values.
ghost use Rattle.std.specs.Prelude.{◌≡◌, ◌<◌, ◌^◌, length, IfOk, MatchResult};
ghost use Rattle.lgc_values.specs.Logic.{IsLogic};
ghost use Rattle.lgc_spec.specs.Logics.{logic_of};
ghost use Rattle.lgc_top.specs.Calculus.{IsCalculusText};
ghost use Rattle.lgc_top.specs.Verify.{JudgesBytes};
ghost use Rattle.lgc_top.specs.Prove.{ReportsOnBytes, QueriesRefused};
ghost use Rattle.lgc_top.specs.Check.{ChecksBytes};
ghost use Rattle.lgc_top.specs.Clauses.{IsClausesOn};
ghost use Rattle.lgc_top.specs.Tableaux.{IsTableauxOn};

use crate::command::Format;
use lgc_calculus::derive_calculus;
use lgc_check::{Told, tell_verdict};
use lgc_clause_text::clauses_text;
use lgc_latex::calculus_latex;
use lgc_print::calculus_text;
use lgc_prove::{Answered, prove_queries};
use lgc_queries::read_queries;
use lgc_report_reader::read_report;
use lgc_rules::read_rules;
use lgc_spec::{Spec, matrix_of};
use lgc_syntax::InputFault;
use lgc_tableaux::{Tableaux, tableaux_text};
use lgc_values::Matrix;
use lgc_verify::{Judged, judge_rules};
use std::alloc::{AllocError, Global};

fn calculus<const N: usize>(
    alloc: Global,
    spec: &Spec,
    format: Format,
) -> Result<Vec<u8>, AllocError>
    requires size { length spec.now.values ≡ N }
    requires logic { IsLogic (logic_of spec.now) }
    requires designated { spec.now.designated < 2 ^ N }
    ensures { IfOk result (λ text. IsCalculusText format spec.now text.items) }
{
    let m: Matrix<N> = matrix_of(alloc, spec)?;
    let calculus = derive_calculus(alloc, &m)?;
    match format {
        Format::Text => calculus_text(alloc, &m, calculus.rules.items()),
        Format::Latex => calculus_latex(alloc, &m, &spec.name, calculus.rules.items()),
    }
}

fn verdicts<const N: usize>(alloc: Global, spec: &Spec, bytes: &[u8]) -> Result<Judged, InputFault>
    requires size { length spec.now.values ≡ N }
    requires logic { IsLogic (logic_of spec.now) }
    requires designated { spec.now.designated < 2 ^ N }
    ensures { JudgesBytes (logic_of spec.now) bytes.now result }
{
    let m: Matrix<N> = matrix_of(alloc, spec)?;
    match read_rules(alloc, &m, bytes) {
        Ok(rules) => Ok(judge_rules(alloc, &m, rules.items())?),
        Err(fault) => Err(fault),
    }
}

fn report<const N: usize>(alloc: Global, spec: &Spec, bytes: &[u8]) -> Result<Answered, InputFault>
    requires size { length spec.now.values ≡ N }
    requires logic { IsLogic (logic_of spec.now) }
    requires designated { spec.now.designated < 2 ^ N }
    ensures { ReportsOnBytes (logic_of spec.now) bytes.now result }
{
    let m: Matrix<N> = matrix_of(alloc, spec)?;
    match read_queries(alloc, &m, bytes) {
        Ok(queries) => Ok(prove_queries(alloc, &m, queries)?),
        Err(fault) => Err(fault),
    }
}

fn verdict<const N: usize>(alloc: Global, spec: &Spec, bytes: &[u8]) -> Result<Told, InputFault>
    requires size { length spec.now.values ≡ N }
    requires logic { IsLogic (logic_of spec.now) }
    requires designated { spec.now.designated < 2 ^ N }
    ensures { ChecksBytes (logic_of spec.now) bytes.now result }
{
    let m: Matrix<N> = matrix_of(alloc, spec)?;
    match read_report(alloc, &m, bytes) {
        Ok(report) => Ok(tell_verdict(alloc, &m, &report)?),
        Err(fault) => Err(fault),
    }
}

fn clauses<const N: usize>(alloc: Global, spec: &Spec, bytes: &[u8]) -> Result<Vec<u8>, InputFault>
    requires size { length spec.now.values ≡ N }
    requires logic { IsLogic (logic_of spec.now) }
    requires designated { spec.now.designated < 2 ^ N }
    ensures { MatchResult result (λ text. IsClausesOn (logic_of spec.now) bytes.now text.items) (QueriesRefused (logic_of spec.now) bytes.now) }
{
    let m: Matrix<N> = matrix_of(alloc, spec)?;
    match read_queries(alloc, &m, bytes) {
        Ok(queries) => Ok(clauses_text(alloc, &m, queries.items())?),
        Err(fault) => Err(fault),
    }
}

fn tableaux<const N: usize>(
    alloc: Global,
    spec: &Spec,
    bytes: &[u8],
) -> Result<Tableaux, InputFault>
    requires size { length spec.now.values ≡ N }
    requires logic { IsLogic (logic_of spec.now) }
    requires designated { spec.now.designated < 2 ^ N }
    ensures { MatchResult result (λ told. IsTableauxOn (logic_of spec.now) told.all_closed bytes.now told.text.items) (QueriesRefused (logic_of spec.now) bytes.now) }
{
    let m: Matrix<N> = matrix_of(alloc, spec)?;
    match read_queries(alloc, &m, bytes) {
        Ok(queries) => Ok(tableaux_text(alloc, &m, queries.items())?),
        Err(fault) => Err(fault),
    }
}

// A call at the number of truth values that is known when it runs.
macro_rules! at_size {
    ($size:expr, $call:ident($($argument:expr),*)) => {
        match $size {
            2 => $call::<2>($($argument),*),
            3 => $call::<3>($($argument),*),
            4 => $call::<4>($($argument),*),
            5 => $call::<5>($($argument),*),
            6 => $call::<6>($($argument),*),
            7 => $call::<7>($($argument),*),
            8 => $call::<8>($($argument),*),
            9 => $call::<9>($($argument),*),
            10 => $call::<10>($($argument),*),
            11 => $call::<11>($($argument),*),
            12 => $call::<12>($($argument),*),
            _ => unreachable!(),
        }
    };
}

/// A calculus of the specification's logic, in a format.
pub(crate) fn calculus_of(alloc: Global, spec: &Spec, format: Format) -> Result<Vec<u8>, AllocError>
    requires logic { IsLogic (logic_of spec.now) }
    requires designated { spec.now.designated < 2 ^ length spec.now.values }
    ensures { IfOk result (λ text. IsCalculusText format spec.now text.items) }
{
    let size = spec.values.len();
    at_size!(size, calculus(alloc, spec, format))
}

/// The lines on the rules of a rule file for the specification's logic, and whether all of them are right; or the file's first fault.
pub(crate) fn verdicts_of(alloc: Global, spec: &Spec, bytes: &[u8]) -> Result<Judged, InputFault>
    requires logic { IsLogic (logic_of spec.now) }
    requires designated { spec.now.designated < 2 ^ length spec.now.values }
    ensures { JudgesBytes (logic_of spec.now) bytes.now result }
{
    let size = spec.values.len();
    at_size!(size, verdicts(alloc, spec, bytes))
}

/// The text of a report that answers the queries of a query file for the specification's logic, and whether all of them are proved; or the
/// file's first fault.
pub(crate) fn report_of(alloc: Global, spec: &Spec, bytes: &[u8]) -> Result<Answered, InputFault>
    requires logic { IsLogic (logic_of spec.now) }
    requires designated { spec.now.designated < 2 ^ length spec.now.values }
    ensures { ReportsOnBytes (logic_of spec.now) bytes.now result }
{
    let size = spec.values.len();
    at_size!(size, report(alloc, spec, bytes))
}

/// The line that tells the verdict on a report for the specification's logic, and whether the report is accepted; or its first fault.
pub(crate) fn verdict_of(alloc: Global, spec: &Spec, bytes: &[u8]) -> Result<Told, InputFault>
    requires logic { IsLogic (logic_of spec.now) }
    requires designated { spec.now.designated < 2 ^ length spec.now.values }
    ensures { ChecksBytes (logic_of spec.now) bytes.now result }
{
    let size = spec.values.len();
    at_size!(size, verdict(alloc, spec, bytes))
}

/// The signed clauses of the queries of a query file for the specification's logic, or the file's first fault.
pub(crate) fn clauses_of(alloc: Global, spec: &Spec, bytes: &[u8]) -> Result<Vec<u8>, InputFault>
    requires logic { IsLogic (logic_of spec.now) }
    requires designated { spec.now.designated < 2 ^ length spec.now.values }
    ensures { MatchResult result (λ text. IsClausesOn (logic_of spec.now) bytes.now text.items) (QueriesRefused (logic_of spec.now) bytes.now) }
{
    let size = spec.values.len();
    at_size!(size, clauses(alloc, spec, bytes))
}

/// The tableaux of the queries of a query file for the specification's logic, and whether all of them are closed; or the file's first fault.
pub(crate) fn tableaux_of(alloc: Global, spec: &Spec, bytes: &[u8]) -> Result<Tableaux, InputFault>
    requires logic { IsLogic (logic_of spec.now) }
    requires designated { spec.now.designated < 2 ^ length spec.now.values }
    ensures { MatchResult result (λ told. IsTableauxOn (logic_of spec.now) told.all_closed bytes.now told.text.items) (QueriesRefused (logic_of spec.now) bytes.now) }
{
    let size = spec.values.len();
    at_size!(size, tableaux(alloc, spec, bytes))
}
