// Whether a report is valid.
ghost use Rattle.std.specs.Prelude.{◌≡◌, ◌↔◌, IfOk};
ghost use Rattle.lgc_report.specs.Reports.{plain_report, FitsReport};
ghost use Rattle.lgc_report.specs.Valid.{IsValid};
ghost use Rattle.lgc_soundness.specs.Soundness.{IsSound};
ghost use Rattle.lgc_check.specs.declared.verdict.Verdict.TheVariants.{Accepted};
ghost use Rattle.lgc_check.specs.Verdicts.{IsVerdict};

use crate::claims::first_of_claims;
use crate::derivation::{first_of_lines, first_of_rules};
use crate::pending::pending_marks;
use crate::{Place, Verdict};
use lgc_report::Report;
use lgc_values::Matrix;
use std::alloc::{AllocError, Global};

/// The verdict on a report of the logic: it is accepted exactly if it is valid. Else the answer is the first rule, line or claim that has a
/// cause, in this order, and the first of its causes.
///
/// What an accepted report derives is true in all finite structures of the logic, whatever its free variables stand for: each line that
/// doesn't rest on a pending one, each sequent that is claimed to hold, and each query that is called proved.
///
/// It fails only where memory is wanting.
pub fn check_report<const N: usize>(
    alloc: Global,
    m: &Matrix<N>,
    report: &Report<N>,
) -> Result<Verdict, AllocError>
    requires { FitsReport m.now (plain_report report.now) }
    ensures verdict { IfOk result (IsVerdict m.now (plain_report report.now)) }
    ensures accepted { IfOk result (λ verdict. verdict ≡ Accepted ↔ IsValid m.now (plain_report report.now)) }
    ensures sound { IfOk result (λ verdict. verdict ≡ Accepted → IsSound m.now (plain_report report.now)) }
{
    let _operators = m.operators();
    let lines = report.lines.items();
    if let Some(fault) = first_of_rules(m, report.rules.items()) {
        return Ok(Verdict::Rejected {
            place: Place::Rule,
            position: fault.position,
            cause: fault.cause,
        });
    }
    if let Some(fault) = first_of_lines(m, report.rules.items(), lines) {
        return Ok(Verdict::Rejected {
            place: Place::Line,
            position: fault.position,
            cause: fault.cause,
        });
    }
    let marks = pending_marks(alloc, lines)?;
    let claims = report.claims.items();
    if let Some(fault) = first_of_claims(alloc, m, lines, marks.as_slice(), claims)? {
        return Ok(Verdict::Rejected {
            place: Place::Claim,
            position: fault.position,
            cause: fault.cause,
        });
    }
    Ok(Verdict::Accepted)
}
