// The text of the answers to queries.
ghost use Rattle.std.specs.Prelude.{◌≡◌, ◌<◌, ◌^◌, length, map, All, IfOk};
ghost use Rattle.std.specs.List.{list_all};
ghost use Rattle.lgc_report.specs.Reports.{plain_claim};
ghost use Rattle.lgc_queries.specs.Asked.{IsAsked};
ghost use Rattle.lgc_prove.specs.AnswerText.{is_proved, IsAnswerText};

use crate::answer_queries;
use lgc_meaning::Query;
use lgc_report::{Claim, Evidence};
use lgc_report_trip::text_of_report;
use lgc_values::{List, Matrix};
use std::alloc::{AllocError, Global};

/// The text of a report that answers queries, and whether all of them are proved.
#[derive(Drop)]
pub struct Answered {
    pub text: Vec<u8>,
    pub all_proved: bool,
}

fn is_proved<const N: usize>(claim: &Claim<N>) -> bool
    ensures { result ≡ is_proved (plain_claim claim.now) }
{
    match claim {
        Claim::Answer { evidence, .. } => match evidence {
            Evidence::Proved(_) => true,
            Evidence::Refuted(_) => false,
            Evidence::Unfinished(_) => false,
        },
        Claim::Holds { .. } => false,
    }
}

fn are_proved<const N: usize>(claims: &[Claim<N>]) -> bool
    ensures { result ≡ list_all is_proved (map plain_claim claims.now) }
{
    for claim in claims {
        if !is_proved(claim) {
            return false;
        }
    }
    true
}

/// The text of a report that answers queries, in their order, and whether every valuation satisfies every query. There are fewer queries than
/// `2^32`. It fails only where memory is wanting.
pub fn prove_queries<const N: usize>(
    alloc: Global,
    m: &Matrix<N>,
    queries: List<Query>,
) -> Result<Answered, AllocError>
    requires few { length queries < 2 ^ 32 }
    requires asked { All (IsAsked m.now) queries }
    ensures { IfOk result (λ answered. IsAnswerText m.now queries answered.all_proved answered.text.items) }
{
    let _operators = m.operators();
    let report = answer_queries(alloc, m, queries)?;
    let text = text_of_report(alloc, m, &report)?;
    let all_proved = are_proved(report.claims.items());
    Ok(Answered { text, all_proved })
}
