// Reports that answer queries.
ghost use Rattle.std.specs.Prelude.{◌≡◌, ◌<◌, ◌^◌, [], length, map, All, IfOk};
ghost use Rattle.lgc_calculus.specs.RuleBook.{IsRightBook};
ghost use Rattle.lgc_report.specs.Reports.{plain_claim, plain_report};
ghost use Rattle.lgc_queries.specs.Asked.{IsAsked};
ghost use Rattle.lgc_prove.specs.Answers.{AnswersQueries};
ghost use Rattle.lgc_prove.specs.Work.{AreAnswers};

use crate::by_use::by_use;
use crate::evidence::evidence_for;
use lgc_calculus::RuleBook;
use lgc_meaning::Query;
use lgc_proofs::Proofs;
use lgc_report::{Claim, Report};
use lgc_values::{List, Matrix};
use std::alloc::{AllocError, Global};

/// A report that answers queries, in their order. The numbers of claims have 32 bits, so there are fewer queries than `2^32`. It fails only
/// where memory is wanting.
pub fn answer_queries<const N: usize>(
    alloc: Global,
    m: &Matrix<N>,
    queries: List<Query>,
) -> Result<Report<N>, AllocError>
    requires few { length queries < 2 ^ 32 }
    requires asked { All (IsAsked m.now) queries }
    ensures { IfOk result (λ report. AnswersQueries m.now queries (plain_report report)) }
{
    let _operators = m.operators();
    let mut book = RuleBook::new(alloc);
    let mut proofs = Proofs::new(alloc);
    let claims = claims_for(alloc, m, &mut book, &mut proofs, queries)?;
    let (rules, lines) = by_use(alloc, book.rules(), proofs.into_lines())?;
    Ok(Report {
        rules,
        lines,
        claims,
    })
}

// The answers to queries, in their order, from lines that are appended.
fn claims_for<const N: usize>(
    alloc: Global,
    m: &Matrix<N>,
    book: &mut RuleBook<N>,
    proofs: &mut Proofs<N>,
    queries: List<Query>,
) -> Result<List<Claim<N>>, AllocError>
    requires few { length queries < 2 ^ 32 }
    requires asked { All (IsAsked m.now) queries }
    requires right { IsRightBook m.now book.old }
    requires none { proofs.old ≡ [] }
    ensures { IfOk result (λ claims. AreAnswers m.now book.new queries proofs.new (map plain_claim claims)) }
{
    let mut claims = List::new(alloc);
    for query in queries.into_vec() {
        let evidence = evidence_for(alloc, m, book, proofs, &query)?;
        let number = claims.len() as u32 + 1;
        claims.push(Claim::Answer {
            number,
            query,
            evidence,
        })?;
    }
    Ok(claims)
}
