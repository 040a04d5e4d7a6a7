// What the types of a report's parts say of them. The calls do nothing: their clauses tell it.
ghost use Rattle.std.specs.Prelude.{All, map};
ghost use Rattle.lgc_report.specs.Reports.{plain_numbered, plain_claim, plain_report};
ghost use Rattle.lgc_report_trip.specs.WellFormed.{IsNumber, IsLong, IsWellFormedRule, IsWellFormedReason, IsWellFormedLine, IsWellFormedEvidence, IsWellFormedClaim, IsWellFormed};

use lgc_clauses::Numbered;
use lgc_report::{Claim, Evidence, Report};
use lgc_round_trip::see_sets_of_rule;
use lgc_sequents::{Cited, Line, Reason};

// ---- rules

fn see_rule<const N: usize>(numbered: &Numbered<N>)
    ensures { IsWellFormedRule N (plain_numbered numbered.now) }
{
    let _number = numbered.number;
    see_sets_of_rule(&numbered.rule);
}

fn see_rules<const N: usize>(rules: &[Numbered<N>])
    ensures { All (λ numbered. IsWellFormedRule N (plain_numbered numbered)) rules.now }
{
    for numbered in rules {
        see_rule(numbered);
    }
}

// ---- lines

fn see_cited(cited: &Cited)
    ensures { IsLong cited.now.line }
{
    let _line = cited.line;
}

fn see_premises(premises: &[Cited])
    ensures { All (λ cited. IsLong cited.line) premises.now }
{
    for cited in premises {
        see_cited(cited);
    }
}

fn see_reason(reason: &Reason)
    ensures { IsWellFormedReason reason.now }
{
    match reason {
        Reason::Axiom => {}
        Reason::Pending => {}
        Reason::ByRule { rule, premises, .. } => {
            let _rule = *rule;
            see_premises(premises.items());
        }
        Reason::Resolve { left, right, .. } => {
            let _left = *left;
            let _right = *right;
        }
    }
}

fn see_line<const N: usize>(line: &Line<N>)
    ensures { IsWellFormedLine N line.now }
{
    let _number = line.number;
    let _items = line.sequent.items();
    see_reason(&line.reason);
}

fn see_lines<const N: usize>(lines: &[Line<N>])
    ensures { All (IsWellFormedLine N) lines.now }
{
    for line in lines {
        see_line(line);
    }
}

// ---- claims

#[tactic(auto, using(std::proofs::lemmas::Grind::common_steps, lgc_round_trip::proofs::SetLaws::all_more))]
fn see_positions(positions: &[u64])
    ensures { All IsLong positions.now }
{
    for position in positions {
        let _position = *position;
    }
}

fn see_evidence(evidence: &Evidence)
    ensures { IsWellFormedEvidence evidence.now }
{
    match evidence {
        Evidence::Proved(cited) => see_positions(cited.items()),
        Evidence::Refuted(valuation) => {
            let _entries = valuation.entries();
        }
        Evidence::Unfinished(cited) => see_positions(cited.items()),
    }
}

fn see_claim<const N: usize>(claim: &Claim<N>)
    ensures { IsWellFormedClaim N (plain_claim claim.now) }
{
    match claim {
        Claim::Answer {
            number,
            evidence,
            ..
        } => {
            let _number = *number;
            see_evidence(evidence);
        }
        Claim::Holds {
            number,
            sequent,
            line,
        } => {
            let _number = *number;
            let _items = sequent.items();
            let _line = *line;
        }
    }
}

fn see_claims<const N: usize>(claims: &[Claim<N>])
    ensures { All (λ claim. IsWellFormedClaim N (plain_claim claim)) claims.now }
{
    for claim in claims {
        see_claim(claim);
    }
}

// ---- reports

/// What holds of each report by the types of its parts.
pub(crate) fn see_report<const N: usize>(r: &Report<N>)
    ensures { IsWellFormed N (plain_report r.now) }
{
    see_rules(r.rules.items());
    see_lines(r.lines.items());
    see_claims(r.claims.items());
}
