// The printed form of reports.
ghost use Rattle.std.specs.Prelude.{◌≡◌, ◌++◌, ◌<◌, ◌^◌, true, map, length, All, OnOk, IfOk, codes};
ghost use Rattle.std.specs.List.{flat_map};
ghost use Rattle.std.specs.Fmt.{decimal};
ghost use Rattle.lgc_syntax.specs.Sizes.{depth};
ghost use Rattle.lgc_syntax.specs.Variables.{has_no_bound};
ghost use Rattle.lgc_print.specs.Text.{joined};
ghost use Rattle.lgc_print.specs.FormulaText.{term_text};
ghost use Rattle.lgc_clauses.specs.Rules.{Fits};
ghost use Rattle.lgc_clauses.specs.Kinds.{plain_rule};
ghost use Rattle.lgc_meaning.specs.Queries.{HasSetsBelow};
ghost use Rattle.lgc_meaning.specs.Queries as queries;
ghost use Rattle.lgc_queries.specs.QueryText.{query_text};
ghost use Rattle.lgc_sequents.specs.Lines.{formulas_of, named_by, premises_of};
ghost use Rattle.lgc_report.specs.Reports.{plain_numbered, plain_claim, plain_report, number_of, formulas_of_evidence, formulas_of_claim, formulas_of_report, FitsEvidence, FitsClaim, FitsReport};
ghost use Rattle.lgc_report.specs.ReportText.{item_text, sequent_text, terms_text, cited_text, premises_text, reason_text, line_text, positions_text, entry_text, evidence_text, claimed_text, claim_text, numbered_text, report_text};

use crate::{Claim, Evidence, Report};
use itoa::Buffer;
use lgc_clauses::Numbered;
use lgc_meaning::Query;
use lgc_print::{put_formula, put_set, put_term, put_value, write_rule};
use lgc_queries::write_query;
use lgc_sequents::{Cited, Line, Reason, Signed};
use lgc_syntax::{Formula, Term};
use lgc_values::Matrix;
use std::alloc::{AllocError, Global};

fn put_position(position: u64, into: &mut Vec<u8>) -> Result<(), AllocError>
    ensures { OnOk result (into.new.items ≡ into.old.items ++ decimal position) }
{
    let mut buffer = Buffer::new();
    into.extend_from_slice(buffer.format(position).as_bytes())
}

/// Puts a formula with its sign, as `p^{t}`, behind what `into` holds. The formula is less than `2^32` deep. Where memory runs out, `into` may
/// have a part of it.
#[tactic(auto, unfolding(crate::specs::ReportText::item_text))]
pub fn put_item<const N: usize>(
    alloc: Global,
    m: &Matrix<N>,
    item: &Signed<N>,
    into: &mut Vec<u8>,
) -> Result<(), AllocError>
    requires { depth item.now.formula < 2 ^ 32 }
    ensures { OnOk result (into.new.items ≡ into.old.items ++ item_text m.now item.now) }
{
    put_formula(alloc, m, &item.formula, 0, into)?;
    into.push(b'^')?;
    put_set(m.names(), item.sign, into)
}

/// Puts the items of a sequent, as `p^{t}, q^{f}`, behind what `into` holds; nothing where there are none. The formulas are less than `2^32` deep.
/// Where memory runs out, `into` may have a part of it.
#[tactic(auto, unfolding(crate::specs::ReportText::sequent_text), using(std::proofs::lemmas::Grind::common_steps, lgc_print::proofs::TextLaws::joined_more, lgc_print::proofs::TextLaws::between_more))]
pub fn put_sequent<const N: usize>(
    alloc: Global,
    m: &Matrix<N>,
    items: &[Signed<N>],
    into: &mut Vec<u8>,
) -> Result<(), AllocError>
    requires { All (λ item. depth item.formula < 2 ^ 32) items.now }
    ensures { OnOk result (into.new.items ≡ into.old.items ++ sequent_text m.now items.now) }
{
    let mut separator: &[u8] = b"";
    for item in items {
        into.extend_from_slice(separator)?;
        put_item(alloc, m, item, into)?;
        separator = b", ";
    }
    Ok(())
}

#[tactic(auto, using(std::proofs::lemmas::Grind::common_steps, lgc_print::proofs::TextLaws::joined_more, lgc_print::proofs::TextLaws::between_more))]
fn put_each_term(alloc: Global, terms: &[Term], into: &mut Vec<u8>) -> Result<(), AllocError>
    requires { All (λ t. has_no_bound t ≡ true) terms.now }
    ensures { OnOk result (into.new.items ≡ into.old.items ++ joined (codes ",") (map (λ t. term_text t 0) terms.now)) }
{
    let mut separator: &[u8] = b"";
    for t in terms {
        into.extend_from_slice(separator)?;
        put_term(alloc, t, 0, into)?;
        separator = b",";
    }
    Ok(())
}

#[tactic(auto, using(std::proofs::lemmas::Grind::common_steps, crate::proofs::ReportLaws::some_terms, crate::proofs::ReportLaws::no_terms))]
fn put_terms(alloc: Global, terms: &[Term], into: &mut Vec<u8>) -> Result<(), AllocError>
    requires { All (λ t. has_no_bound t ≡ true) terms.now }
    ensures { OnOk result (into.new.items ≡ into.old.items ++ terms_text terms.now) }
{
    if terms.is_empty() {
        return Ok(());
    }
    into.push(b'[')?;
    put_each_term(alloc, terms, into)?;
    into.push(b']')?;
    Ok(())
}

#[tactic(auto, unfolding(crate::specs::ReportText::cited_text))]
fn put_cited(alloc: Global, cited: &Cited, into: &mut Vec<u8>) -> Result<(), AllocError>
    requires { All (λ t. has_no_bound t ≡ true) cited.now.terms }
    ensures { OnOk result (into.new.items ≡ into.old.items ++ cited_text cited.now) }
{
    put_position(cited.line, into)?;
    put_terms(alloc, cited.terms.items(), into)
}

#[tactic(auto, using(std::proofs::lemmas::Grind::common_steps, lgc_print::proofs::TextLaws::joined_more, lgc_print::proofs::TextLaws::between_more))]
fn put_each_cited(alloc: Global, premises: &[Cited], into: &mut Vec<u8>) -> Result<(), AllocError>
    requires { All (λ cited. All (λ t. has_no_bound t ≡ true) cited.terms) premises.now }
    ensures { OnOk result (into.new.items ≡ into.old.items ++ joined (codes ", ") (map cited_text premises.now)) }
{
    let mut separator: &[u8] = b"";
    for cited in premises {
        into.extend_from_slice(separator)?;
        put_cited(alloc, cited, into)?;
        separator = b", ";
    }
    Ok(())
}

#[tactic(auto, using(std::proofs::lemmas::Grind::common_steps, crate::proofs::ReportLaws::some_premises, crate::proofs::ReportLaws::no_premises))]
fn put_premises(alloc: Global, premises: &[Cited], into: &mut Vec<u8>) -> Result<(), AllocError>
    requires { All (λ cited. All (λ t. has_no_bound t ≡ true) cited.terms) premises.now }
    ensures { OnOk result (into.new.items ≡ into.old.items ++ premises_text premises.now) }
{
    if premises.is_empty() {
        return Ok(());
    }
    into.extend_from_slice(b" from ")?;
    put_each_cited(alloc, premises, into)
}

fn put_reason<const N: usize>(
    alloc: Global,
    m: &Matrix<N>,
    reason: &Reason,
    into: &mut Vec<u8>,
) -> Result<(), AllocError>
    requires formulas { All (λ f. depth f < 2 ^ 32) (named_by reason.now) }
    requires terms { All (λ cited. All (λ t. has_no_bound t ≡ true) cited.terms) (premises_of reason.now) }
    ensures { OnOk result (into.new.items ≡ into.old.items ++ reason_text m.now reason.now) }
{
    match reason {
        Reason::Axiom => into.extend_from_slice(b"axiom"),
        Reason::Pending => into.extend_from_slice(b"pending"),
        Reason::ByRule {
            rule,
            principal,
            premises,
        } => {
            into.extend_from_slice(b"rule ")?;
            put_position(u64::from(*rule), into)?;
            into.extend_from_slice(b" on ")?;
            put_formula(alloc, m, principal, 0, into)?;
            put_premises(alloc, premises.items(), into)
        }
        Reason::Resolve { on, left, right } => {
            into.extend_from_slice(b"resolve on ")?;
            put_formula(alloc, m, on, 0, into)?;
            into.extend_from_slice(b" from ")?;
            put_position(*left, into)?;
            into.extend_from_slice(b", ")?;
            put_position(*right, into)
        }
    }
}

#[tactic(auto, unfolding(crate::specs::ReportText::line_text))]
fn put_line<const N: usize>(
    alloc: Global,
    m: &Matrix<N>,
    line: &Line<N>,
    into: &mut Vec<u8>,
) -> Result<(), AllocError>
    requires formulas { All (λ f. depth f < 2 ^ 32) (formulas_of line.now) }
    requires terms { All (λ cited. All (λ t. has_no_bound t ≡ true) cited.terms) (premises_of line.now.reason) }
    ensures { OnOk result (into.new.items ≡ into.old.items ++ line_text m.now line.now) }
{
    into.extend_from_slice(b"line ")?;
    put_position(line.number, into)?;
    into.extend_from_slice(b": ")?;
    put_sequent(alloc, m, line.sequent.items(), into)?;
    into.extend_from_slice(b" by ")?;
    put_reason(alloc, m, &line.reason, into)?;
    into.extend_from_slice(b".\n")
}

fn put_lines<const N: usize>(
    alloc: Global,
    m: &Matrix<N>,
    lines: &[Line<N>],
    into: &mut Vec<u8>,
) -> Result<(), AllocError>
    requires formulas { All (λ line. All (λ f. depth f < 2 ^ 32) (formulas_of line)) lines.now }
    requires terms { All (λ line. All (λ cited. All (λ t. has_no_bound t ≡ true) cited.terms) (premises_of line.reason)) lines.now }
    ensures { OnOk result (into.new.items ≡ into.old.items ++ flat_map (line_text m.now) lines.now) }
{
    for line in lines {
        put_line(alloc, m, line, into)?;
    }
    Ok(())
}

#[tactic(auto, using(std::proofs::lemmas::Grind::common_steps, lgc_print::proofs::TextLaws::joined_more, lgc_print::proofs::TextLaws::between_more))]
fn put_positions(positions: &[u64], into: &mut Vec<u8>) -> Result<(), AllocError>
    ensures { OnOk result (into.new.items ≡ into.old.items ++ positions_text positions.now) }
{
    let mut separator: &[u8] = b"";
    for position in positions {
        into.extend_from_slice(separator)?;
        put_position(*position, into)?;
        separator = b", ";
    }
    Ok(())
}

#[tactic(auto, unfolding(crate::specs::ReportText::entry_text))]
fn put_entry<const N: usize>(
    alloc: Global,
    m: &Matrix<N>,
    atom: &Formula,
    value: u8,
    into: &mut Vec<u8>,
) -> Result<(), AllocError>
    requires shallow { depth atom.now < 2 ^ 32 }
    requires below { value < N }
    ensures { OnOk result (into.new.items ≡ into.old.items ++ entry_text m.now (atom.now, value)) }
{
    let names = m.names();
    put_formula(alloc, m, atom, 0, into)?;
    into.extend_from_slice(b": ")?;
    put_value(names[value as usize].bytes(), into)
}

/// Puts the values of atoms, as `p: u, q: f`, behind what `into` holds. The atoms are less than `2^32` deep, and the values are truth values. Where
/// memory runs out, `into` may have a part of it.
#[tactic(auto, using(std::proofs::lemmas::Grind::common_steps, lgc_print::proofs::TextLaws::joined_more, lgc_print::proofs::TextLaws::between_more))]
pub fn put_entries<const N: usize>(
    alloc: Global,
    m: &Matrix<N>,
    entries: &[(Formula, u8)],
    into: &mut Vec<u8>,
) -> Result<(), AllocError>
    requires shallow { All (λ entry. depth entry.0 < 2 ^ 32) entries.now }
    requires below { All (λ entry. entry.1 < N) entries.now }
    ensures { OnOk result (into.new.items ≡ into.old.items ++ joined (codes ", ") (map (entry_text m.now) entries.now)) }
{
    let mut separator: &[u8] = b"";
    for entry in entries {
        into.extend_from_slice(separator)?;
        put_entry(alloc, m, &entry.0, entry.1, into)?;
        separator = b", ";
    }
    Ok(())
}

fn put_evidence<const N: usize>(
    alloc: Global,
    m: &Matrix<N>,
    evidence: &Evidence,
    into: &mut Vec<u8>,
) -> Result<(), AllocError>
    requires shallow { All (λ f. depth f < 2 ^ 32) (formulas_of_evidence evidence.now) }
    requires fits { FitsEvidence m.now evidence.now }
    ensures { OnOk result (into.new.items ≡ into.old.items ++ evidence_text m.now evidence.now) }
{
    let _names = m.names();
    match evidence {
        Evidence::Proved(cited) => {
            into.extend_from_slice(b" proved by ")?;
            put_positions(cited.items(), into)
        }
        Evidence::Refuted(valuation) => {
            into.extend_from_slice(b" refuted at {")?;
            put_entries(alloc, m, valuation.entries(), into)?;
            into.extend_from_slice(b"}")
        }
        Evidence::Unfinished(cited) => {
            into.extend_from_slice(b" unfinished by ")?;
            put_positions(cited.items(), into)
        }
    }
}

fn put_answer<const N: usize>(
    alloc: Global,
    m: &Matrix<N>,
    query: &Query,
    evidence: &Evidence,
    into: &mut Vec<u8>,
) -> Result<(), AllocError>
    requires formulas { All (λ f. depth f < 2 ^ 32) (queries.formulas_of query.now) }
    requires sets { HasSetsBelow N query.now }
    requires shallow { All (λ f. depth f < 2 ^ 32) (formulas_of_evidence evidence.now) }
    requires fits { FitsEvidence m.now evidence.now }
    ensures { OnOk result (into.new.items ≡ into.old.items ++ (query_text m.now query.now ++ evidence_text m.now evidence.now)) }
{
    write_query(alloc, m, query, into)?;
    put_evidence(alloc, m, evidence, into)
}

fn put_holding<const N: usize>(
    alloc: Global,
    m: &Matrix<N>,
    items: &[Signed<N>],
    line: u64,
    into: &mut Vec<u8>,
) -> Result<(), AllocError>
    requires { All (λ item. depth item.formula < 2 ^ 32) items.now }
    ensures { OnOk result (into.new.items ≡ into.old.items ++ (sequent_text m.now items.now ++ codes " holds by " ++ decimal line)) }
{
    put_sequent(alloc, m, items, into)?;
    into.extend_from_slice(b" holds by ")?;
    put_position(line, into)
}

fn number_of<const N: usize>(claim: &Claim<N>) -> u32
    ensures { result ≡ number_of (plain_claim claim.now) }
{
    match claim {
        Claim::Answer { number, .. } => *number,
        Claim::Holds { number, .. } => *number,
    }
}

fn put_claimed<const N: usize>(
    alloc: Global,
    m: &Matrix<N>,
    claim: &Claim<N>,
    into: &mut Vec<u8>,
) -> Result<(), AllocError>
    requires shallow { All (λ f. depth f < 2 ^ 32) (formulas_of_claim (plain_claim claim.now)) }
    requires fits { FitsClaim m.now (plain_claim claim.now) }
    ensures { OnOk result (into.new.items ≡ into.old.items ++ claimed_text m.now (plain_claim claim.now)) }
{
    let _names = m.names();
    match claim {
        Claim::Answer {
            query,
            evidence,
            ..
        } => put_answer(alloc, m, query, evidence, into),
        Claim::Holds { sequent, line, .. } => put_holding(alloc, m, sequent.items(), *line, into),
    }
}

#[tactic(auto, unfolding(crate::specs::ReportText::claim_text))]
fn put_claim<const N: usize>(
    alloc: Global,
    m: &Matrix<N>,
    claim: &Claim<N>,
    into: &mut Vec<u8>,
) -> Result<(), AllocError>
    requires shallow { All (λ f. depth f < 2 ^ 32) (formulas_of_claim (plain_claim claim.now)) }
    requires fits { FitsClaim m.now (plain_claim claim.now) }
    ensures { OnOk result (into.new.items ≡ into.old.items ++ claim_text m.now (plain_claim claim.now)) }
{
    into.extend_from_slice(b"claim ")?;
    put_position(u64::from(number_of(claim)), into)?;
    into.extend_from_slice(b": ")?;
    put_claimed(alloc, m, claim, into)?;
    into.extend_from_slice(b".\n")
}

fn put_claims<const N: usize>(
    alloc: Global,
    m: &Matrix<N>,
    claims: &[Claim<N>],
    into: &mut Vec<u8>,
) -> Result<(), AllocError>
    requires shallow { All (λ claim. All (λ f. depth f < 2 ^ 32) (formulas_of_claim (plain_claim claim))) claims.now }
    requires fits { All (λ claim. FitsClaim m.now (plain_claim claim)) claims.now }
    ensures { OnOk result (into.new.items ≡ into.old.items ++ flat_map (claim_text m.now) (map plain_claim claims.now)) }
{
    for claim in claims {
        put_claim(alloc, m, claim, into)?;
    }
    Ok(())
}

fn put_rules<const N: usize>(
    alloc: Global,
    m: &Matrix<N>,
    rules: &[Numbered<N>],
    into: &mut Vec<u8>,
) -> Result<(), AllocError>
    requires { All (λ numbered. Fits m.now (plain_rule numbered.rule)) rules.now }
    ensures { OnOk result (into.new.items ≡ into.old.items ++ flat_map (numbered_text m.now) (map plain_numbered rules.now)) }
{
    for numbered in rules {
        write_rule(alloc, m, numbered.number, &numbered.rule, into)?;
    }
    Ok(())
}

/// The text of a report of the logic, in the one spelling: a head, the rules, the lines, the claims, and an end. Each formula's depth is
/// below 2^32. An error comes only where memory runs out.
pub fn write_report<const N: usize>(
    alloc: Global,
    m: &Matrix<N>,
    r: &Report<N>,
) -> Result<Vec<u8>, AllocError>
    requires fits { FitsReport m.now (plain_report r.now) }
    requires shallow { All (λ f. depth f < 2 ^ 32) (formulas_of_report (plain_report r.now)) }
    ensures { IfOk result (λ text. text.items ≡ report_text m.now (plain_report r.now)) }
{
    let mut text = Vec::new(alloc);
    text.extend_from_slice(b"report 1.\n")?;
    put_rules(alloc, m, r.rules.items(), &mut text)?;
    put_lines(alloc, m, r.lines.items(), &mut text)?;
    put_claims(alloc, m, r.claims.items(), &mut text)?;
    text.extend_from_slice(b"end.\n")?;
    Ok(text)
}
