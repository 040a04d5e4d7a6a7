// Lines for lemmas.
ghost use Rattle.std.specs.Prelude.{◌≡◌, ◌≢◌, ◌<◌, ◌+◌, ℕ, true, List, length, map, slice_index, All, IfOk};
ghost use Rattle.lgc_sequents.specs.Signed.{SignedFormula};
ghost use Rattle.lgc_sequents.specs.Lines.{PlainLine};
ghost use Rattle.lgc_calculus.specs.RuleBook.{IsRightBook};
ghost use Rattle.lgc_lemmas.specs.Steps.{IsGrown};
ghost use Rattle.lgc_decision.specs.Decided.{AreSubformulasOf, AreLemmas};
ghost use Rattle.lgc_proofs.specs.Found.{AreAppended};
ghost use Rattle.lgc_proofs.specs.Writing.{number_named_by, places_cited_by, CiteEarlier, is_marked, AreClosedFrom, cited_line, line_reason, HasLine, HaveLines};

use crate::Proofs;
use lgc_calculus::RuleBook;
use lgc_lemmas::{Lemmas, Reason as LemmaReason};
use lgc_numbering::Formulas;
use lgc_packed::unpack;
use lgc_sequents::{Cited, Reason};
use lgc_values::{List, Matrix};
use std::alloc::{AllocError, Global};

// Marks a lemma and all that it needs, each at its place: the lemmas that it cites, and those that these need in turn.
pub(crate) fn needed_by<const N: usize>(
    alloc: Global,
    lemmas: &Lemmas<N>,
    place: u64,
) -> Result<Vec<bool>, AllocError>
    requires place { place < length lemmas.now }
    requires earlier { CiteEarlier lemmas.now }
    ensures count { IfOk result (λ marks. length marks.items ≡ length lemmas.now) }
    ensures itself { IfOk result (λ marks. is_marked marks.items place ≡ true) }
    ensures closed { IfOk result (λ marks. AreClosedFrom 0 lemmas.now marks.items) }
{
    let count = lemmas.items().len();
    let mut marks = vec![in alloc; false; count]?;
    marks[place as usize] = true;
    for done in 0..count {
        mark_cited(lemmas, count - 1 - done, &mut marks);
    }
    Ok(marks)
}

// Where the lemma at a place is marked, marks those that it cites.
fn mark_cited<const N: usize>(lemmas: &Lemmas<N>, place: usize, marks: &mut [bool])
    requires known { place < length lemmas.now }
    requires place { place < length marks.old }
    requires earlier { CiteEarlier lemmas.now }
    ensures closed { AreClosedFrom (place + 1) lemmas.now marks.old → AreClosedFrom place lemmas.now marks.new }
    ensures kept { (other : ℕ) → is_marked marks.old other ≡ true → is_marked marks.new other ≡ true }
{
    if marks[place] {
        let lemma = lemmas.lemma(place as u64);
        mark_all(cited_places(&lemma.reason), marks);
    }
}

// The places of the lemmas that a lemma with this reason cites.
fn cited_places(reason: &LemmaReason) -> &[u64]
    ensures { result.now ≡ places_cited_by reason.now }
{
    match reason {
        LemmaReason::Axiom => &[],
        LemmaReason::ByRule { cited, .. } => cited.items(),
    }
}

// Marks these places, and no other.
fn mark_all(places: &[u64], marks: &mut [bool])
    requires { All (λ place. place < length marks.old) places.now }
    ensures each { All (λ place. is_marked marks.new place ≡ true) places.now }
    ensures kept { (other : ℕ) → is_marked marks.old other ≡ true → is_marked marks.new other ≡ true }
    ensures others { (other : ℕ) → All (λ place. place ≢ other) places.now → is_marked marks.new other ≡ is_marked marks.old other }
{
    for place in places {
        marks[*place as usize] = true;
    }
}

// The reason of a lemma, as that of a line, where the lemmas that it cites have their lines at these positions.
pub(crate) fn reason_of(
    alloc: Global,
    formulas: &Formulas,
    reason: &LemmaReason,
    positions: &[u64],
) -> Result<Reason, AllocError>
    requires named { All (λ number. number < length formulas.now) (number_named_by reason.now) }
    requires cited { All (λ place. place < length positions.now) (places_cited_by reason.now) }
    ensures { IfOk result (λ made. made ≡ line_reason formulas.now (slice_index positions.now) reason.now) }
{
    match reason {
        LemmaReason::Axiom => Ok(Reason::Axiom),
        LemmaReason::ByRule {
            rule,
            principal,
            cited,
        } => {
            let premises = cited_lines(alloc, cited.items(), positions)?;
            Ok(Reason::ByRule {
                rule: *rule,
                principal: formulas.formula(*principal)?,
                premises,
            })
        }
    }
}

// The lines of the lemmas at these places, as a step cites them.
fn cited_lines(alloc: Global, places: &[u64], positions: &[u64]) -> Result<List<Cited>, AllocError>
    requires { All (λ place. place < length positions.now) places.now }
    ensures { IfOk result (λ cited. cited ≡ map (cited_line (slice_index positions.now)) places.now) }
{
    let mut cited = List::new(alloc);
    for place in places {
        cited.push(Cited {
            line: positions[*place as usize],
            terms: List::new(alloc),
        })?;
    }
    Ok(cited)
}

// The positions of the lines of the marked lemmas before a place, one for each lemma there, and 0 where it isn't marked. Lines that aren't
// there are appended. Want of memory may leave some of them.
pub(crate) fn write_lines<const N: usize>(
    alloc: Global,
    m: &Matrix<N>,
    book: &RuleBook<N>,
    formulas: &Formulas,
    lemmas: &Lemmas<N>,
    marks: &[bool],
    before: u64,
    proofs: &mut Proofs<N>,
) -> Result<Vec<u64>, AllocError>
    requires before { before < length lemmas.now }
    requires marks { before < length marks.now }
    requires lemmas { AreLemmas m.now book.now formulas.now lemmas.now }
    requires right { IsRightBook m.now book.now }
    requires closed { AreClosedFrom 0 lemmas.now marks.now }
    ensures count { IfOk result (λ positions. length positions.items ≡ before) }
    ensures lines { IfOk result (λ positions. HaveLines formulas.now lemmas.now proofs.new marks.now positions.items before) }
    ensures appended { (goal : List SignedFormula) → AreSubformulasOf goal formulas.now → AreAppended m.now book.now goal proofs.old proofs.new }
{
    let mut positions = Vec::new(alloc);
    for place in 0..before {
        let position = line_of(
            alloc, m, book, formulas, lemmas, marks, place, &positions, proofs,
        )?;
        positions.push(position)?;
    }
    Ok(positions)
}

// The position of the line of the lemma at a place, and 0 where it isn't marked. A line that isn't there is appended.
#[tactic(auto, using(crate::proofs::Appending::unchanged_laws))]
fn line_of<const N: usize>(
    alloc: Global,
    m: &Matrix<N>,
    book: &RuleBook<N>,
    formulas: &Formulas,
    lemmas: &Lemmas<N>,
    marks: &[bool],
    place: u64,
    positions: &[u64],
    proofs: &mut Proofs<N>,
) -> Result<u64, AllocError>
    requires place { place < length lemmas.now }
    requires marks { place < length marks.now }
    requires lemmas { AreLemmas m.now book.now formulas.now lemmas.now }
    requires right { IsRightBook m.now book.now }
    requires closed { AreClosedFrom 0 lemmas.now marks.now }
    requires count { length positions.now ≡ place }
    requires lines { HaveLines formulas.now lemmas.now proofs.old marks.now positions.now place }
    ensures line { IfOk result (λ position. is_marked marks.now place ≡ true → HasLine formulas.now lemmas.now proofs.new place position) }
    ensures grown { IsGrown PlainLine proofs.old proofs.new }
    ensures appended { (goal : List SignedFormula) → AreSubformulasOf goal formulas.now → AreAppended m.now book.now goal proofs.old proofs.new }
{
    if !marks[place as usize] {
        return Ok(0);
    }
    let lemma = lemmas.lemma(place);
    let sequent = unpack(alloc, &lemma.sequent, formulas)?;
    let reason = reason_of(alloc, formulas, &lemma.reason, positions)?;
    proofs.line_for(sequent, reason)
}
