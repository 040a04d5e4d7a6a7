// The search for lemmas.
ghost use Rattle.std.specs.Prelude.{◌≡◌, ◌<◌, ◌≤◌, ◌-◌, ◌≢◌, ℕ, [], All, length, IfOk};
ghost use Rattle.lgc_clauses.specs.Rules.{OperatorRule};
ghost use Rattle.lgc_calculus.specs.RuleBook.{IsRightBook, IsNumberFor};
ghost use Rattle.lgc_packed.specs.Packed.{IsIncluded};
ghost use Rattle.lgc_lemmas.specs.Plain.{PlainLemma};
ghost use Rattle.lgc_lemmas.specs.Nodes.{AreNodes, HasNumbersBelow};
ghost use Rattle.lgc_lemmas.specs.Steps.{AreSteps, IsReason, IsGrown};
ghost use Rattle.lgc_lemmas.specs.Answers.{IsProvedBy};
ghost use Rattle.lgc_search.specs.Search.{IsAnswer, AreFound, clauses_of};

use crate::Answer;
use crate::answer::Premises;
use crate::choosing::principal_at;
use crate::opened::{Opened, clause_count, conclude, keep, open, premise_at};
use lgc_calculus::RuleBook;
use lgc_lemmas::{Lemma, Lemmas, axiom_at, refute};
use lgc_numbering::Node;
use lgc_packed::{Packed, full_at, included_in};
use lgc_values::{List, Matrix};
use std::alloc::{AllocError, Global};

/// An answer to a goal, whose formulas are the nodes with its numbers: the place of a lemma that the goal includes, or values under
/// which the goal is false. Rules and lemmas are appended where they are wanted, and stay where memory is wanting.
#[cycle(prove)]
#[tactic(auto, using(lgc_lemmas::proofs::StepLaws::state_laws))]
pub fn prove<const N: usize>(
    alloc: Global,
    m: &Matrix<N>,
    nodes: &[Node],
    book: &mut RuleBook<N>,
    lemmas: &mut Lemmas<N>,
    goal: &Packed<N>,
) -> Result<Answer, AllocError>
    requires nodes { AreNodes m.now nodes.now }
    requires numbers { HasNumbersBelow (length nodes.now) goal.now }
    requires right { IsRightBook m.now book.old }
    requires steps { AreSteps m.now nodes.now book.old [] lemmas.old }
    ensures answer { IfOk result (IsAnswer m.now nodes.now lemmas.new goal.now) }
    ensures rules { IsGrown OperatorRule book.old book.new }
    ensures lemmas { IsGrown PlainLemma lemmas.old lemmas.new }
    ensures right { IsRightBook m.now book.new }
    ensures steps { AreSteps m.now nodes.now book.new [] lemmas.new }
{
    let _operators = m.operators();
    let _pairs = goal.pairs();
    if let Some(place) = lemmas.known(goal) {
        return Ok(Answer::Proved(place));
    }
    if let Some(at) = full_at(goal) {
        let axiom = axiom_at(alloc, goal, at)?;
        let place = append_step(m, nodes, book, lemmas, goal, axiom)?;
        return Ok(Answer::Proved(place));
    }
    match principal_at(nodes, &*book, goal) {
        None => Ok(Answer::Refuted(refute(alloc, m, nodes, goal)?)),
        Some(at) => {
            let opened = open(alloc, m, nodes, goal, at)?;
            let number = choose(m, nodes, book, lemmas, &opened)?;
            match prove_premises(alloc, m, nodes, book, lemmas, &opened, number)? {
                Premises::All { cited, kept } => {
                    let lemma = conclude(&opened, number, cited, kept)?;
                    let place = append_step(m, nodes, book, lemmas, goal, lemma)?;
                    Ok(Answer::Proved(place))
                }
                Premises::Enough(place) => Ok(Answer::Proved(place)),
                Premises::Refuted(values) => Ok(Answer::Refuted(values)),
            }
        }
    }
}

// Lemmas for the premises that the clauses of a rule give, a lemma that the rest of the goal includes, or values under which a premise
// is false.
#[cycle(prove)]
#[tactic(auto, using(lgc_lemmas::proofs::StepLaws::state_laws))]
fn prove_premises<const N: usize>(
    alloc: Global,
    m: &Matrix<N>,
    nodes: &[Node],
    book: &mut RuleBook<N>,
    lemmas: &mut Lemmas<N>,
    opened: &Opened<N>,
    number: u32,
) -> Result<Premises<N>, AllocError>
    requires nodes { AreNodes m.now nodes.now }
    requires rest { HasNumbersBelow (length nodes.now) opened.now.rest }
    requires arguments { All (λ argument. argument < length nodes.now) opened.now.arguments }
    requires rule { IsNumberFor book.old opened.now.op opened.now.sign number }
    requires right { IsRightBook m.now book.old }
    requires steps { AreSteps m.now nodes.now book.old [] lemmas.old }
    ensures found { IfOk result (AreFound m.now nodes.now lemmas.new (clauses_of book.old number) opened.now.arguments opened.now.rest) }
    ensures rules { IsGrown OperatorRule book.old book.new }
    ensures lemmas { IsGrown PlainLemma lemmas.old lemmas.new }
    ensures right { IsRightBook m.now book.new }
    ensures steps { AreSteps m.now nodes.now book.new [] lemmas.new }
{
    let _operators = m.operators();
    let _rest = opened.rest.pairs();
    let mut cited = List::new(alloc);
    let mut kept = Packed::new(alloc);
    for i in 0..clause_count(book, number) {
        let premise = premise_at(alloc, nodes, book, number, opened, i)?;
        match prove(alloc, m, nodes, book, lemmas, &premise)? {
            Answer::Proved(place) => {
                let lemma = lemmas.lemma(place);
                if included_in(&lemma.sequent, &opened.rest) {
                    return Ok(Premises::Enough(place));
                }
                kept = keep(kept, &lemma.sequent, book, number, opened, i)?;
                cited.push(place)?;
            }
            Answer::Refuted(values) => return Ok(Premises::Refuted(values)),
        }
    }
    Ok(Premises::All { cited, kept })
}

// The number of the rule for the principal formula. The lemmas stay steps with the book that has it.
#[tactic(auto, using(lgc_lemmas::proofs::StepLaws::state_laws))]
fn choose<const N: usize>(
    m: &Matrix<N>,
    nodes: &[Node],
    book: &mut RuleBook<N>,
    lemmas: &Lemmas<N>,
    opened: &Opened<N>,
) -> Result<u32, AllocError>
    requires known { opened.now.op < length m.now.operators }
    requires nonempty { opened.now.sign ≢ [] }
    requires right { IsRightBook m.now book.old }
    requires steps { AreSteps m.now nodes.now book.old [] lemmas.now }
    ensures rule { IfOk result (IsNumberFor book.new opened.now.op opened.now.sign) }
    ensures rules { IsGrown OperatorRule book.old book.new }
    ensures right { IsRightBook m.now book.new }
    ensures steps { AreSteps m.now nodes.now book.new [] lemmas.now }
{
    book.rule_for(m, opened.op, opened.sign)
}

// Appends a lemma that is a step and that the goal includes, and answers its place.
fn append_step<const N: usize>(
    m: &Matrix<N>,
    nodes: &[Node],
    book: &RuleBook<N>,
    lemmas: &mut Lemmas<N>,
    goal: &Packed<N>,
    lemma: Lemma<N>,
) -> Result<u64, AllocError>
    requires numbers { HasNumbersBelow (length nodes.now) goal.now }
    requires steps { AreSteps m.now nodes.now book.now [] lemmas.old }
    requires reason { IsReason m.now nodes.now book.now lemmas.old lemma.sequent lemma.reason }
    requires included { IsIncluded m.now.size lemma.sequent goal.now }
    ensures proved { IfOk result (IsProvedBy m.now.size lemmas.new goal.now) }
    ensures lemmas { IsGrown PlainLemma lemmas.old lemmas.new }
    ensures steps { AreSteps m.now nodes.now book.now [] lemmas.new }
{
    let _operators = m.operators();
    let _pairs = lemma.sequent.pairs();
    lemmas.append(lemma)
}
