// A compound of a goal, and the premises for the clauses of its rule.
ghost use Rattle.std.specs.Prelude.{◌≡◌, ◌<◌, ◌≤◌, ◌||◌, ℕ, List, ◌+◌, ◌*◌, ◌-◌, All, length, slice_get, Some, IfOk, ◌≢◌, []};
ghost use Rattle.std.specs.List.{zip};
ghost use Rattle.lgc_clauses.specs.Rules.{OperatorRule};
ghost use Rattle.lgc_clauses.specs.Irredundance.{clause_at};
ghost use Rattle.lgc_packed.specs.Packed.{added, added_all, marks, marks_besides, weight_of, total};
ghost use Rattle.lgc_lemmas.specs.declared.lemma.Reason.TheVariants.{ByRule};
ghost use Rattle.lgc_lemmas.specs.Nodes.{AreNodes, HasNumbersBelow, IsCompoundAt};
ghost use Rattle.lgc_search.specs.Search.{IsOpened, clauses_of, weight};

use lgc_calculus::RuleBook;
use lgc_lemmas::{Lemma, Reason};
use lgc_numbering::Node;
use lgc_packed::{Packed, keep_besides, with_clause, without_pair};
use lgc_values::{List, Matrix, ValueSet};
use std::alloc::{AllocError, Global};

/// A compound of a goal, which is the principal formula of a step, and the rest of the goal.
#[derive(Drop)]
pub(crate) struct Opened<const N: usize> {
    pub op: u16,
    pub principal: u64,
    pub sign: ValueSet<N>,
    pub arguments: List<u64>,
    pub rest: Packed<N>,
}

// The compound at a place of the goal, taken out of it.
pub(crate) fn open<const N: usize>(
    alloc: Global,
    m: &Matrix<N>,
    nodes: &[Node],
    goal: &Packed<N>,
    at: usize,
) -> Result<Opened<N>, AllocError>
    requires nodes { AreNodes m.now nodes.now }
    requires numbers { HasNumbersBelow (length nodes.now) goal.now }
    requires compound { IsCompoundAt nodes.now goal.now at }
    ensures is { IfOk result (λ opened. IsOpened nodes.now goal.now opened.op opened.principal opened.sign opened.arguments opened.rest) }
    ensures known { IfOk result (λ opened. opened.op < length m.now.operators) }
    ensures nonempty { IfOk result (λ opened. opened.sign ≢ []) }
    ensures numbers { IfOk result (λ opened. HasNumbersBelow (length nodes.now) opened.rest) }
    ensures arguments { IfOk result (λ opened. All (λ argument. argument < length nodes.now) opened.arguments) }
    ensures falls { IfOk result (λ opened. 2 * (weight_of weight opened.rest + total weight opened.arguments) + 1 < 2 * weight_of weight goal.now) }
{
    let _operators = m.operators();
    let (principal, sign) = goal.pairs()[at];
    match &nodes[principal as usize] {
        Node::Compound { op, args } => {
            let rest = without_pair(alloc, goal, at)?;
            let arguments = List::of_vec(Vec::from_slice(alloc, args.items())?);
            Ok(Opened {
                op: *op,
                principal,
                sign,
                arguments,
                rest,
            })
        }
        Node::Atom(_) => unreachable!(),
    }
}

// The premise for clause `i`, counted from 0, of the rule with a number.
pub(crate) fn premise_at<const N: usize>(
    alloc: Global,
    nodes: &[Node],
    book: &RuleBook<N>,
    number: u32,
    opened: &Opened<N>,
    i: usize,
) -> Result<Packed<N>, AllocError>
    requires numbers { HasNumbersBelow (length nodes.now) opened.now.rest }
    requires arguments { All (λ argument. argument < length nodes.now) opened.now.arguments }
    requires counted { 1 ≤ number }
    requires number { number - 1 < length book.now }
    requires clause { i < length (clauses_of book.now number) }
    ensures is { IfOk result (λ premise. premise ≡ added_all N (zip opened.now.arguments (clause_at (clauses_of book.now number) i)) opened.now.rest) }
    ensures numbers { IfOk result (HasNumbersBelow (length nodes.now)) }
    ensures falls { IfOk result (λ premise. 2 * weight_of weight premise < 2 * (weight_of weight opened.now.rest + total weight opened.now.arguments) + 1) }
{
    let rule = &book.rules()[number as usize - 1];
    let clause = rule.clauses.get(i);
    with_clause(
        alloc,
        &opened.rest,
        clause.sets.items(),
        opened.arguments.items(),
    )
}

// What was kept, with what a lemma has besides clause `i`, counted from 0, of the rule with a number.
pub(crate) fn keep<const N: usize>(
    kept: Packed<N>,
    lemma: &Packed<N>,
    book: &RuleBook<N>,
    number: u32,
    opened: &Opened<N>,
    i: usize,
) -> Result<Packed<N>, AllocError>
    requires counted { 1 ≤ number }
    requires number { number - 1 < length book.now }
    requires clause { i < length (clauses_of book.now number) }
    ensures { IfOk result (λ all. (k w : ℕ) → w < N → marks all k w ≡ (marks kept.entry k w || marks_besides lemma.now (zip opened.now.arguments (clause_at (clauses_of book.now number) i)) k w)) }
{
    let rule = &book.rules()[number as usize - 1];
    let clause = rule.clauses.get(i);
    keep_besides(kept, lemma, clause.sets.items(), opened.arguments.items())
}

// The number of clauses of the rule with a number.
pub(crate) fn clause_count<const N: usize>(book: &RuleBook<N>, number: u32) -> usize
    requires counted { 1 ≤ number }
    requires number { number - 1 < length book.now }
    ensures { result ≡ length (clauses_of book.now number) }
{
    let rule = &book.rules()[number as usize - 1];
    rule.clauses.len()
}

// The lemma that the lemmas for the premises give: what was kept, with the sign of the principal formula.
pub(crate) fn conclude<const N: usize>(
    opened: &Opened<N>,
    number: u32,
    cited: List<u64>,
    kept: Packed<N>,
) -> Result<Lemma<N>, AllocError>
    ensures sequent { IfOk result (λ lemma. lemma.sequent ≡ added N opened.now.principal opened.now.sign kept.entry) }
    ensures reason { IfOk result (λ lemma. lemma.reason ≡ ByRule number opened.now.principal cited) }
{
    let mut sequent = kept;
    sequent.add(opened.principal, opened.sign)?;
    let principal = opened.principal;
    let reason = Reason::ByRule {
        rule: number,
        principal,
        cited,
    };
    Ok(Lemma { sequent, reason })
}
