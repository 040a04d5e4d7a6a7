// Lines as derivations.
ghost use Rattle.std.specs.Prelude.{◌≡◌, ◌≤◌, ◌<◌, length, slice_get, Some, IfOk};
ghost use Rattle.lgc_trees.specs.Unfolded.{premises_at, cited_at, AreInOrder, IsUnfolded, AreUnfolded};

use lgc_derivations::Derivation;
use lgc_sequents::{Cited, Line, Reason, Sequent, copy_sequent};
use lgc_syntax::copy_formula;
use lgc_values::List;
use std::alloc::{AllocError, Global};

// The derivation with a conclusion that has the reason of the line at a position, from those of the lines that it cites.
#[cycle(unfold)]
pub(crate) fn unfold<const N: usize>(
    alloc: Global,
    lines: &[Line<N>],
    position: u64,
    conclusion: Sequent<N>,
) -> Result<Derivation<Sequent<N>>, AllocError>
    requires order { AreInOrder lines.now }
    requires counted { 1 ≤ position }
    requires within { position ≤ length lines.now }
    ensures { IfOk result (IsUnfolded N lines.now position conclusion.entry) }
{
    let line = &lines[position as usize - 1];
    match &line.reason {
        Reason::Axiom => Ok(Derivation::Axiom { conclusion }),
        Reason::ByRule {
            rule,
            principal,
            ..
        } => {
            let principal = copy_formula(alloc, principal)?;
            let premises = unfold_cited(alloc, lines, position)?;
            Ok(Derivation::Step {
                conclusion,
                rule: *rule,
                principal,
                premises,
            })
        }
        Reason::Pending => unreachable!(),
        Reason::Resolve { .. } => unreachable!(),
    }
}

// The derivations of the lines that the line at a position cites.
#[cycle(unfold)]
fn unfold_cited<const N: usize>(
    alloc: Global,
    lines: &[Line<N>],
    position: u64,
) -> Result<List<Derivation<Sequent<N>>>, AllocError>
    requires order { AreInOrder lines.now }
    requires counted { 1 ≤ position }
    requires within { position ≤ length lines.now }
    ensures { IfOk result (AreUnfolded N lines.now (cited_at lines.now position)) }
{
    let mut derivations = List::new(alloc);
    for i in 0..premises_at(lines, position).len() {
        let cited = cited_line(lines, position, i);
        let line = &lines[cited as usize - 1];
        let conclusion = copy_sequent(alloc, &line.sequent)?;
        derivations.push(unfold(alloc, lines, cited, conclusion)?)?;
    }
    Ok(derivations)
}

// The premises that the line at a position cites.
fn premises_at<const N: usize>(lines: &[Line<N>], position: u64) -> &[Cited]
    requires counted { 1 ≤ position }
    requires within { position ≤ length lines.now }
    ensures { result.now ≡ premises_at lines.now position }
{
    let line = &lines[position as usize - 1];
    match &line.reason {
        Reason::Axiom => &[],
        Reason::Pending => &[],
        Reason::ByRule { premises, .. } => premises.items(),
        Reason::Resolve { .. } => &[],
    }
}

// The position of the line that is cited as premise `i`, counted from 0. It stands before the line that cites it.
fn cited_line<const N: usize>(lines: &[Line<N>], position: u64, i: usize) -> u64
    requires order { AreInOrder lines.now }
    requires counted { 1 ≤ position }
    requires within { position ≤ length lines.now }
    requires there { i < length (premises_at lines.now position) }
    ensures is { slice_get (cited_at lines.now position) i ≡ Some result }
    ensures counted { 1 ≤ result }
    ensures within { result ≤ length lines.now }
    ensures earlier { result < position }
{
    premises_at(lines, position)[i].line
}
