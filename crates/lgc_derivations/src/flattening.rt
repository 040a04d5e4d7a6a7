// Derivations as lines.
ghost use Rattle.std.specs.Prelude.{◌≡◌, length, take, IfOk, OnErr};
ghost use Rattle.lgc_derivations.specs.Flattened.{IsFlattened, AreFlattened};

use crate::Derivation;
use lgc_sequents::{Cited, Line, Reason, Sequent, copy_sequent};
use lgc_syntax::copy_formula;
use lgc_values::List;
use std::alloc::{AllocError, Global};

/// Appends the lines of a derivation, premises first, and answers the number of the last, whose sequent is the derivation's conclusion. The
/// numbers are positions. Where the derivation is right for some rules, every appended line is a step by these. On want of memory the lines
/// are as they were.
pub fn flatten<const N: usize>(
    alloc: Global,
    d: &Derivation<Sequent<N>>,
    lines: &mut List<Line<N>>,
) -> Result<u64, AllocError>
    ensures flattened { IfOk result (IsFlattened N d.now lines.old lines.new) }
    ensures kept { OnErr result (lines.new ≡ lines.old) }
{
    let before = lines.items().len();
    let outcome = append(alloc, d, lines);
    if outcome.is_err() {
        lines.truncate(before);
    }
    outcome
}

// The same, but for the lines that stand there where memory runs out.
#[cycle(append)]
fn append<const N: usize>(
    alloc: Global,
    d: &Derivation<Sequent<N>>,
    lines: &mut List<Line<N>>,
) -> Result<u64, AllocError>
    ensures flattened { IfOk result (IsFlattened N d.now lines.old lines.new) }
    ensures kept { take (length lines.old) lines.new ≡ lines.old }
{
    match d {
        Derivation::Axiom { conclusion } => {
            let number = lines.items().len() as u64 + 1;
            let sequent = copy_sequent(alloc, conclusion)?;
            lines.push(Line {
                number,
                sequent,
                reason: Reason::Axiom,
            })?;
            Ok(number)
        }
        Derivation::Step {
            conclusion,
            rule,
            principal,
            premises,
        } => {
            let premises = append_all(alloc, premises.items(), lines)?;
            let number = lines.items().len() as u64 + 1;
            let sequent = copy_sequent(alloc, conclusion)?;
            let principal = copy_formula(alloc, principal)?;
            let reason = Reason::ByRule {
                rule: *rule,
                principal,
                premises,
            };
            lines.push(Line {
                number,
                sequent,
                reason,
            })?;
            Ok(number)
        }
    }
}

// Appends the lines of derivations, and answers their last lines.
#[cycle(append)]
fn append_all<const N: usize>(
    alloc: Global,
    derivations: &[Derivation<Sequent<N>>],
    lines: &mut List<Line<N>>,
) -> Result<List<Cited>, AllocError>
    ensures flattened { IfOk result (AreFlattened N derivations.now lines.old lines.new) }
    ensures kept { take (length lines.old) lines.new ≡ lines.old }
{
    let mut cited = List::new(alloc);
    for d in derivations {
        let line = append(alloc, d, lines)?;
        cited.push(Cited {
            line,
            terms: List::new(alloc),
        })?;
    }
    Ok(cited)
}
