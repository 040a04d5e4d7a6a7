// Sequents and clauses: a clause at arguments has each of its sets as the sign of the argument at its place.
ghost use Rattle.std.specs.Prelude.{◌≡◌, ◌<◌, ℕ, ◌&&◌, ◌||◌, not, IfOk};
ghost use Rattle.std.specs.List.{zip};
ghost use Rattle.lgc_values.specs.Values.{has};
ghost use Rattle.lgc_packed.specs.Packed.{marks, added_all, marks_either, marks_besides};

use crate::Packed;
use crate::packed::copy_packed;
use lgc_values::ValueSet;
use std::alloc::{AllocError, Global};

/// The sequent with the sets of a clause added to the signs of the arguments.
pub fn with_clause<const N: usize>(
    alloc: Global,
    packed: &Packed<N>,
    sets: &[ValueSet<N>],
    arguments: &[u64],
) -> Result<Packed<N>, AllocError>
    ensures { IfOk result (λ premise. premise ≡ added_all N (zip arguments.now sets.now) packed.now) }
{
    let mut premise = copy_packed(alloc, packed)?;
    for i in 0..arguments.len() {
        if i < sets.len() {
            premise.add(arguments[i], sets[i])?;
        }
    }
    Ok(premise)
}

/// What was kept, with what a sequent has besides a clause at arguments. No other packed sequent has the same values on the same formulas.
pub fn keep_besides<const N: usize>(
    kept: Packed<N>,
    packed: &Packed<N>,
    sets: &[ValueSet<N>],
    arguments: &[u64],
) -> Result<Packed<N>, AllocError>
    ensures { IfOk result (λ all. (k w : ℕ) → w < N → marks all k w ≡ (marks kept.entry k w || marks_besides packed.now (zip arguments.now sets.now) k w)) }
{
    let mut kept = kept;
    for pair in packed.pairs() {
        let (number, sign) = *pair;
        kept.add(number, besides(number, sign, sets, arguments))?;
    }
    Ok(kept)
}

// The values of a sign that no set of a clause has on its formula.
fn besides<const N: usize>(
    number: u64,
    sign: ValueSet<N>,
    sets: &[ValueSet<N>],
    arguments: &[u64],
) -> ValueSet<N>
    ensures { (w : ℕ) → w < N → has result w ≡ (has sign.entry w && not (marks (zip arguments.now sets.now) number w)) }
{
    let mut left = sign;
    for i in 0..arguments.len() {
        if i < sets.len() && arguments[i] == number {
            left = left.meet(sets[i].complement());
        }
    }
    left
}
