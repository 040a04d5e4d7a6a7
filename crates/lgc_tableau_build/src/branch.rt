// Branches over the numbers of formulas.
ghost use Rattle.std.specs.Prelude.{◌≡◌, ◌≢◌, ◌<◌, ◌↔◌, ℕ, true, [], length, All, IfOk, IsTrue, MatchOption};
ghost use Rattle.lgc_values.specs.Values.{IsSize, has};
ghost use Rattle.lgc_tableau_build.specs.Numbers.{AreSigns, IsNoneFull, IsFirstFullNumber};

use lgc_values::ValueSet;
use std::alloc::{AllocError, Global};

// The values that each of so many formulas has on a branch, by its number.
pub(crate) fn signs_of<const N: usize>(
    alloc: Global,
    count: usize,
    branch: &[(u64, ValueSet<N>)],
) -> Result<Vec<ValueSet<N>>, AllocError>
    requires size { IsSize N }
    requires known { All (λ pair. pair.0 < count) branch.now }
    ensures count { IfOk result (λ signs. length signs.items ≡ count) }
    ensures signs { IfOk result (λ signs. AreSigns N branch.now signs.items) }
{
    let mut signs = Vec::from_elem(alloc, ValueSet::empty(), count)?;
    for pair in branch {
        let (number, sign) = *pair;
        let k = number as usize;
        signs[k] = signs[k].union(sign);
    }
    Ok(signs)
}

// The number of the first formula with a value on a branch that has all of them, where these are the formulas' signs.
pub(crate) fn first_full<const N: usize>(
    branch: &[(u64, ValueSet<N>)],
    signs: &[ValueSet<N>],
) -> Option<u64>
    requires size { IsSize N }
    requires known { All (λ pair. pair.0 < length signs.now) branch.now }
    requires signs { AreSigns N branch.now signs.now }
    ensures { MatchOption result (IsNoneFull N branch.now) (IsFirstFullNumber N branch.now) }
{
    for pair in branch {
        let (number, sign) = *pair;
        if is_full(sign, signs[number as usize]) {
            return Some(number);
        }
    }
    None
}

// Whether a formula has members in one of its signs, and every truth value in all of them together.
fn is_full<const N: usize>(sign: ValueSet<N>, whole: ValueSet<N>) -> bool
    ensures { IsTrue result ↔ ((sign.entry ≢ []) × ((w : ℕ) → w < N → has whole.entry w ≡ true)) }
{
    !sign.is_empty() && whole.least_missing().is_none()
}
