// Which sequents include others, and which are full.
ghost use Rattle.std.specs.Prelude.{◌≡◌, ◌<◌, ◌≤◌, ◌↔◌, ℕ, List, All, false, true, slice_get, take, IsTrue, MatchOption, Some};
ghost use Rattle.lgc_values.specs.Values.{has};
ghost use Rattle.lgc_sequents.specs.Sequents.{has_all};
ghost use Rattle.lgc_packed.specs.Packed.{IsPacked, IsIncluded, IsFullAt, is_full, marks};

use crate::Packed;
use crate::packed::place_from;
use lgc_values::ValueSet;

/// Whether each value that stands on a formula in the first sequent stands on it in the other one.
pub fn included_in<const N: usize>(packed: &Packed<N>, other: &Packed<N>) -> bool
    ensures { IsTrue result ↔ IsIncluded N packed.now other.now }
{
    let others = other.pairs();
    let mut at = 0;
    for pair in packed.pairs() {
        let (number, sign) = *pair;
        at = place_from(others, number, at);
        if !sign.is_subset(sign_at(others, number, at)) {
            return false;
        }
    }
    true
}

// The sign of the formula with a number, given the first place whose number isn't below it. It is empty where no pair has the number.
fn sign_at<const N: usize>(pairs: &[(u64, ValueSet<N>)], number: u64, at: usize) -> ValueSet<N>
    requires packed { IsPacked N pairs.now }
    requires before { All (λ pair. pair.0 < number) (take at pairs.now) }
    requires from { (d : ℕ × List ℕ) → slice_get pairs.now at ≡ Some d → number ≤ d.0 }
    ensures { (w : ℕ) → w < N → has result w ≡ marks pairs.now number w }
{
    if at < pairs.len() && pairs[at].0 == number {
        pairs[at].1
    } else {
        ValueSet::empty()
    }
}

/// The sign of the formula with a number, empty where it isn't there.
pub fn sign_of<const N: usize>(packed: &Packed<N>, number: u64) -> ValueSet<N>
    ensures { (w : ℕ) → w < N → has result w ≡ marks packed.now number w }
{
    let pairs = packed.pairs();
    sign_at(pairs, number, place_from(pairs, number, 0))
}

/// A place of a formula that carries all values, and None where there is none.
pub fn full_at<const N: usize>(packed: &Packed<N>) -> Option<usize>
    ensures { MatchOption result (is_full N packed.now ≡ false) (IsFullAt N packed.now) }
{
    let pairs = packed.pairs();
    for i in 0..pairs.len() {
        if has_all(pairs[i].1) {
            return Some(i);
        }
    }
    None
}

// Whether each truth value is a member.
fn has_all<const N: usize>(set: ValueSet<N>) -> bool
    ensures { result ≡ has_all N set.entry }
{
    set.complement().is_empty()
}
