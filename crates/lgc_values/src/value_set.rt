// A set of truth values below `N`, kept as a mask and seen as the rising list of its members.
ghost use Rattle.std.specs.Prelude.{◌≡◌, ◌≢◌, ◌≤◌, ◌<◌, ◌-◌, ◌^◌, ◌==◌, ◌||◌, ◌&&◌, ◌↔◌, [], ◌∷◌, ℕ, true, not, filter, nat_lt, IsTrue};
ghost use Rattle.std.specs.List.{list_all, list_any};
ghost use Rattle.lgc_values.specs.Values.{IsSize, values_where, has, mask_of, members_of, set_of_row, Least, is_from};

use std::marker::Model;

/// A set of the truth values below `N`, seen as the rising list of its members.
#[derive(Clone, Copy, Debug)]
pub struct ValueSet<const N: usize> {
    mask: u16,
}

impl<const N: usize> Model for ValueSet<N> {
    ghost use Rattle.std.specs.Prelude.{List, ℕ, ◌≤◌, ◌<◌, ◌^◌};
    ghost use Rattle.lgc_values.specs.Values.{IsSize, members_of, mask_of};
    ghost use Rattle.lgc_values.specs.Masks.{mask_of-members_of};

    ghost Value = { List ℕ };

    ghost view = { λ set. members_of N set.mask };

    ghost invariant = { λ set. IsSize N × (set.mask < 2 ^ N) };

    ghost inverse = { λ set. record { mask = mask_of set } };

    ghost inverse_ok = { λ a h i. record { mask = mask_of-members_of N a.mask h.1 i } };
}

impl<const N: usize> ValueSet<N> {
    /// The set without members.
    #[tactic(auto, using(crate::proofs::ValueLaws::empty_law))]
    pub fn empty() -> Self
        requires { IsSize N }
        ensures { result ≡ [] }
    {
        ValueSet { mask: 0 }
    }

    /// The set of all values.
    #[tactic(auto, using(crate::proofs::ValueLaws::full_law, crate::proofs::ValueLaws::full_below))]
    pub fn full() -> Self
        requires { IsSize N }
        ensures { result ≡ values_where N (λ _. true) }
    {
        ValueSet { mask: (1 << N) - 1 }
    }

    /// The set whose only member is `v`.
    #[tactic(auto, using(crate::proofs::ValueLaws::single_law, crate::proofs::ValueLaws::single_below))]
    pub fn single(v: u8) -> Self
        requires size { IsSize N }
        requires value { v < N }
        ensures { result ≡ v ∷ [] }
    {
        ValueSet { mask: 1 << v }
    }

    /// The set of a mask, which has the bit `2^v` for each member `v`.
    pub fn of_mask(mask: u16) -> Self
        requires size { IsSize N }
        requires mask { mask < 2 ^ N }
        ensures { result ≡ members_of N mask }
    {
        ValueSet { mask }
    }

    /// The nonempty set that stands in the row of a quantifier's table with this index, from 0.
    #[tactic(auto, using(crate::proofs::ValueLaws::some_member))]
    pub fn of_row(row: u32) -> Self
        requires size { IsSize N }
        requires row { row < 2 ^ N - 1 }
        ensures set { result ≡ set_of_row N row }
        ensures nonempty { result ≢ [] }
    {
        ValueSet {
            mask: row as u16 + 1,
        }
    }

    /// The set's mask. The further clauses tell what is true of each set.
    #[tactic(auto, using(crate::proofs::ValueLaws::mask_law, crate::proofs::ValueLaws::nonempty_law))]
    pub fn mask(self) -> u16
        ensures mask { result ≡ mask_of self.entry }
        ensures members { self.entry ≡ members_of N result }
        ensures below { result < 2 ^ N }
        ensures nonempty { self.entry ≢ [] → 1 ≤ result }
        ensures size { IsSize N }
    {
        self.mask
    }

    /// The number of truth values, which is above each member.
    #[tactic(auto, using(crate::proofs::ValueLaws::members_below))]
    pub fn bound(self) -> u8
        ensures bound { result ≡ N }
        ensures below { (v : ℕ) → has self.entry v ≡ true → v < N }
        ensures size { IsSize N }
    {
        let _mask = self.mask;
        N as u8
    }

    /// The set with the value `v` added.
    #[tactic(auto, using(crate::proofs::ValueLaws::with_law, crate::proofs::ValueLaws::with_below))]
    pub fn with(self, v: u8) -> Self
        requires { v < N }
        ensures { result ≡ values_where N (λ w. has self.entry w || w == v) }
    {
        ValueSet {
            mask: self.mask | 1 << v,
        }
    }

    /// The set with the value `v` taken away.
    #[tactic(auto, using(crate::proofs::ValueLaws::without_law, crate::proofs::ValueLaws::and_below))]
    pub fn without(self, v: u8) -> Self
        requires { v < N }
        ensures { result ≡ filter (λ w. not (w == v)) self.entry }
    {
        ValueSet {
            mask: self.mask & (((1 << N) - 1) ^ 1 << v),
        }
    }

    /// The values that are in either set.
    #[tactic(auto, using(crate::proofs::ValueLaws::union_law, std::proofs::lemmas::Nat::or_lt))]
    pub fn union(self, other: Self) -> Self
        ensures { result ≡ values_where N (λ w. has self.entry w || has other.entry w) }
    {
        ValueSet {
            mask: self.mask | other.mask,
        }
    }

    /// The values that are in both sets.
    #[tactic(auto, using(crate::proofs::ValueLaws::meet_law, crate::proofs::ValueLaws::and_below))]
    pub fn meet(self, other: Self) -> Self
        ensures { result ≡ values_where N (λ w. has self.entry w && has other.entry w) }
    {
        ValueSet {
            mask: self.mask & other.mask,
        }
    }

    /// The values below `N` that aren't in the set.
    #[tactic(auto, using(crate::proofs::ValueLaws::complement_law, crate::proofs::ValueLaws::complement_below))]
    pub fn complement(self) -> Self
        ensures { result ≡ values_where N (λ w. not (has self.entry w)) }
    {
        ValueSet {
            mask: ((1 << N) - 1) ^ self.mask,
        }
    }

    /// Whether `v` is a member.
    pub fn contains(self, v: u8) -> bool
        requires { v < N }
        ensures { result ≡ has self.entry v }
    {
        self.mask >> v & 1 == 1
    }

    /// Whether each member is one of the other set.
    #[tactic(auto, using(crate::proofs::ValueLaws::subset_law))]
    pub fn is_subset(self, other: Self) -> bool
        ensures { result ≡ list_all (has other.entry) self.entry }
    {
        self.mask & other.mask == self.mask
    }

    /// Whether the sets have a value in common.
    #[tactic(auto, using(crate::proofs::ValueLaws::meets_law))]
    pub fn meets(self, other: Self) -> bool
        ensures { result ≡ list_any (has self.entry) other.entry }
    {
        self.mask & other.mask != 0
    }

    /// Whether each member is one of some other set of the list.
    pub fn lies_in_some(self, others: &[Self]) -> bool
        ensures { result ≡ list_any (λ other. list_all (has other) self.entry) others.now }
    {
        for other in others {
            if self.is_subset(*other) {
                return true;
            }
        }
        false
    }

    /// Whether all values are members.
    #[tactic(auto, using(crate::proofs::ValueLaws::is_full_law))]
    pub fn is_full(self) -> bool
        ensures { IsTrue result ↔ (self.entry ≡ values_where N (λ _. true)) }
    {
        self.mask == (1 << N) - 1
    }

    /// Whether no value is a member.
    #[tactic(auto, using(crate::proofs::ValueLaws::is_empty_law))]
    pub fn is_empty(self) -> bool
        ensures { IsTrue result ↔ (self.entry ≡ []) }
    {
        self.mask == 0
    }

    /// The least member, and None exactly where the set is empty.
    #[tactic(auto, using(crate::proofs::ValueLaws::first_law))]
    pub fn first(self) -> Option<u8>
        ensures { Least N (has self.entry) result }
    {
        least_bit(self.mask, 0, N as u8)
    }

    /// The least value that isn't a member, and None exactly where the set is full.
    pub fn least_missing(self) -> Option<u8>
        ensures { Least N (λ w. not (has self.entry w)) result }
    {
        least_bit(((1 << N) - 1) ^ self.mask, 0, N as u8)
    }

    /// The least member above `v`, and None exactly where there is none.
    pub fn next_after(self, v: u8) -> Option<u8>
        requires { v < N }
        ensures { Least N (λ w. nat_lt v w && has self.entry w) result }
    {
        least_bit(self.mask, v + 1, N as u8)
    }
}

// The least value from `low` on, below `n`, whose bit is set.
fn least_bit(mask: u16, low: u8, n: u8) -> Option<u8>
    requires { n ≤ 16 }
    ensures { Least n (is_from low mask) result }
{
    for v in low..n {
        if mask >> v & 1 == 1 {
            return Some(v);
        }
    }
    None
}
