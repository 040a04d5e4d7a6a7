// Clauses over a list of atoms.
ghost use Rattle.std.specs.Prelude.{◌≡◌, ◌<◌, ◌==◌, ℕ, List, false, IsFalse, IfOk};
ghost use Rattle.std.specs.Int.{bit_at};
ghost use Rattle.lgc_clause_sets.specs.AtomClauses as clauses;
ghost use Rattle.lgc_clause_sets.specs.Marks.{has_bit, IsMark};
ghost use Rattle.lgc_sequents.specs.Sequents.{has_all};

use lgc_values::{List, ValueSet};
use std::alloc::{AllocError, Global};
use std::marker::Model;

/// A clause over a list of atoms, seen as the row of its sets: one for each atom, empty where the clause doesn't speak of the atom.
///
/// Its mark has a bit for each place at which a set with members stands. A clause that lacks no bit of another one's may be subsumed by it, and
/// any other isn't, so most pairs are told apart without a look at their sets.
#[derive(Debug, Drop)]
pub struct ClauseRow<const N: usize> {
    sets: List<ValueSet<N>>,
    mark: u64,
}

impl<const N: usize> Model for ClauseRow<N> {
    ghost use Rattle.std.specs.Prelude.{List, ℕ};
    ghost use Rattle.lgc_clause_sets.specs.Marks.{IsMark};

    ghost Value = { List (List ℕ) };

    ghost view = { λ row. row.sets };

    ghost invariant = { λ row. IsMark row.sets row.mark };
}

impl<const N: usize> ClauseRow<N> {
    /// The clause with these sets.
    pub fn new(sets: List<ValueSet<N>>) -> Self
        ensures { result ≡ sets.entry }
    {
        let mark = mark_of(sets.items());
        ClauseRow { sets, mark }
    }

    /// The sets, one for each atom.
    pub fn sets(&self) -> &[ValueSet<N>]
        ensures { result.now ≡ self.now }
    {
        self.sets.items()
    }

    /// Whether some atom has all truth values. Such a clause is always true.
    pub fn has_full(&self) -> bool
        ensures { result ≡ clauses.has_full N self.now }
    {
        some_full(self.sets.items())
    }

    /// Whether each set lies in the other clause's set of the same atom. The other clause is then true where this one is.
    pub fn subsumes(&self, other: &Self) -> bool
        ensures { result ≡ clauses.subsumes self.now other.now }
    {
        may_subsume(self.mark, other.mark) && lie_in(self.sets.items(), other.sets.items())
    }

    /// The clause with both clauses' values of each atom. It is true where one of them is.
    pub fn joined(&self, alloc: Global, other: &Self) -> Result<Self, AllocError>
        ensures { IfOk result (λ both. both ≡ clauses.joined N self.now other.now) }
    {
        let sets = unions(alloc, self.sets.items(), other.sets.items())?;
        Ok(ClauseRow::new(sets))
    }
}

// The mark of a clause with these sets.
fn mark_of<const N: usize>(sets: &[ValueSet<N>]) -> u64
    ensures { IsMark sets.now result }
{
    let mut mark = 0;
    for (place, set) in sets.iter().enumerate() {
        mark |= bit_of(*set, place);
    }
    mark
}

// The bit of a set in a mark, where it stands at a place.
#[tactic(auto, using(crate::proofs::MarkLaws::bit_of_empty, crate::proofs::MarkLaws::bit_of_some))]
fn bit_of<const N: usize>(set: ValueSet<N>, place: usize) -> u64
    ensures { (bit : ℕ) → bit < 64 → (bit_at result bit == 1) ≡ has_bit bit place set.entry }
{
    if set.is_empty() { 0 } else { 1 << (place % 64) }
}

// Whether a clause with a mark may subsume one with another mark: it doesn't if the other lacks a bit.
fn may_subsume(mark: u64, other: u64) -> bool
    ensures { IsFalse result → (a b : List (List ℕ)) → IsMark a mark → IsMark b other → clauses.subsumes a b ≡ false }
{
    mark & other == mark
}

// Whether some set has all values.
fn some_full<const N: usize>(sets: &[ValueSet<N>]) -> bool
    ensures { result ≡ clauses.has_full N sets.now }
{
    for set in sets {
        if is_full(*set) {
            return true;
        }
    }
    false
}

/// Whether each truth value is a member.
pub fn is_full<const N: usize>(set: ValueSet<N>) -> bool
    ensures { result ≡ has_all N set.entry }
{
    set.complement().is_empty()
}

// Whether each set lies in the other one at its place.
#[tactic(auto, using(crate::proofs::Walking::walking_rules))]
fn lie_in<const N: usize>(sets: &[ValueSet<N>], others: &[ValueSet<N>]) -> bool
    ensures { result ≡ clauses.subsumes sets.now others.now }
{
    if sets.len() != others.len() {
        return false;
    }
    for i in 0..sets.len() {
        if !sets[i].is_subset(others[i]) {
            return false;
        }
    }
    true
}

// The unions of sets that stand at the same places, and the rest where there are more of one kind.
#[tactic(auto, using(crate::proofs::Walking::walking_rules))]
fn unions<const N: usize>(
    alloc: Global,
    sets: &[ValueSet<N>],
    others: &[ValueSet<N>],
) -> Result<List<ValueSet<N>>, AllocError>
    ensures { IfOk result (λ both. both ≡ clauses.joined N sets.now others.now) }
{
    let common = sets.len().min(others.len());
    let mut made = Vec::with_capacity(alloc, sets.len().max(others.len()))?;
    for i in 0..common {
        made.push(sets[i].union(others[i]))?;
    }
    made.extend_from_slice(&sets[common..])?;
    made.extend_from_slice(&others[common..])?;
    Ok(List::of_vec(made))
}
