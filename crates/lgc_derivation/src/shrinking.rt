// Clauses from which values are taken as long as they follow.
//
// A clause follows if it is true at all rows of the target. One with smaller sets is true at fewer rows,
// so a value that can't be taken from a clause can't be taken later, when other values are gone. One pass
// over all values of all sets therefore makes a clause prime, in whatever order it goes.
//
// For each value the rows are looked at until one shows that the clause doesn't follow without it: for
// sets with p values in all, p times the number of rows at most.
ghost use Rattle.std.specs.Prelude.{◌≡◌, ◌<◌, ◌==◌, ℕ, length, not, filter, MatchOption};
ghost use Rattle.lgc_derivation.specs.Parts.{IsWithin};
ghost use Rattle.lgc_derivation.specs.Derived.{Follows, RefutesAt, IsSettled, IsPrime};

use crate::Table;
use lgc_values::ValueSet;

// A row of the target at which the clause is false.
fn refuting_row<const N: usize, T: Table<N>>(table: &T, sets: &[ValueSet<N>]) -> Option<u32>
    ensures { MatchOption result (Follows (T.plain table.now) sets.now) (RefutesAt (T.plain table.now) sets.now) }
{
    for row in 0..table.rows() {
        if table.is_inside(row) && !table.holds_at(sets, row) {
            return Some(row);
        }
    }
    None
}

// Takes value `v` from set `j` where the clause then still follows.
#[tactic(auto, using(crate::proofs::Within::within_refl))]
fn try_drop<const N: usize, T: Table<N>>(table: &T, sets: &mut [ValueSet<N>], j: usize, v: u8)
    requires follows { Follows (T.plain table.now) sets.old }
    requires part { j < length sets.old }
    requires value { v < N }
    ensures within { IsWithin sets.new sets.old }
    ensures follows { Follows (T.plain table.now) sets.new }
    ensures settled { IsSettled (T.plain table.now) sets.new j v }
{
    let old = sets[j];
    if !old.contains(v) {
        return;
    }
    sets[j] = old.without(v);
    if let Some(_row) = refuting_row(table, sets) {
        sets[j] = old;
    }
}

// Takes each value from set `j` without which the clause still follows.
#[tactic(auto, using(crate::proofs::Within::within_refl))]
fn shrink_set<const N: usize, T: Table<N>>(table: &T, sets: &mut [ValueSet<N>], j: usize)
    requires follows { Follows (T.plain table.now) sets.old }
    requires part { j < length sets.old }
    ensures within { IsWithin sets.new sets.old }
    ensures follows { Follows (T.plain table.now) sets.new }
    ensures settled { (v : ℕ) → IsSettled (T.plain table.now) sets.new j v }
{
    for v in 0..sets[j].bound() {
        try_drop(table, sets, j, v);
    }
}

/// Makes a clause prime that is true at all rows of the target: takes each value from its sets
/// without which it still is.
#[tactic(auto, using(crate::proofs::Within::within_refl))]
pub fn shrink<const N: usize, T: Table<N>>(table: &T, sets: &mut [ValueSet<N>])
    requires { Follows (T.plain table.now) sets.old }
    ensures within { IsWithin sets.new sets.old }
    ensures prime { IsPrime (T.plain table.now) sets.new }
{
    for j in 0..sets.len() {
        shrink_set(table, sets, j);
    }
}
