// Clauses that the others cover, which are taken out.
//
// A clause is covered if wherever it is false another one is. Without it the clauses are all true where
// they were. A clause that isn't covered is the only one that is false at some row, and stays so when
// others are taken out. So one pass is enough. That no value can be taken from a clause doesn't depend on
// the other clauses: that is why covered clauses can be taken out last.
//
// It looks at each row for each clause, and at the other clauses where that clause is false.
ghost use Rattle.std.specs.Prelude.{◌≡◌, ◌<◌, ℕ, length, All, Contains, MatchOption};
ghost use Rattle.std.specs.List.{remove};
ghost use Rattle.lgc_clauses.specs.Rules.{IsRising};
ghost use Rattle.lgc_derivation.specs.Tables.{all_hold_over};
ghost use Rattle.lgc_derivation.specs.Derived.{IsCovered, NeedsAt};

use crate::Table;
use lgc_values::{List, ValueSet};

// Whether every clause is true at a row.
pub(crate) fn all_hold<const N: usize, T: Table<N>>(
    table: &T,
    clauses: &[List<ValueSet<N>>],
    row: u32,
) -> bool
    requires { row < (T.plain table.now).count }
    ensures { result ≡ all_hold_over (T.plain table.now) clauses.now row }
{
    for clause in clauses {
        if !table.holds_at(clause.items(), row) {
            return false;
        }
    }
    true
}

// Whether every clause but clause `i` is true at a row.
fn others_hold<const N: usize, T: Table<N>>(
    table: &T,
    clauses: &[List<ValueSet<N>>],
    i: usize,
    row: u32,
) -> bool
    requires row { row < (T.plain table.now).count }
    requires within { i < length clauses.now }
    ensures { result ≡ all_hold_over (T.plain table.now) (remove clauses.now i) row }
{
    all_hold(table, &clauses[..i], row) && all_hold(table, &clauses[i + 1..], row)
}

// A row at which clause `i` is false and each other clause is true.
fn needing_row<const N: usize, T: Table<N>>(
    table: &T,
    clauses: &[List<ValueSet<N>>],
    i: usize,
) -> Option<u32>
    requires { i < length clauses.now }
    ensures { MatchOption result (IsCovered (T.plain table.now) clauses.now i) (NeedsAt (T.plain table.now) clauses.now i) }
{
    let clause = &clauses[i];
    for row in 0..table.rows() {
        if !table.holds_at(clause.items(), row) && others_hold(table, clauses, i, row) {
            return Some(row);
        }
    }
    None
}

// Takes out each clause that the others cover: wherever it is false, another one is.
pub(crate) fn take_out_covered<const N: usize, T: Table<N>>(
    table: &T,
    clauses: &mut Vec<List<ValueSet<N>>>,
)
    requires { IsRising clauses.old.items }
    ensures kept { All (Contains clauses.old.items) clauses.new.items }
    ensures same { (row : ℕ) → row < (T.plain table.now).count → all_hold_over (T.plain table.now) clauses.new.items row ≡ all_hold_over (T.plain table.now) clauses.old.items row }
    ensures needed { (i : ℕ) → i < length clauses.new.items → (row : ℕ) × NeedsAt (T.plain table.now) clauses.new.items i row }
    ensures rising { IsRising clauses.new.items }
{
    let mut i = 0;
    while i < clauses.len() {
        match needing_row(table, clauses, i) {
            Some(_row) => i += 1,
            None => {
                clauses.remove(i);
            }
        }
    }
}
