// The derivation of clauses.
//
// For each row outside the target there has to be a clause that is false there. Rows at which an earlier
// clause is false are skipped. That keeps the clauses few, and a new clause is none of those before: they
// are true at its row. As all clauses follow and one is false at each row outside the target, they are
// exact. At the end the covered clauses are taken out.
ghost use Rattle.std.specs.Prelude.{◌≡◌, ◌<◌, ℕ, false, IfOk, OnOk};
ghost use Rattle.lgc_derivation.specs.Tables.{all_hold_over};
ghost use Rattle.lgc_derivation.specs.Derived.{ArePrime, IsDerived};

use crate::PrimeClauses;
use crate::covering::{all_hold, take_out_covered};
use crate::rising::add_clause;
use lgc_values::{List, ValueSet};
use std::alloc::{AllocError, Global};

// Adds a prime clause that is false at a row, where the row is outside the target and no clause is false there.
fn falsify<const N: usize, T: PrimeClauses<N>>(
    alloc: Global,
    table: &T,
    clauses: &mut Vec<List<ValueSet<N>>>,
    row: u32,
) -> Result<(), AllocError>
    requires row { row < (T.plain table.now).count }
    requires prime { ArePrime (T.plain table.now) (T.form table.now) clauses.old.items }
    ensures prime { OnOk result (ArePrime (T.plain table.now) (T.form table.now) clauses.new.items) }
    ensures falsified { OnOk result ((T.plain table.now).target row ≡ false → all_hold_over (T.plain table.now) clauses.new.items row ≡ false) }
    ensures kept { OnOk result ((other : ℕ) → all_hold_over (T.plain table.now) clauses.old.items other ≡ false → all_hold_over (T.plain table.now) clauses.new.items other ≡ false) }
{
    if table.is_inside(row) || !all_hold(table, clauses, row) {
        return Ok(());
    }
    let clause = table.prime_clause(alloc, row)?;
    add_clause(clauses, clause)?;
    Ok(())
}

// Prime clauses, of which one is false at each row outside the target.
fn falsifying_clauses<const N: usize, T: PrimeClauses<N>>(
    alloc: Global,
    table: &T,
) -> Result<Vec<List<ValueSet<N>>>, AllocError>
    ensures prime { IfOk result (λ clauses. ArePrime (T.plain table.now) (T.form table.now) clauses.items) }
    ensures falsified { IfOk result (λ clauses. (row : ℕ) → row < (T.plain table.now).count → (T.plain table.now).target row ≡ false → all_hold_over (T.plain table.now) clauses.items row ≡ false) }
{
    let mut clauses = Vec::new(alloc);
    for row in 0..table.rows() {
        falsify(alloc, table, &mut clauses, row)?;
    }
    Ok(clauses)
}

/// The clauses of a table, exact and irredundant, in rising order. Each has the table's form.
pub fn derive_clauses<const N: usize, T: PrimeClauses<N>>(
    alloc: Global,
    table: &T,
) -> Result<Vec<List<ValueSet<N>>>, AllocError>
    ensures { IfOk result (λ clauses. IsDerived (T.plain table.now) (T.form table.now) clauses.items) }
{
    let mut clauses = falsifying_clauses(alloc, table)?;
    take_out_covered(table, &mut clauses);
    Ok(clauses)
}
