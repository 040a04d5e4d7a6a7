// Tables of rows, over which clauses are true or false.
ghost use Rattle.std.specs.Prelude.{◌≡◌, ◌<◌, ℕ, List, true, false, IfOk};
ghost use Rattle.lgc_derivation.specs.Parts.{IsWithin};
ghost use Rattle.lgc_derivation.specs.Tables.{PlainTable};
ghost use Rattle.lgc_derivation.specs.Derived.{IsPrime};

use lgc_values::{List, ValueSet};
use std::alloc::{AllocError, Global};

/// Rows, of which some are inside the target, and the truth of clauses at them. A clause is a list of
/// sets of truth values. Rows are counted from 0.
///
/// The law `monotone` says that a clause whose sets are smaller is true at no more rows.
pub trait Table<const N: usize> {
    ghost plain: { Self → PlainTable };

    /// The number of rows.
    fn rows(&self) -> u32
        ensures { result ≡ (plain self.now).count };

    /// Whether a row is inside the target, where all clauses have to be true.
    fn is_inside(&self, row: u32) -> bool
        requires { row < (plain self.now).count }
        ensures { result ≡ (plain self.now).target row };

    /// Whether a clause is true at a row.
    fn holds_at(&self, sets: &[ValueSet<N>], row: u32) -> bool
        requires { row < (plain self.now).count }
        ensures { result ≡ (plain self.now).holds sets.now row };

    ghost monotone: { (table : Self) (narrow wide : List (List ℕ)) (row : ℕ) → IsWithin narrow wide → (plain table).holds narrow row ≡ true → (plain table).holds wide row ≡ true };
}

/// A table that has, for each row outside its target, a prime clause that is false there.
///
/// A clause is prime if it is true at all rows of the target, and isn't without any one value of any one set.
/// All clauses that are made have the form `form`, which the derived clauses then have too. An implementer
/// makes a clause that is false at the row and true at all rows of the target, and calls [`crate::shrink`].
pub trait PrimeClauses<const N: usize>: Table<N> {
    ghost form: { Self → List (List ℕ) → Type 0 };

    /// A prime clause that is false at a row outside the target.
    fn prime_clause(&self, alloc: Global, row: u32) -> Result<List<ValueSet<N>>, AllocError>
        requires within { row < (Self.plain self.now).count }
        requires outside { (Self.plain self.now).target row ≡ false }
        ensures form { IfOk result (form self.now) }
        ensures prime { IfOk result (IsPrime (Self.plain self.now)) }
        ensures fails { IfOk result (λ sets. (Self.plain self.now).holds sets row ≡ false) };
}
