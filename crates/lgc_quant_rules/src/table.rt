// The table of a quantifier at a sign: its rows, and the prime clauses that are false at one row.
ghost use Rattle.std.specs.Prelude.{◌≡◌, ◌≢◌, ◌<◌, ◌≤◌, ◌-◌, ◌^◌, ◌+◌, ℕ, [], length, true, false, slice_index_or, IfOk};
ghost use Rattle.std.specs.List.{list_all, list_any};
ghost use Rattle.lgc_values.specs.Values.{IsSize, has, set_of_row};
ghost use Rattle.lgc_values.specs.Logic.{value_over};
ghost use Rattle.lgc_clauses.specs.Rules.{holds_over};
ghost use Rattle.lgc_quant_rules.specs.SetOrder.{IsOrderedClause};
ghost use Rattle.lgc_quant_rules.specs.Laws.{holds_over_within};

use crate::order::in_order;
use crate::start::all_but_set;
use lgc_derivation::{PrimeClauses, Table, shrink};
use lgc_values::{List, Matrix, ValueSet};
use std::alloc::{AllocError, Global};

/// A quantifier at a sign: for each nonempty set, whether the quantifier's value lies in the sign. The set
/// stands at its mask less 1.
#[derive(Drop)]
pub(crate) struct QuantifierTable<const N: usize> {
    inside: Vec<bool>,
    ghost size: { IsSize N },
    ghost rows: { length inside.items ≡ 2 ^ N - 1 },
}

impl<const N: usize> QuantifierTable<N> {
    /// The table of quantifier `q`, counted from 0, at a sign.
    pub(crate) fn new(
        alloc: Global,
        m: &Matrix<N>,
        q: u16,
        sign: ValueSet<N>,
    ) -> Result<QuantifierTable<N>, AllocError>
        requires { q < length m.now.quantifiers }
        ensures size { m.now.size ≡ N }
        ensures inside { IfOk result (λ table. (row : ℕ) → row < 2 ^ N - 1 → slice_index_or table.inside.items row false ≡ has sign.entry (value_over m.now q (set_of_row N row))) }
    {
        let mut inside = Vec::new(alloc);
        for row in 0..row_count(m) {
            inside.push(sign.contains(m.distribute(q, ValueSet::of_row(row))))?;
        }
        Ok(QuantifierTable { inside })
    }
}

impl<const N: usize> Table<N> for QuantifierTable<N> {
    ghost plain = { λ table. record { count = length table.inside.items; target = λ row. slice_index_or table.inside.items row false; holds = λ sets row. holds_over sets (set_of_row N row) } };

    fn rows(&self) -> u32 {
        self.inside.len() as u32
    }

    fn is_inside(&self, row: u32) -> bool {
        self.inside[row as usize]
    }

    fn holds_at(&self, sets: &[ValueSet<N>], row: u32) -> bool {
        let _rows = self.inside.len();
        is_true_over(sets, ValueSet::of_row(row))
    }

    ghost monotone = { λ table narrow wide row within holds. holds_over_within narrow wide (set_of_row N row) within holds };
}

impl<const N: usize> PrimeClauses<N> for QuantifierTable<N> {
    ghost form = { λ table sets. IsOrderedClause sets };

    fn prime_clause(&self, alloc: Global, row: u32) -> Result<List<ValueSet<N>>, AllocError> {
        let _rows = self.inside.len();
        let mut sets = all_but_set(alloc, ValueSet::of_row(row))?;
        shrink(self, &mut sets);
        Ok(List::of_vec(in_order(alloc, &sets)?))
    }
}

// The number of nonempty sets.
fn row_count<const N: usize>(m: &Matrix<N>) -> u32
    ensures rows { result ≡ 2 ^ N - 1 }
    ensures size { m.now.size ≡ N }
    ensures sized { IsSize N }
{
    let _names = m.names();
    (1 << N) - 1
}

// Whether a clause, given by its `some` set and then its `all` sets, is true at a set of values.
fn is_true_over<const N: usize>(sets: &[ValueSet<N>], values: ValueSet<N>) -> bool
    ensures { result ≡ holds_over sets.now values.entry }
{
    !sets.is_empty() && (sets[0].meets(values) || values.lies_in_some(&sets[1..]))
}
