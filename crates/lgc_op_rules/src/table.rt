// The table of an operator at a sign: its rows, and the clauses that are false at one row.
ghost use Rattle.std.specs.Prelude.{◌≡◌, ◌<◌, ◌≤◌, ◌^◌, ℕ, length, false, slice_index_or, IfOk};
ghost use Rattle.lgc_values.specs.Values.{IsSize, has};
ghost use Rattle.lgc_values.specs.Logic.{operator_at, row_count, value_at};
ghost use Rattle.lgc_values.specs.declared.TheConstants.{MOST_ROWS, MOST_ARGUMENTS};
ghost use Rattle.lgc_clauses.specs.Rules.{clause_holds};
ghost use Rattle.lgc_op_rules.specs.Operators.{clause_against};
ghost use Rattle.lgc_op_rules.specs.Laws.{clause_holds_within};

use lgc_derivation::{PrimeClauses, Table, shrink};
use lgc_values::{List, Matrix, ValueSet, argument_at};
use std::alloc::{AllocError, Global};

/// An operator at a sign: for each row, whether the operator's value lies in the sign.
#[derive(Drop)]
pub(crate) struct OperatorTable<const N: usize> {
    inside: Vec<bool>,
    arity: u32,
    ghost size: { IsSize N },
    ghost narrow: { arity ≤ MOST_ARGUMENTS },
    ghost rows: { length inside.items ≡ N ^ arity },
    ghost short: { N ^ arity ≤ MOST_ROWS },
}

impl<const N: usize> OperatorTable<N> {
    /// The table of operator `op`, counted from 0, at a sign.
    pub(crate) fn new(
        alloc: Global,
        m: &Matrix<N>,
        op: u16,
        sign: ValueSet<N>,
    ) -> Result<OperatorTable<N>, AllocError>
        requires { op < length m.now.operators }
        ensures arity { IfOk result (λ table. table.arity ≡ (operator_at m.now op).arity) }
        ensures size { m.now.size ≡ N }
        ensures inside { IfOk result (λ table. (row : ℕ) → row < row_count m.now op → slice_index_or table.inside.items row false ≡ has sign.entry (value_at m.now op row)) }
    {
        let arity = arity_of(m, op);
        let mut inside = Vec::new(alloc);
        for row in 0..rows_of(m, op) {
            inside.push(sign.contains(m.apply(op, row)))?;
        }
        Ok(OperatorTable { inside, arity })
    }
}

impl<const N: usize> Table<N> for OperatorTable<N> {
    ghost plain = { λ table. record { count = length table.inside.items; target = λ row. slice_index_or table.inside.items row false; holds = clause_holds N } };

    fn rows(&self) -> u32 {
        self.inside.len() as u32
    }

    fn is_inside(&self, row: u32) -> bool {
        self.inside[row as usize]
    }

    fn holds_at(&self, sets: &[ValueSet<N>], row: u32) -> bool {
        let _rows = self.inside.len();
        some_argument_in(sets, row)
    }

    ghost monotone = { λ table narrow wide row within holds. clause_holds_within N narrow wide row within holds };
}

impl<const N: usize> PrimeClauses<N> for OperatorTable<N> {
    ghost form = { λ table sets. length sets ≡ table.arity };

    fn prime_clause(&self, alloc: Global, row: u32) -> Result<List<ValueSet<N>>, AllocError> {
        let mut sets = all_but_row(alloc, self.arity, row)?;
        shrink(self, &mut sets);
        Ok(List::of_vec(sets))
    }
}

// The number of arguments of an operator.
fn arity_of<const N: usize>(m: &Matrix<N>, op: u16) -> u32
    requires { op < length m.now.operators }
    ensures arity { result ≡ (operator_at m.now op).arity }
    ensures narrow { result ≤ MOST_ARGUMENTS }
    ensures short { N ^ result ≤ MOST_ROWS }
    ensures size { IsSize N }
    ensures same { m.now.size ≡ N }
{
    u32::from(m.operators()[op as usize].arity)
}

// The number of rows of an operator.
fn rows_of<const N: usize>(m: &Matrix<N>, op: u16) -> u32
    requires { op < length m.now.operators }
    ensures { result ≡ row_count m.now op }
{
    m.operators()[op as usize].table.len() as u32
}

// Whether some argument of the row with the index `row` lies in its set. The last argument is the last
// digit of the index, so the sets are looked at from the last on.
fn some_argument_in<const N: usize>(sets: &[ValueSet<N>], row: u32) -> bool
    requires { IsSize N }
    ensures { result ≡ clause_holds N sets.now row }
{
    let mut rest = row;
    for i in 0..sets.len() {
        if sets[sets.len() - 1 - i].contains((rest % N as u32) as u8) {
            return true;
        }
        rest /= N as u32;
    }
    false
}

// The clause that is false at the row with the index `row` alone.
fn all_but_row<const N: usize>(
    alloc: Global,
    arity: u32,
    row: u32,
) -> Result<Vec<ValueSet<N>>, AllocError>
    requires size { IsSize N }
    requires rows { N ^ arity ≤ MOST_ROWS }
    requires narrow { arity ≤ MOST_ARGUMENTS }
    ensures { IfOk result (λ sets. sets.items ≡ clause_against N arity row) }
{
    let mut sets = Vec::new(alloc);
    for j in 0..arity {
        sets.push(ValueSet::single(argument_at(N as u32, arity, row, j)).complement())?;
    }
    Ok(sets)
}
