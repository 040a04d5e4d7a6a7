// The rule of an operator at a sign.
ghost use Rattle.std.specs.Prelude.{◌≡◌, ◌<◌, length, IfOk};
ghost use Rattle.lgc_values.specs.Values.{IsSize};
ghost use Rattle.lgc_clauses.specs.Rules.{of_operator, Fits, IsRising};
ghost use Rattle.lgc_clauses.specs.Exactness.{IsExact};
ghost use Rattle.lgc_clauses.specs.Irredundance.{IsIrredundant};

use crate::table::OperatorTable;
use lgc_clauses::{Clause, OpRule};
use lgc_derivation::derive_clauses;
use lgc_values::{List, Matrix, ValueSet};
use std::alloc::{AllocError, Global};

// The clauses with these sets.
fn clauses_of<const N: usize>(
    alloc: Global,
    lists: Vec<List<ValueSet<N>>>,
) -> Result<Vec<Clause<N>>, AllocError>
    requires { IsSize N }
    ensures { IfOk result (λ clauses. clauses.items ≡ lists.entry.items) }
{
    let mut clauses = Vec::new(alloc);
    for sets in lists {
        clauses.push(Clause { sets })?;
    }
    Ok(clauses)
}

/// The rule for operator `op`, counted from 0, at a sign. It is exact and irredundant, and its clauses
/// rise by the lists of their masks.
///
/// At the full sign it has no clause. At the empty sign it has one clause, whose sets are all empty, since
/// every operator has a row.
pub fn operator_rule<const N: usize>(
    alloc: Global,
    m: &Matrix<N>,
    op: u16,
    sign: ValueSet<N>,
) -> Result<OpRule<N>, AllocError>
    requires { op < length m.now.operators }
    ensures operator { IfOk result (λ rule. rule.op ≡ op) }
    ensures sign { IfOk result (λ rule. rule.sign ≡ sign.entry) }
    ensures fits { IfOk result (λ rule. Fits m.now (of_operator rule)) }
    ensures exact { IfOk result (λ rule. IsExact m.now (of_operator rule)) }
    ensures irredundant { IfOk result (λ rule. IsIrredundant m.now (of_operator rule)) }
    ensures rising { IfOk result (λ rule. IsRising rule.clauses) }
{
    let table = OperatorTable::new(alloc, m, op, sign)?;
    let lists = derive_clauses(alloc, &table)?;
    let clauses = clauses_of(alloc, lists)?;
    Ok(OpRule {
        op,
        sign,
        clauses: List::of_vec(clauses),
    })
}
