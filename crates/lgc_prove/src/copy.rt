// Copies of rules.
ghost use Rattle.std.specs.Prelude.{◌≡◌, IfOk};

use lgc_clauses::{Clause, OpRule};
use lgc_values::List;
use std::alloc::{AllocError, Global};

// A copy of a rule.
pub(crate) fn copy_rule<const N: usize>(
    alloc: Global,
    rule: &OpRule<N>,
) -> Result<OpRule<N>, AllocError>
    ensures { IfOk result (λ copy. copy ≡ rule.now) }
{
    let mut clauses = List::new(alloc);
    for clause in rule.clauses.items() {
        clauses.push(copy_clause(alloc, clause)?)?;
    }
    Ok(OpRule {
        op: rule.op,
        sign: rule.sign,
        clauses,
    })
}

fn copy_clause<const N: usize>(alloc: Global, clause: &Clause<N>) -> Result<Clause<N>, AllocError>
    ensures { IfOk result (λ copy. copy ≡ clause.now) }
{
    let sets = Vec::from_slice(alloc, clause.sets.items())?;
    Ok(Clause {
        sets: List::of_vec(sets),
    })
}
