// The clause that is false at one set alone.
//
// Another set has a value that isn't in the set, or it lies in the set without one of its values.
ghost use Rattle.std.specs.Prelude.{◌≡◌, IfOk};
ghost use Rattle.lgc_quant_rules.specs.Quantifiers.{clause_against};

use lgc_values::ValueSet;
use std::alloc::{AllocError, Global};

// The clause that is true at each set but this one.
pub(crate) fn all_but_set<const N: usize>(
    alloc: Global,
    set: ValueSet<N>,
) -> Result<Vec<ValueSet<N>>, AllocError>
    ensures { IfOk result (λ sets. sets.items ≡ clause_against N set.entry) }
{
    let mut sets = Vec::new(alloc);
    sets.push(set.complement())?;
    for v in 0..set.bound() {
        if set.contains(v) {
            sets.push(set.without(v))?;
        }
    }
    Ok(sets)
}
