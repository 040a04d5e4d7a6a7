// Tables of quantifiers: a value for each nonempty set of values, which is given by its mask.
ghost use Rattle.std.specs.Prelude.{◌≡◌, ◌==◌, ◌<◌, ◌≤◌, ◌-◌, ◌^◌, length, IfOk};
ghost use Rattle.std.specs.Int.{bit_at};
ghost use Rattle.lgc_values.specs.declared.TheConstants.{MOST_VALUES};
ghost use Rattle.lgc_values.specs.Values.{members_of};
ghost use Rattle.lgc_spec.specs.Words.{names_of};
ghost use Rattle.lgc_spec.specs.Sets.{table_over};
ghost use Rattle.lgc_spec.specs.Folds.{HasRows, applied, folded};

use lgc_values::{List, Name};
use std::alloc::{AllocError, Global};

/// Whether a value is in the set with this mask.
pub(crate) fn has(mask: u16, value: u8) -> bool
    requires { value < MOST_VALUES }
    ensures { result ≡ (bit_at mask value == 1) }
{
    mask >> value & 1 == 1
}

/// How many nonempty sets `n` values have.
pub(crate) fn set_count(n: usize) -> u16
    requires { n ≤ MOST_VALUES }
    ensures { result ≡ 2 ^ n - 1 }
{
    (1 << n) - 1
}

/// The names of a set's members.
pub(crate) fn member_names(
    alloc: Global,
    names: &[Name],
    mask: u16,
) -> Result<List<Name>, AllocError>
    requires { length names.now ≤ MOST_VALUES }
    ensures { IfOk result (λ found. found ≡ names_of names.now (members_of (length names.now) mask)) }
{
    let mut found = List::new(alloc);
    for (value, name) in names.iter().enumerate() {
        if has(mask, value as u8) {
            found.push(Name::of_bytes(alloc, name.bytes())?)?;
        }
    }
    Ok(found)
}

/// The value of a table at two arguments.
pub(crate) fn applied(n: usize, table: &[u8], a: u8, b: u8) -> u8
    requires few { n ≤ MOST_VALUES }
    requires rows { HasRows n 2 table.now }
    requires a { a < n }
    requires b { b < n }
    ensures value { result ≡ applied n table.now a b }
    ensures below { result < n }
{
    table[usize::from(a) * n + usize::from(b)]
}

// The values of a set, joined from the first on.
fn folded(n: usize, table: &[u8], mask: u16) -> u8
    requires few { n ≤ MOST_VALUES }
    requires rows { HasRows n 2 table.now }
    ensures { result ≡ folded (applied n table.now) (members_of n mask) }
{
    let mut joined = None;
    for value in 0..n as u8 {
        if has(mask, value) {
            joined = match joined {
                Some(before) => Some(applied(n, table, before, value)),
                None => Some(value),
            };
        }
    }
    joined.unwrap_or(0)
}

/// The folds of a table of two arguments, over each set.
pub(crate) fn folds(alloc: Global, n: usize, table: &[u8]) -> Result<List<u8>, AllocError>
    requires few { n ≤ MOST_VALUES }
    requires rows { HasRows n 2 table.now }
    ensures { IfOk result (λ values. values ≡ table_over n (folded (applied n table.now))) }
{
    let mut values = List::new(alloc);
    for index in 0..set_count(n) {
        values.push(folded(n, table, index + 1))?;
    }
    Ok(values)
}
