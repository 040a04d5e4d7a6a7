// Quantifiers that an operator induces.
ghost use Rattle.std.specs.Prelude.{◌≡◌, ◌==◌, ◌&&◌, ◌<◌, ◌≤◌, length, position, All, IfSome};
ghost use Rattle.std.specs.Str.{bytes_eq};
ghost use Rattle.lgc_values.specs.declared.TheConstants.{MOST_VALUES};
ghost use Rattle.lgc_values.specs.Logic.{arguments_at};
ghost use Rattle.lgc_tokens.specs.Numbers.{number_of};
ghost use Rattle.lgc_spec.specs.Faults.{Gives, Passes};
ghost use Rattle.lgc_spec.specs.Words.{LiesIn, text_of};
ghost use Rattle.lgc_spec.specs.Folds.{HasRows, applied};
ghost use Rattle.lgc_spec.specs.Inductions.{width, holds, first_broken, broken, not_semilattice, semilattice_given, induced_given};

use crate::fault::{Kept, Law, NOT_SEMILATTICE, SpecFault, UNKNOWN_OPERATOR, fault_at};
use crate::mapping::argument_names;
use crate::operators::arity_of;
use crate::sets::{applied, folds};
use crate::words::text_of;
use lgc_parser::Word;
use lgc_values::{List, Name, Operator, argument_at};
use std::alloc::Global;

// How many values a law speaks of.
fn width(law: Law) -> u8
    ensures { result ≡ width law }
{
    match law {
        Law::Idempotent => 1,
        Law::Commutative => 2,
        Law::Associative => 3,
    }
}

// Whether a law holds of the values with this index.
fn holds(n: usize, table: &[u8], law: Law, index: u32) -> bool
    requires some { 2 ≤ n }
    requires few { n ≤ MOST_VALUES }
    requires rows { HasRows n 2 table.now }
    ensures { result ≡ holds law (applied n table.now) (arguments_at n (width law) index) }
{
    let size = n as u32;
    match law {
        Law::Idempotent => {
            let a = argument_at(size, 1, index, 0);
            applied(n, table, a, a) == a
        }
        Law::Commutative => {
            let a = argument_at(size, 2, index, 0);
            let b = argument_at(size, 2, index, 1);
            applied(n, table, a, b) == applied(n, table, b, a)
        }
        Law::Associative => {
            let a = argument_at(size, 3, index, 0);
            let b = argument_at(size, 3, index, 1);
            let c = argument_at(size, 3, index, 2);
            let left = applied(n, table, applied(n, table, a, b), c);
            left == applied(n, table, a, applied(n, table, b, c))
        }
    }
}

// The index of the least values of which a law doesn't hold.
fn first_broken(n: usize, table: &[u8], law: Law) -> Option<u32>
    requires some { 2 ≤ n }
    requires few { n ≤ MOST_VALUES }
    requires rows { HasRows n 2 table.now }
    ensures { result ≡ first_broken law n (applied n table.now) }
{
    for index in 0..(n as u32).pow(u32::from(width(law))) {
        if !holds(n, table, law, index) {
            return Some(index);
        }
    }
    None
}

// That a law holds. The operator's name is at `at`.
fn check_law(
    alloc: Global,
    names: &[Name],
    table: &[u8],
    at: u32,
    law: Law,
) -> Result<(), SpecFault>
    requires some { 2 ≤ length names.now }
    requires few { length names.now ≤ MOST_VALUES }
    requires rows { HasRows (length names.now) 2 table.now }
    ensures { Passes result (broken names.now (applied (length names.now) table.now) at law) }
{
    if let Some(index) = first_broken(names.len(), table, law) {
        return Err(SpecFault::Fault {
            number: NOT_SEMILATTICE,
            offset: at,
            kept: Kept::Broken(law, argument_names(alloc, names, width(law), index)?),
        });
    }
    Ok(())
}

// That all laws hold.
fn check_semilattice(alloc: Global, names: &[Name], table: &[u8], at: u32) -> Result<(), SpecFault>
    requires some { 2 ≤ length names.now }
    requires few { length names.now ≤ MOST_VALUES }
    requires rows { HasRows (length names.now) 2 table.now }
    ensures { Passes result (not_semilattice names.now (applied (length names.now) table.now) at) }
{
    check_law(alloc, names, table, at, Law::Idempotent)?;
    check_law(alloc, names, table, at, Law::Commutative)?;
    check_law(alloc, names, table, at, Law::Associative)
}

// The table that the table of an operator gives.
fn semilattice_given(
    alloc: Global,
    names: &[Name],
    table: &[u8],
    at: u32,
) -> Result<List<u8>, SpecFault>
    requires some { 2 ≤ length names.now }
    requires few { length names.now ≤ MOST_VALUES }
    requires rows { HasRows (length names.now) 2 table.now }
    ensures { Gives (λ table. table) result (semilattice_given names.now (applied (length names.now) table.now) at) }
{
    check_semilattice(alloc, names, table, at)?;
    Ok(folds(alloc, names.len(), table)?)
}

// Whether a word writes the arity 2.
fn is_binary(bytes: &[u8], arity: &Word) -> bool
    requires { LiesIn (length bytes.now) arity.now }
    ensures { result ≡ (number_of (text_of bytes.now arity.now) == 2) }
{
    matches!(arity_of(text_of(bytes, arity)), Some(2))
}

// The place of the operator with this name and two arguments.
fn find_binary(operators: &[Operator], name: &[u8]) -> Option<usize>
    ensures place { result ≡ position (λ o. bytes_eq o.name name.now && (o.arity == 2)) operators.now }
    ensures below { IfSome result (λ place. place < length operators.now) }
{
    operators.iter().position(|operator| operator.name.bytes() == name && operator.arity == 2)
}

/// The table that the operator with a name and an arity induces.
pub(crate) fn induced_given(
    alloc: Global,
    bytes: &[u8],
    names: &[Name],
    operators: &[Operator],
    name: &Word,
    arity: &Word,
) -> Result<List<u8>, SpecFault>
    requires name { LiesIn (length bytes.now) name.now }
    requires arity { LiesIn (length bytes.now) arity.now }
    requires some { 2 ≤ length names.now }
    requires few { length names.now ≤ MOST_VALUES }
    requires tables { All (λ o. HasRows (length names.now) o.arity o.table) operators.now }
    ensures { Gives (λ table. table) result (induced_given bytes.now names.now operators.now name.now arity.now) }
{
    if !is_binary(bytes, arity) {
        return Err(fault_at(UNKNOWN_OPERATOR, name.at));
    }
    match find_binary(operators, text_of(bytes, name)) {
        Some(place) => semilattice_given(alloc, names, operators[place].table.items(), name.at),
        None => Err(fault_at(UNKNOWN_OPERATOR, name.at)),
    }
}
