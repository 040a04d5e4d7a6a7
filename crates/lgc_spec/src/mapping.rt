// Operators by mapping: a row for each tuple of arguments, in any order.
ghost use Rattle.std.specs.Prelude.{◌≡◌, ◌==◌, ◌<◌, ◌≤◌, ◌^◌, ◌++◌, ◌∷◌, [], ℕ, length, map, replicate, All, IfOk, OnOk, position};
ghost use Rattle.lgc_values.specs.declared.TheConstants.{MOST_VALUES, MOST_ROWS, MOST_ARGUMENTS};
ghost use Rattle.lgc_values.specs.Logic.{arguments_at};
ghost use Rattle.lgc_parser.specs.TreeWords.{RowHas};
ghost use Rattle.lgc_spec.specs.Faults.{Gives, Passes, keeping};
ghost use Rattle.lgc_spec.specs.InOrder.{first_fault};
ghost use Rattle.lgc_spec.specs.Words.{LiesIn, value_of, names_of};
ghost use Rattle.lgc_spec.specs.Mappings.{arguments_of, row_fault, mapping_given};
ghost use Rattle.lgc_spec.specs.Rows.{width_fault, index_of, TellsRows, FirstMark};

use crate::fault::{DUPLICATE_ROW, MISSING_ROW, ROW_WIDTH, SpecFault, fault_at, keeping};
use crate::words::{check_known, value_of};
use lgc_parser::{Row, Word};
use lgc_values::{List, Name, argument_at};
use std::alloc::{AllocError, Global};
use std::slice;

/// What stands in a table at a row that isn't told yet. No logic has so many values.
const ABSENT: u8 = u8::MAX;

// The number of a row's arguments, and that its words name values.
fn check_row(bytes: &[u8], names: &[Name], arity: u8, row: &Row) -> Result<(), SpecFault>
    requires { RowHas (LiesIn (length bytes.now)) row.now }
    ensures { Passes result (width_fault bytes.now names.now arity row.now) }
{
    if row.arguments.len() != usize::from(arity) {
        return Err(fault_at(ROW_WIDTH, row.at));
    }
    check_known(bytes, names, row.arguments.items())?;
    check_known(bytes, names, slice::from_ref(&row.value))
}

// The index of a tuple of arguments: its first one is the most significant digit.
fn row_index(bytes: &[u8], names: &[Name], arguments: &[Word]) -> usize
    requires words { All (LiesIn (length bytes.now)) arguments.now }
    requires some { 0 < length names.now }
    requires few { length names.now ≤ MOST_VALUES }
    requires narrow { length arguments.now ≤ MOST_ARGUMENTS }
    ensures index { result ≡ index_of (length names.now) (map (value_of bytes.now names.now) arguments.now) }
    ensures below { result < length names.now ^ length arguments.now }
{
    let mut index = 0;
    for word in arguments {
        index = index * names.len() + usize::from(value_of(bytes, names, word));
    }
    index
}

// Puts the results of the rows in their places.
fn put_rows(
    bytes: &[u8],
    names: &[Name],
    arity: u8,
    rows: &[Row],
    table: &mut [u8],
) -> Result<(), SpecFault>
    requires rows { All (RowHas (LiesIn (length bytes.now))) rows.now }
    requires some { 0 < length names.now }
    requires few { length names.now ≤ MOST_VALUES }
    requires narrow { arity ≤ MOST_ARGUMENTS }
    requires empty { table.old ≡ replicate (length names.now ^ arity) ABSENT }
    ensures fault { Passes result (first_fault (row_fault bytes.now names.now arity) rows.now) }
    ensures rows { OnOk result (TellsRows bytes.now names.now arity rows.now table.new) }
{
    for row in rows {
        check_row(bytes, names, arity, row)?;
        let index = row_index(bytes, names, row.arguments.items());
        if table[index] != ABSENT {
            return Err(fault_at(DUPLICATE_ROW, row.at));
        }
        table[index] = value_of(bytes, names, &row.value);
    }
    Ok(())
}

/// The names of the arguments of a row, given by its index.
pub(crate) fn argument_names(
    alloc: Global,
    names: &[Name],
    arity: u8,
    index: u32,
) -> Result<List<Name>, AllocError>
    requires some { 2 ≤ length names.now }
    requires few { length names.now ≤ MOST_VALUES }
    requires short { length names.now ^ arity ≤ MOST_ROWS }
    ensures { IfOk result (λ found. found ≡ names_of names.now (arguments_at (length names.now) arity index)) }
{
    let mut found = List::new(alloc);
    for j in 0..u32::from(arity) {
        let value = argument_at(names.len() as u32, u32::from(arity), index, j);
        found.push(Name::of_bytes(alloc, names[usize::from(value)].bytes())?)?;
    }
    Ok(found)
}

fn first_absent(table: &[u8]) -> Option<usize>
    ensures { FirstMark table.now result }
{
    for (index, value) in table.iter().enumerate() {
        if *value == ABSENT {
            return Some(index);
        }
    }
    None
}

/// The table of a mapping, whose closing bracket is at `close`.
pub(crate) fn mapping_given(
    alloc: Global,
    bytes: &[u8],
    names: &[Name],
    arity: u8,
    rows: &[Row],
    close: u32,
) -> Result<List<u8>, SpecFault>
    requires rows { All (RowHas (LiesIn (length bytes.now))) rows.now }
    requires some { 2 ≤ length names.now }
    requires few { length names.now ≤ MOST_VALUES }
    requires narrow { arity ≤ MOST_ARGUMENTS }
    requires short { length names.now ^ arity ≤ MOST_ROWS }
    ensures { Gives (λ table. table) result (mapping_given bytes.now names.now arity rows.now close) }
{
    let count = names.len().pow(u32::from(arity));
    let mut table = vec![in alloc; ABSENT; count]?;
    put_rows(bytes, names, arity, rows, &mut table)?;
    if let Some(index) = first_absent(&table) {
        let arguments = argument_names(alloc, names, arity, index as u32)?;
        return Err(keeping(MISSING_ROW, close, arguments));
    }
    Ok(List::of_vec(table))
}
