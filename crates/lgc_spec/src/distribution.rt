// Quantifiers by mapping: a row for each nonempty set of values, in any order.
ghost use Rattle.std.specs.Prelude.{◌≡◌, ◌==◌, ◌<◌, ◌≤◌, length, find, All, IfOk, Ok};
ghost use Rattle.std.specs.List.{AllZip};
ghost use Rattle.lgc_values.specs.declared.TheConstants.{MOST_VALUES};
ghost use Rattle.lgc_parser.specs.TreeWords.{RowHas};
ghost use Rattle.lgc_spec.specs.Faults.{Gives, Passes, unless};
ghost use Rattle.lgc_spec.specs.InOrder.{first_fault};
ghost use Rattle.lgc_spec.specs.Words.{LiesIn};
ghost use Rattle.lgc_spec.specs.Distributions.{own_fault, set_fault, missing_set, distribution_given, result_over};
ghost use Rattle.lgc_spec.specs.Sets.{table_over};
ghost use Rattle.lgc_spec.specs.ToldSets.{Tells};

use crate::fault::{
    DUPLICATE_DISTRIBUTION, EMPTY_DISTRIBUTION, Kept, MISSING_DISTRIBUTION, SpecFault, fault_at,
};
use crate::sets::{member_names, set_count};
use crate::values::mask_named;
use crate::words::{check_known, value_of};
use lgc_parser::Row;
use lgc_values::{List, Name};
use std::alloc::Global;
use std::slice;

/// A row that was read: its set, given by its mask, and the result.
#[derive(Clone, Copy, Debug)]
pub(crate) struct Told {
    pub(crate) mask: u16,
    pub(crate) value: u8,
}

// That a row's set isn't empty, and that its words name values.
fn check_row(bytes: &[u8], names: &[Name], row: &Row) -> Result<(), SpecFault>
    requires { RowHas (LiesIn (length bytes.now)) row.now }
    ensures { Passes result (own_fault bytes.now names.now row.now) }
{
    if row.arguments.len() == 0 {
        return Err(fault_at(EMPTY_DISTRIBUTION, row.at));
    }
    check_known(bytes, names, row.arguments.items())?;
    check_known(bytes, names, slice::from_ref(&row.value))
}

// The first row with this set.
fn row_over(rows: &[Told], mask: u16) -> Option<Told>
    ensures { result ≡ find (λ t. t.mask == mask) rows.now }
{
    rows.iter().copied().find(|row| row.mask == mask)
}

// The rows that are read.
fn told_rows(
    alloc: Global,
    bytes: &[u8],
    names: &[Name],
    rows: &[Row],
) -> Result<Vec<Told>, SpecFault>
    requires rows { All (RowHas (LiesIn (length bytes.now))) rows.now }
    requires some { 0 < length names.now }
    requires few { length names.now ≤ MOST_VALUES }
    ensures fault { Gives (λ _. tt {0}) result (unless (first_fault (set_fault bytes.now names.now) rows.now) (Ok (tt {0}))) }
    ensures rows { IfOk result (λ told. AllZip (Tells bytes.now names.now) told.items rows.now) }
{
    let mut told = Vec::new(alloc);
    for row in rows {
        check_row(bytes, names, row)?;
        let mask = mask_named(bytes, names, row.arguments.items());
        if row_over(&told, mask).is_some() {
            return Err(fault_at(DUPLICATE_DISTRIBUTION, row.at));
        }
        let value = value_of(bytes, names, &row.value);
        told.push(Told { mask, value })?;
    }
    Ok(told)
}

// The results, by sets.
fn results(
    alloc: Global,
    bytes: &[u8],
    names: &[Name],
    rows: &[Row],
    told: &[Told],
    close: u32,
) -> Result<List<u8>, SpecFault>
    requires few { length names.now ≤ MOST_VALUES }
    requires told { AllZip (Tells bytes.now names.now) told.now rows.now }
    ensures { Gives (λ table. table) result (unless (missing_set bytes.now names.now close rows.now)
        (Ok (table_over (length names.now) (result_over bytes.now names.now rows.now)))) }
{
    let mut table = List::new(alloc);
    for index in 0..set_count(names.len()) {
        let mask = index + 1;
        match row_over(told, mask) {
            Some(row) => table.push(row.value)?,
            None => {
                return Err(SpecFault::Fault {
                    number: MISSING_DISTRIBUTION,
                    offset: close,
                    kept: Kept::Set(member_names(alloc, names, mask)?),
                });
            }
        }
    }
    Ok(table)
}

/// The table of a mapping, whose closing bracket is at `close`.
pub(crate) fn distribution_given(
    alloc: Global,
    bytes: &[u8],
    names: &[Name],
    rows: &[Row],
    close: u32,
) -> Result<List<u8>, SpecFault>
    requires rows { All (RowHas (LiesIn (length bytes.now))) rows.now }
    requires some { 0 < length names.now }
    requires few { length names.now ≤ MOST_VALUES }
    ensures { Gives (λ table. table) result (distribution_given bytes.now names.now rows.now close) }
{
    let told = told_rows(alloc, bytes, names, rows)?;
    results(alloc, bytes, names, rows, &told, close)
}
