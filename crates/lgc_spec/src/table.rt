// Operators of two arguments by table: a header, and for each value a line with its heading and its cells.
ghost use Rattle.std.specs.Prelude.{◌≡◌, ◌==◌, IfSome, ◌+◌, ◌*◌, ◌<◌, ◌≤◌, ◌/◌, ◌%◌, List, length, map, All, IfOk, position};
ghost use Rattle.std.specs.List.{range_with_len};
ghost use Rattle.lgc_values.specs.declared.TheConstants.{MOST_VALUES};
ghost use Rattle.lgc_spec.specs.Faults.{Gives};
ghost use Rattle.lgc_spec.specs.Words.{LiesIn, value_of};
ghost use Rattle.lgc_spec.specs.Tables.{cell_at, headings, place_of, table_value, table_given};

use crate::fault::{SpecFault, TABLE_HEADER, TABLE_SHAPE, fault_at};
use crate::words::{check_distinct, check_known, value_of};
use lgc_parser::Word;
use lgc_values::{List, Name};
use std::alloc::{AllocError, Global};

// The first cells of the lines behind the header.
fn headings(alloc: Global, n: usize, cells: &[Word]) -> Result<Vec<Word>, AllocError>
    requires few { n ≤ MOST_VALUES }
    requires whole { length cells.now ≡ n * n + 2 * n }
    ensures { IfOk result (λ words. words.items ≡ headings n cells.now) }
{
    let mut words = Vec::new(alloc);
    for line in 0..n {
        words.push(cells[n + line * (n + 1)])?;
    }
    Ok(words)
}

// The place of the word that names a value.
fn find_value(bytes: &[u8], names: &[Name], words: &[Word], value: u8) -> Option<usize>
    requires words { All (LiesIn (length bytes.now)) words.now }
    requires some { 0 < length names.now }
    requires few { length names.now ≤ MOST_VALUES }
    ensures place { result ≡ position (λ w. value_of bytes.now names.now w == value) words.now }
    ensures below { IfSome result (λ place. place < length words.now) }
{
    words
        .iter()
        .position(|word| value_of(bytes, names, word) == value)
}

fn place_of(bytes: &[u8], names: &[Name], words: &[Word], value: u8) -> usize
    requires words { All (LiesIn (length bytes.now)) words.now }
    requires some { 0 < length names.now }
    requires few { length names.now ≤ MOST_VALUES }
    ensures place { result ≡ place_of bytes.now names.now words.now value }
    ensures below { 0 < length words.now → result < length words.now }
{
    find_value(bytes, names, words, value).unwrap_or(0)
}

// The result at the arguments `a` and `b`. The words `lines` are the headings.
fn result_at(bytes: &[u8], names: &[Name], cells: &[Word], lines: &[Word], a: u8, b: u8) -> u8
    requires words { All (LiesIn (length bytes.now)) cells.now }
    requires whole { length cells.now ≡ length names.now * length names.now + 2 * length names.now }
    requires lines { lines.now ≡ headings (length names.now) cells.now }
    requires some { 0 < length names.now }
    requires few { length names.now ≤ MOST_VALUES }
    ensures { result ≡ table_value bytes.now names.now cells.now a b }
{
    let n = names.len();
    let line = place_of(bytes, names, lines, a);
    let column = place_of(bytes, names, &cells[..n], b);
    value_of(bytes, names, &cells[n + line * (n + 1) + 1 + column])
}

// The results, by rows of arguments.
fn results(
    alloc: Global,
    bytes: &[u8],
    names: &[Name],
    cells: &[Word],
    lines: &[Word],
) -> Result<List<u8>, AllocError>
    requires words { All (LiesIn (length bytes.now)) cells.now }
    requires whole { length cells.now ≡ length names.now * length names.now + 2 * length names.now }
    requires lines { lines.now ≡ headings (length names.now) cells.now }
    requires some { 0 < length names.now }
    requires few { length names.now ≤ MOST_VALUES }
    ensures { IfOk result (λ table. table
        ≡ map (λ row. table_value bytes.now names.now cells.now (row / length names.now) (row % length names.now)) (range_with_len 0 (length names.now * length names.now))) }
{
    let n = names.len();
    let mut table = List::new(alloc);
    for row in 0..n * n {
        table.push(result_at(bytes, names, cells, lines, (row / n) as u8, (row % n) as u8))?;
    }
    Ok(table)
}

/// The table of an operator, whose word `table` is at `at`.
pub(crate) fn table_given(
    alloc: Global,
    bytes: &[u8],
    names: &[Name],
    arity: u8,
    at: u32,
    cells: &[Word],
) -> Result<List<u8>, SpecFault>
    requires words { All (LiesIn (length bytes.now)) cells.now }
    requires some { 0 < length names.now }
    requires few { length names.now ≤ MOST_VALUES }
    ensures { Gives (λ table. table) result (table_given bytes.now names.now arity at cells.now) }
{
    let n = names.len();
    if arity != 2 || cells.len() != n * n + 2 * n {
        return Err(fault_at(TABLE_SHAPE, at));
    }
    check_known(bytes, names, cells)?;
    check_distinct(TABLE_HEADER, bytes, &cells[..n])?;
    let lines = headings(alloc, n, cells)?;
    check_distinct(TABLE_HEADER, bytes, &lines)?;
    Ok(results(alloc, bytes, names, cells, &lines)?)
}
