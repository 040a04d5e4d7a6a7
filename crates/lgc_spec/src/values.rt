// The truth values, and the designated ones among them.
ghost use Rattle.std.specs.Prelude.{◌≡◌, ◌<◌, ◌≤◌, ◌^◌, length, map, All, IfOk};
ghost use Rattle.lgc_values.specs.declared.TheConstants.{MOST_VALUES};
ghost use Rattle.lgc_values.specs.Values.{members_of};
ghost use Rattle.lgc_spec.specs.Faults.{Gives};
ghost use Rattle.lgc_spec.specs.Words.{LiesIn, text_of};
ghost use Rattle.lgc_spec.specs.Values.{names_given, values_named, designated_given};

use crate::fault::{DUPLICATE_VALUE, SpecFault, TOO_FEW_VALUES, TOO_MANY_VALUES, fault_at};
use crate::words::{check_distinct, check_known, text_of, value_of};
use lgc_parser::Word;
use lgc_values::{List, MOST_VALUES, Name};
use std::alloc::{AllocError, Global};

// What the words say.
fn texts(alloc: Global, bytes: &[u8], words: &[Word]) -> Result<List<Name>, AllocError>
    requires { All (LiesIn (length bytes.now)) words.now }
    ensures { IfOk result (λ names. names ≡ map (text_of bytes.now) words.now) }
{
    let mut names = List::new(alloc);
    for word in words {
        names.push(Name::of_bytes(alloc, text_of(bytes, word))?)?;
    }
    Ok(names)
}

/// The names of the truth values. The words stand in the statement whose keyword is at `at`.
pub(crate) fn names_given(
    alloc: Global,
    bytes: &[u8],
    at: u32,
    words: &[Word],
) -> Result<List<Name>, SpecFault>
    requires { All (LiesIn (length bytes.now)) words.now }
    ensures names { Gives (λ names. names) result (names_given bytes.now at words.now) }
    ensures some { IfOk result (λ names. 2 ≤ length names) }
    ensures few { IfOk result (λ names. length names ≤ MOST_VALUES) }
{
    if words.len() < 2 {
        return Err(fault_at(TOO_FEW_VALUES, at));
    }
    if words.len() > MOST_VALUES {
        return Err(fault_at(TOO_MANY_VALUES, words[MOST_VALUES].at));
    }
    check_distinct(DUPLICATE_VALUE, bytes, words)?;
    Ok(texts(alloc, bytes, words)?)
}

/// The mask of the values that the words name.
pub(crate) fn mask_named(bytes: &[u8], names: &[Name], words: &[Word]) -> u16
    requires words { All (LiesIn (length bytes.now)) words.now }
    requires some { 0 < length names.now }
    requires few { length names.now ≤ MOST_VALUES }
    ensures members { members_of (length names.now) result ≡ values_named bytes.now names.now words.now }
    ensures below { result < 2 ^ length names.now }
{
    let mut mask = 0;
    for word in words {
        mask |= 1 << value_of(bytes, names, word);
    }
    mask
}

/// The mask of the designated values.
pub(crate) fn designated_given(
    bytes: &[u8],
    names: &[Name],
    words: &[Word],
) -> Result<u16, SpecFault>
    requires words { All (LiesIn (length bytes.now)) words.now }
    requires some { 0 < length names.now }
    requires few { length names.now ≤ MOST_VALUES }
    ensures members { Gives (members_of (length names.now)) result (designated_given bytes.now names.now words.now) }
    ensures below { IfOk result (λ mask. mask < 2 ^ length names.now) }
{
    check_known(bytes, names, words)?;
    Ok(mask_named(bytes, names, words))
}
