// Words of the tree: what they say, and which value they name.
ghost use Rattle.std.specs.Prelude.{◌≡◌, ◌∷◌, [], ◌<◌, ◌≤◌, ℕ, List, Option, option_map, map, take, length, All, MatchOption, option_copied, IfOk, OnOk, IfSome, position};
ghost use Rattle.std.specs.Str.{bytes_eq};
ghost use Rattle.lgc_values.specs.declared.TheConstants.{MOST_VALUES};
ghost use Rattle.lgc_spec.specs.Faults.{Gives, Passes};
ghost use Rattle.lgc_spec.specs.Words.{LiesIn, text_of, is_among, is_said, first_repeat, first_unknown, value_of, names_of};

use crate::fault::{SpecFault, UNKNOWN_VALUE, fault_at};
use lgc_parser::Word;
use lgc_values::{List, Name};
use std::alloc::{AllocError, Global};

/// What a word says.
pub(crate) fn text_of<'a>(bytes: &'a [u8], word: &Word) -> &'a [u8]
    requires { LiesIn (length bytes.now) word.now }
    ensures { result.now ≡ text_of bytes.now word.now }
{
    &bytes[word.start as usize..word.end as usize]
}

/// Whether a text is one of the names.
pub(crate) fn is_among(names: &[Name], text: &[u8]) -> bool
    ensures { result ≡ is_among names.now text.now }
{
    names.iter().any(|name| name.bytes() == text)
}

/// Whether one of the words says this text.
fn is_said(bytes: &[u8], words: &[Word], text: &[u8]) -> bool
    requires { All (LiesIn (length bytes.now)) words.now }
    ensures { result ≡ is_said bytes.now words.now text.now }
{
    words.iter().any(|word| text_of(bytes, word) == text)
}

/// That no word says what a word before it says. There are few words.
pub(crate) fn check_distinct(number: u8, bytes: &[u8], words: &[Word]) -> Result<(), SpecFault>
    requires { All (LiesIn (length bytes.now)) words.now }
    ensures { Passes result (first_repeat number bytes.now words.now) }
{
    for (i, word) in words.iter().enumerate() {
        if is_said(bytes, &words[..i], text_of(bytes, word)) {
            return Err(fault_at(number, word.at));
        }
    }
    Ok(())
}

/// That each word names a value.
pub(crate) fn check_known(bytes: &[u8], names: &[Name], words: &[Word]) -> Result<(), SpecFault>
    requires { All (LiesIn (length bytes.now)) words.now }
    ensures { Passes result (first_unknown bytes.now names.now words.now) }
{
    for word in words {
        if !is_among(names, text_of(bytes, word)) {
            return Err(fault_at(UNKNOWN_VALUE, word.at));
        }
    }
    Ok(())
}

// The place of a text among the names.
fn place_of(names: &[Name], text: &[u8]) -> Option<usize>
    ensures place { result ≡ position (λ name. bytes_eq name text.now) names.now }
    ensures below { IfSome result (λ place. place < length names.now) }
{
    names.iter().position(|name| name.bytes() == text)
}

/// The value that a word names, and 0 where it names none.
pub(crate) fn value_of(bytes: &[u8], names: &[Name], word: &Word) -> u8
    requires word { LiesIn (length bytes.now) word.now }
    requires some { 0 < length names.now }
    requires few { length names.now ≤ MOST_VALUES }
    ensures value { result ≡ value_of bytes.now names.now word.now }
    ensures below { result < length names.now }
{
    place_of(names, text_of(bytes, word)).unwrap_or(0) as u8
}

/// The names of two values.
pub(crate) fn pair_names(
    alloc: Global,
    names: &[Name],
    a: u8,
    b: u8,
) -> Result<List<Name>, AllocError>
    requires a { a < length names.now }
    requires b { b < length names.now }
    ensures { IfOk result (λ pair. pair ≡ names_of names.now (a ∷ b ∷ [])) }
{
    let mut pair = List::new(alloc);
    pair.push(Name::of_bytes(alloc, names[usize::from(a)].bytes())?)?;
    pair.push(Name::of_bytes(alloc, names[usize::from(b)].bytes())?)?;
    Ok(pair)
}
