// Entries of valuations.
ghost use Rattle.std.specs.Prelude.{◌≡◌, true, false, [], IfOk};
ghost use Rattle.lgc_lexer.specs.Spans.{AllIn};
ghost use Rattle.lgc_grammar.specs.Reading.{next_is, optional_at};
ghost use Rattle.lgc_meaning.specs.Valuations.{is_atom};
ghost use Rattle.lgc_tokens.specs.Spelled.{IsRest, IsShorter};
ghost use Rattle.lgc_tokens.specs.Gives.{GivesAs};
ghost use Rattle.lgc_formulas.specs.Setting.{setting_of};
ghost use Rattle.lgc_report_reader.specs.Reported.{reports, is_predicate, is_listed};
ghost use Rattle.lgc_report_reader.specs.ReportReading.{entry_atom_at, entry_at, next_entry_at, more_entries_at, entries_at};

use crate::part::{formula, value};
use crate::token::{Rest, is_predicate, next_is, next_is_predicate, one};
use lgc_formulas::{Context, Read};
use lgc_lexer::Token;
use lgc_meaning::Valuation;
use lgc_syntax::{Formula, UNEXPECTED, same_formula};
use lgc_tokens::{Class, Reading, Stop};
use std::alloc::Global;

// Whether a formula stands in one of the entries.
fn is_listed(entries: &Valuation, f: &Formula) -> bool
    ensures { result ≡ is_listed entries.now f.now }
{
    entries
        .entries()
        .iter()
        .any(|entry| same_formula(f, &entry.0))
}

// An atom that none of the entries has, where the name of a predicate is next. One that was listed before has no place there, which is told at
// its first token.
fn unlisted_atom<'a, const N: usize>(
    alloc: Global,
    c: &Context<N>,
    entries: &Valuation,
    tokens: &'a [Token],
) -> Reading<'a, Read>
    requires inside { AllIn c.now.bytes.now tokens.now }
    requires name { next_is is_predicate (reports c.now tokens.now) ≡ true }
    ensures gives { GivesAs (reports c.now) (λ x. (x.0, reports c.now x.1.now)) result (entry_atom_at N (setting_of c.now) entries.now (reports c.now tokens.now)) }
    ensures rest { IfOk result (λ x. IsShorter c.now.bytes.now tokens.now x.1.now) }
    ensures atom { IfOk result (λ x. is_atom x.0.formula ≡ true) }
    ensures unlisted { IfOk result (λ x. is_listed entries.now x.0.formula ≡ false) }
{
    let (read, rest) = formula(alloc, c, tokens)?;
    if is_listed(entries, &read.formula) {
        return Err(Stop::Breaks(UNEXPECTED, tokens));
    }
    Ok((read, rest))
}

// The same, where anything may be next.
#[tactic(auto, unfolding(crate::specs::ReportReading::entry_atom_at))]
fn entry_atom<'a, const N: usize>(
    alloc: Global,
    c: &Context<N>,
    entries: &Valuation,
    tokens: &'a [Token],
) -> Reading<'a, Read>
    requires { AllIn c.now.bytes.now tokens.now }
    ensures gives { GivesAs (reports c.now) (λ x. (x.0, reports c.now x.1.now)) result (entry_atom_at N (setting_of c.now) entries.now (reports c.now tokens.now)) }
    ensures rest { IfOk result (λ x. IsShorter c.now.bytes.now tokens.now x.1.now) }
    ensures atom { IfOk result (λ x. is_atom x.0.formula ≡ true) }
    ensures unlisted { IfOk result (λ x. is_listed entries.now x.0.formula ≡ false) }
{
    match tokens.split_first() {
        Some((token, rest)) if is_predicate(c, token, rest) => {
            unlisted_atom(alloc, c, entries, tokens)
        }
        _ => Err(Stop::Unexpected(tokens)),
    }
}

// An entry, which is put behind these.
#[tactic(auto, unfolding(crate::specs::ReportReading::entry_at))]
fn entry<'a, const N: usize>(
    alloc: Global,
    c: &Context<N>,
    entries: &mut Valuation,
    tokens: &'a [Token],
) -> Rest<'a>
    requires { AllIn c.now.bytes.now tokens.now }
    ensures gives { GivesAs (reports c.now) (λ x. (entries.new, reports c.now x.now)) result (entry_at N (setting_of c.now) entries.old (reports c.now tokens.now)) }
    ensures rest { IfOk result (λ x. IsShorter c.now.bytes.now tokens.now x.now) }
{
    let (atom, rest) = entry_atom(alloc, c, entries, tokens)?;
    let (_, rest) = one(c, Class::Colon, rest)?;
    let (value, rest) = value(c, rest)?;
    entries.set(atom.formula, value)?;
    Ok(rest)
}

// A comma and an entry.
#[tactic(auto, unfolding(crate::specs::ReportReading::next_entry_at))]
fn next_entry<'a, const N: usize>(
    alloc: Global,
    c: &Context<N>,
    entries: &mut Valuation,
    tokens: &'a [Token],
) -> Rest<'a>
    requires { AllIn c.now.bytes.now tokens.now }
    ensures gives { GivesAs (reports c.now) (λ x. (entries.new, reports c.now x.now)) result (next_entry_at N (setting_of c.now) entries.old (reports c.now tokens.now)) }
    ensures rest { IfOk result (λ x. IsShorter c.now.bytes.now tokens.now x.now) }
{
    let (_, rest) = one(c, Class::Comma, tokens)?;
    entry(alloc, c, entries, rest)
}

// Entries behind these, each behind a comma.
fn more_entries<'a, const N: usize>(
    alloc: Global,
    c: &Context<N>,
    entries: &mut Valuation,
    tokens: &'a [Token],
) -> Rest<'a>
    requires { AllIn c.now.bytes.now tokens.now }
    ensures gives { GivesAs (reports c.now) (λ x. (entries.new, reports c.now x.now)) result (more_entries_at N (setting_of c.now) entries.old (reports c.now tokens.now)) }
    ensures rest { IfOk result (λ x. IsRest c.now.bytes.now tokens.now x.now) }
{
    let mut rest = tokens;
    while next_is(c, Class::Comma, rest) {
        rest = next_entry(alloc, c, entries, rest)?;
    }
    Ok(rest)
}

// One entry or more, with commas between them.
#[tactic(auto, unfolding(crate::specs::ReportReading::entries_at))]
fn some_entries<'a, const N: usize>(
    alloc: Global,
    c: &Context<N>,
    tokens: &'a [Token],
) -> Reading<'a, Valuation>
    requires { AllIn c.now.bytes.now tokens.now }
    ensures gives { GivesAs (reports c.now) (λ x. (x.0, reports c.now x.1.now)) result (entries_at N (setting_of c.now) (reports c.now tokens.now)) }
    ensures rest { IfOk result (λ x. IsShorter c.now.bytes.now tokens.now x.1.now) }
{
    let mut entries = Valuation::new(alloc);
    let rest = entry(alloc, c, &mut entries, tokens)?;
    let rest = more_entries(alloc, c, &mut entries, rest)?;
    Ok((entries, rest))
}

/// The entries of a valuation, or none.
pub(crate) fn entries<'a, const N: usize>(
    alloc: Global,
    c: &Context<N>,
    tokens: &'a [Token],
) -> Reading<'a, Valuation>
    requires { AllIn c.now.bytes.now tokens.now }
    ensures gives { GivesAs (reports c.now) (λ x. (x.0, reports c.now x.1.now)) result (optional_at is_predicate [] (entries_at N (setting_of c.now)) (reports c.now tokens.now)) }
    ensures rest { IfOk result (λ x. IsRest c.now.bytes.now tokens.now x.1.now) }
{
    if next_is_predicate(c, tokens) {
        some_entries(alloc, c, tokens)
    } else {
        Ok((Valuation::new(alloc), tokens))
    }
}
