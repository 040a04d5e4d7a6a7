// The printed form of queries.
ghost use Rattle.std.specs.Prelude.{◌≡◌, ◌++◌, ◌<◌, ◌^◌, All, OnOk, OnErr};
ghost use Rattle.lgc_values.specs.Values.{IsSize};
ghost use Rattle.lgc_syntax.specs.Sizes.{depth};
ghost use Rattle.lgc_meaning.specs.Queries.{sides, formulas_of, HasSetsBelow};
ghost use Rattle.lgc_queries.specs.QueryText.{formulas_text, equation_text, equations_text, mask_text, turnstile_text, is_entailment, opening_text, query_text};

use lgc_meaning::{Pair, Query};
use lgc_print::{put_formula, put_set};
use lgc_syntax::Formula;
use lgc_values::{Matrix, ValueSet};
use std::alloc::{AllocError, Global};

#[tactic(auto, using(std::proofs::lemmas::Grind::common_steps, lgc_print::proofs::TextLaws::joined_more, lgc_print::proofs::TextLaws::between_more))]
fn put_formulas<const N: usize>(
    alloc: Global,
    m: &Matrix<N>,
    formulas: &[Formula],
    into: &mut Vec<u8>,
) -> Result<(), AllocError>
    requires { All (λ f. depth f < 2 ^ 32) formulas.now }
    ensures { OnOk result (into.new.items ≡ into.old.items ++ formulas_text m.now formulas.now) }
{
    let mut separator: &[u8] = b"";
    for f in formulas {
        into.extend_from_slice(separator)?;
        put_formula(alloc, m, f, 0, into)?;
        separator = b", ";
    }
    Ok(())
}

fn put_equation<const N: usize>(
    alloc: Global,
    m: &Matrix<N>,
    pair: &Pair,
    into: &mut Vec<u8>,
) -> Result<(), AllocError>
    requires { All (λ f. depth f < 2 ^ 32) (sides pair.now) }
    ensures { OnOk result (into.new.items ≡ into.old.items ++ equation_text m.now pair.now) }
{
    put_formula(alloc, m, &pair.left, 0, into)?;
    into.extend_from_slice(b" = ")?;
    put_formula(alloc, m, &pair.right, 0, into)
}

#[tactic(auto, using(std::proofs::lemmas::Grind::common_steps, lgc_print::proofs::TextLaws::joined_more, lgc_print::proofs::TextLaws::between_more))]
fn put_equations<const N: usize>(
    alloc: Global,
    m: &Matrix<N>,
    pairs: &[Pair],
    into: &mut Vec<u8>,
) -> Result<(), AllocError>
    requires { All (λ pair. All (λ f. depth f < 2 ^ 32) (sides pair)) pairs.now }
    ensures { OnOk result (into.new.items ≡ into.old.items ++ equations_text m.now pairs.now) }
{
    let mut separator: &[u8] = b"";
    for pair in pairs {
        into.extend_from_slice(separator)?;
        put_equation(alloc, m, pair, into)?;
        separator = b", ";
    }
    Ok(())
}

fn put_mask<const N: usize>(m: &Matrix<N>, mask: u16, into: &mut Vec<u8>) -> Result<(), AllocError>
    requires size { IsSize N }
    requires mask { mask < 2 ^ N }
    ensures { OnOk result (into.new.items ≡ into.old.items ++ mask_text m.now mask) }
{
    put_set(m.names(), ValueSet::<N>::of_mask(mask), into)
}

fn put_turnstile<T>(premises: &[T], into: &mut Vec<u8>) -> Result<(), AllocError>
    ensures { OnOk result (into.new.items ≡ into.old.items ++ turnstile_text premises.now) }
{
    if !premises.is_empty() {
        into.push(b' ')?;
    }
    into.extend_from_slice(b"|- ")
}

fn is_entailment<const N: usize>(
    m: &Matrix<N>,
    given: u16,
    wanted: u16,
    conclusions: &[Formula],
) -> bool
    ensures { result ≡ is_entailment m.now given wanted conclusions.now }
{
    let designated = m.designated().mask();
    given == designated && wanted == designated && conclusions.len() == 1
}

fn put_opening<const N: usize>(
    m: &Matrix<N>,
    given: u16,
    wanted: u16,
    conclusions: &[Formula],
    into: &mut Vec<u8>,
) -> Result<(), AllocError>
    requires given { given < 2 ^ N }
    requires wanted { wanted < 2 ^ N }
    ensures { OnOk result (into.new.items ≡ into.old.items ++ opening_text m.now given wanted conclusions.now) }
{
    let _names = m.names();
    if is_entailment(m, given, wanted, conclusions) {
        return into.extend_from_slice(b"entail ");
    }
    into.extend_from_slice(b"mixed ")?;
    put_mask(m, given, into)?;
    into.extend_from_slice(b", ")?;
    put_mask(m, wanted, into)?;
    into.extend_from_slice(b": ")
}

fn put_query<const N: usize>(
    alloc: Global,
    m: &Matrix<N>,
    q: &Query,
    into: &mut Vec<u8>,
) -> Result<(), AllocError>
    requires formulas { All (λ f. depth f < 2 ^ 32) (formulas_of q.now) }
    requires sets { HasSetsBelow N q.now }
    ensures { OnOk result (into.new.items ≡ into.old.items ++ query_text m.now q.now) }
{
    match q {
        Query::Mixed {
            given,
            wanted,
            premises,
            conclusions,
        } => {
            put_opening(m, *given, *wanted, conclusions.items(), into)?;
            put_formulas(alloc, m, premises.items(), into)?;
            put_turnstile(premises.items(), into)?;
            put_formulas(alloc, m, conclusions.items(), into)
        }
        Query::Equation(pair) => {
            into.extend_from_slice(b"equation ")?;
            put_equation(alloc, m, pair, into)
        }
        Query::Quasi {
            premises,
            conclusion,
        } => {
            into.extend_from_slice(b"quasi ")?;
            put_equations(alloc, m, premises.items(), into)?;
            put_turnstile(premises.items(), into)?;
            put_equation(alloc, m, conclusion, into)
        }
    }
}

/// Puts the text of a query behind what `into` holds. Where memory runs out, `into` is as it was.
///
/// A mixed entailment whose sets are both the designated values and that has one conclusion is written as `entail`.
pub fn write_query<const N: usize>(
    alloc: Global,
    m: &Matrix<N>,
    q: &Query,
    into: &mut Vec<u8>,
) -> Result<(), AllocError>
    requires formulas { All (λ f. depth f < 2 ^ 32) (formulas_of q.now) }
    requires sets { HasSetsBelow N q.now }
    ensures put { OnOk result (into.new.items ≡ into.old.items ++ query_text m.now q.now) }
    ensures kept { OnErr result (into.new.items ≡ into.old.items) }
{
    let mut text = Vec::new(alloc);
    put_query(alloc, m, q, &mut text)?;
    into.extend_from_slice(&text)
}
