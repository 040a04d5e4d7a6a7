// The printed form of terms and formulas.
ghost use Rattle.std.specs.Prelude.{◌≡◌, ◌++◌, ◌≤◌, ◌<◌, ◌^◌, ◌+◌, true, [], ◌∷◌, map, codes, OnOk, OnErr};
ghost use Rattle.lgc_values.specs.Logic.{operator_at, quantifier_at};
ghost use Rattle.lgc_syntax.specs.declared.formula.Formula.{Op, Quant};
ghost use Rattle.lgc_syntax.specs.Sizes.{depth, greatest};
ghost use Rattle.lgc_syntax.specs.Variables.{has_no_bound};
ghost use Rattle.lgc_print.specs.Text.{symbol_text};
ghost use Rattle.lgc_print.specs.FormulaText.{in_brackets, binder, term_text, text_within, formula_text};

use crate::rules::{put_number, put_symbol};
use lgc_syntax::{Formula, Term};
use lgc_values::{List, Matrix, Name};
use std::alloc::{AllocError, Global};

fn put_binder(alloc: Global, number: u32, into: &mut Vec<u8>) -> Result<(), AllocError>
    ensures { OnOk result (into.new.items ≡ into.old.items ++ binder number) }
{
    into.push(b'B')?;
    put_number(alloc, number, into)
}

fn put_operator_name<const N: usize>(
    m: &Matrix<N>,
    op: u16,
    into: &mut Vec<u8>,
) -> Result<(), AllocError>
    ensures { OnOk result (into.new.items ≡ into.old.items ++ symbol_text (operator_at m.now op).name) }
{
    match m.operators().get(op as usize) {
        Some(operator) => put_symbol(operator.name.bytes(), into),
        None => put_symbol(b"".as_slice(), into),
    }
}

fn put_quantifier_name<const N: usize>(
    m: &Matrix<N>,
    q: u16,
    into: &mut Vec<u8>,
) -> Result<(), AllocError>
    ensures { OnOk result (into.new.items ≡ into.old.items ++ symbol_text (quantifier_at m.now q).name) }
{
    match m.quantifiers().get(q as usize) {
        Some(quantifier) => put_symbol(quantifier.name.bytes(), into),
        None => put_symbol(b"".as_slice(), into),
    }
}

/// Puts the text of a term that stands below some number of quantifiers. Where memory runs out, `into` may have a part of it.
#[cycle(put_term)]
#[tactic(auto, using(crate::proofs::FormulaTextLaws::text_rules))]
pub fn put_term(alloc: Global, t: &Term, around: u32, into: &mut Vec<u8>) -> Result<(), AllocError>
    ensures { OnOk result (into.new.items ≡ into.old.items ++ term_text t.now around) }
{
    match t {
        Term::Bound(i) => put_binder(alloc, around.saturating_sub(*i), into),
        Term::Free(name) => into.extend_from_slice(name.bytes()),
        Term::Apply(name, args) => put_application(alloc, name, args, around, into),
    }
}

// A predicate or a function with its arguments.
#[cycle(put_term)]
fn put_application(
    alloc: Global,
    name: &Name,
    args: &List<Term>,
    around: u32,
    into: &mut Vec<u8>,
) -> Result<(), AllocError>
    ensures { OnOk result (into.new.items ≡ into.old.items ++ (name.now ++ in_brackets (map (λ t. term_text t around) args.now))) }
{
    into.extend_from_slice(name.bytes())?;
    put_terms(alloc, args.items(), around, into)
}

#[cycle(put_term)]
#[tactic(auto, using(crate::proofs::FormulaTextLaws::brackets_none))]
fn put_terms(
    alloc: Global,
    args: &[Term],
    around: u32,
    into: &mut Vec<u8>,
) -> Result<(), AllocError>
    ensures { OnOk result (into.new.items ≡ into.old.items ++ in_brackets (map (λ t. term_text t around) args.now)) }
{
    let mut sign = b'(';
    for arg in args {
        into.push(sign)?;
        put_term(alloc, arg, around, into)?;
        sign = b',';
    }
    if !args.is_empty() {
        into.push(b')')?;
    }
    Ok(())
}

// The number of quantifiers around the body of a quantifier.
#[tactic(auto, using(lgc_syntax::proofs::SizeLaws::depth_rules))]
fn inside(around: u32, q: u16, body: &Formula) -> u32
    requires { around + depth (Quant q body.now) < 2 ^ 32 }
    ensures one { result ≡ around + 1 }
    ensures deep { result + depth body.now < 2 ^ 32 }
{
    around + 1
}

// The arguments of an operator.
#[tactic(auto, using(lgc_syntax::proofs::SizeLaws::depth_rules))]
fn arguments(around: u32, op: u16, args: &List<Formula>) -> &[Formula]
    requires { around + depth (Op op args.now) < 2 ^ 32 }
    ensures same { result.now ≡ args.now }
    ensures deep { around + greatest (map depth result.now) < 2 ^ 32 }
{
    args.items()
}

/// Puts the text of a formula that stands below some number of quantifiers. Where memory runs out, `into` may have a part of it.
#[cycle(put_formula)]
#[tactic(auto, using(crate::proofs::FormulaTextLaws::text_rules, lgc_syntax::proofs::SizeLaws::depth_rules))]
pub fn put_formula<const N: usize>(
    alloc: Global,
    m: &Matrix<N>,
    f: &Formula,
    around: u32,
    into: &mut Vec<u8>,
) -> Result<(), AllocError>
    requires { around + depth f.now < 2 ^ 32 }
    ensures { OnOk result (into.new.items ≡ into.old.items ++ text_within m.now f.now around) }
{
    match f {
        Formula::Atom(name, args) => put_application(alloc, name, args, around, into),
        Formula::Op(op, args) => put_operation(alloc, m, *op, args, around, into),
        Formula::Quant(q, body) => put_quantified(alloc, m, *q, body.get(), around, into),
    }
}

#[cycle(put_formula)]
fn put_operation<const N: usize>(
    alloc: Global,
    m: &Matrix<N>,
    op: u16,
    args: &List<Formula>,
    around: u32,
    into: &mut Vec<u8>,
) -> Result<(), AllocError>
    requires { around + depth (Op op args.now) < 2 ^ 32 }
    ensures { OnOk result (into.new.items ≡ into.old.items ++ (symbol_text (operator_at m.now op).name ++ in_brackets (map (λ f. text_within m.now f around) args.now))) }
{
    let args = arguments(around, op, args);
    put_operator_name(m, op, into)?;
    put_formulas(alloc, m, args, around, into)
}

#[cycle(put_formula)]
fn put_quantified<const N: usize>(
    alloc: Global,
    m: &Matrix<N>,
    q: u16,
    body: &Formula,
    around: u32,
    into: &mut Vec<u8>,
) -> Result<(), AllocError>
    requires { around + depth (Quant q body.now) < 2 ^ 32 }
    ensures { OnOk result (into.new.items ≡ into.old.items ++ (symbol_text (quantifier_at m.now q).name ++ codes "(" ++ binder (around + 1) ++ codes "," ++ text_within m.now body.now (around + 1) ++ codes ")")) }
{
    let inside = inside(around, q, body);
    put_quantifier_name(m, q, into)?;
    into.push(b'(')?;
    put_binder(alloc, inside, into)?;
    into.push(b',')?;
    put_formula(alloc, m, body, inside, into)?;
    into.push(b')')?;
    Ok(())
}

#[cycle(put_formula)]
#[tactic(auto, using(crate::proofs::FormulaTextLaws::brackets_none))]
fn put_formulas<const N: usize>(
    alloc: Global,
    m: &Matrix<N>,
    args: &[Formula],
    around: u32,
    into: &mut Vec<u8>,
) -> Result<(), AllocError>
    requires { around + greatest (map depth args.now) < 2 ^ 32 }
    ensures { OnOk result (into.new.items ≡ into.old.items ++ in_brackets (map (λ f. text_within m.now f around) args.now)) }
{
    let mut sign = b'(';
    for arg in args {
        into.push(sign)?;
        put_formula(alloc, m, arg, around, into)?;
        sign = b',';
    }
    if !args.is_empty() {
        into.push(b')')?;
    }
    Ok(())
}

/// Puts the text of a formula behind what `into` holds. Where memory runs out, `into` is as it was.
///
/// A bound variable is written as `B` and the number of its quantifier, counted from the outermost one, which is 1.
pub fn write_formula<const N: usize>(
    alloc: Global,
    m: &Matrix<N>,
    f: &Formula,
    into: &mut Vec<u8>,
) -> Result<(), AllocError>
    requires { depth f.now < 2 ^ 32 }
    ensures put { OnOk result (into.new.items ≡ into.old.items ++ formula_text m.now f.now) }
    ensures kept { OnErr result (into.new.items ≡ into.old.items) }
{
    let mut text = Vec::new(alloc);
    put_formula(alloc, m, f, 0, &mut text)?;
    into.extend_from_slice(&text)
}

/// Puts the text of a term without bound variables behind what `into` holds. Where memory runs out, `into` is as it was.
pub fn write_term(alloc: Global, t: &Term, into: &mut Vec<u8>) -> Result<(), AllocError>
    requires { has_no_bound t.now ≡ true }
    ensures put { OnOk result (into.new.items ≡ into.old.items ++ term_text t.now 0) }
    ensures kept { OnErr result (into.new.items ≡ into.old.items) }
{
    let mut text = Vec::new(alloc);
    put_term(alloc, t, 0, &mut text)?;
    into.extend_from_slice(&text)
}
