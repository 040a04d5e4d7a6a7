// Reading formulas from bytes, and formulas and terms among tokens.
ghost use Rattle.std.specs.Prelude.{◌≡◌, ℕ, false, true, None, ◌<◌, ◌≤◌, ◌^◌, ◌+◌, ◌-◌, ◌++◌, List, length, drop, option_map, IfOk, Result, Ok};
ghost use Rattle.lgc_grammar.specs.Reading.{map_at, whole};
ghost use Rattle.lgc_grammar.specs.Among.{EndsBefore};
ghost use Rattle.lgc_lexer.specs.Spans.{AllIn};
ghost use Rattle.lgc_lexer.specs.Tokens.{tokens_of};
ghost use Rattle.lgc_syntax.specs.declared.fault.InputFault.{InputFault};
ghost use Rattle.lgc_syntax.specs.declared.formula.Formula.{Formula};
ghost use Rattle.lgc_syntax.specs.declared.formula.Term.{Term};
ghost use Rattle.lgc_syntax.specs.Sizes.{term_nodes, nodes};
ghost use Rattle.lgc_tokens.specs.Spelled.{Spelled, spelled_all, place_of, IsShorter};
ghost use Rattle.lgc_tokens.specs.Gives.{GivesAs};
ghost use Rattle.lgc_inputs.specs.Told.{Holds, IfFault, IsTree, Tells, told_of};
ghost use Rattle.lgc_inputs.specs.Places.{viewed};
ghost use Rattle.lgc_formulas.specs.declared.formula.Read.{Read};
ghost use Rattle.lgc_formulas.specs.declared.formula.TheConstants.{MOST_NODES};
ghost use Rattle.lgc_formulas.specs.declared.read.Parsed.{Parsed};
ghost use Rattle.lgc_formulas.specs.Named.{Named, named_all};
ghost use Rattle.lgc_formulas.specs.Setting.{setting_of, setting_with, numbered};
ghost use Rattle.lgc_formulas.specs.TermGrammar.{Counted, OneTerm};
ghost use Rattle.lgc_formulas.specs.PlainTerms.{PlainTerm};
ghost use Rattle.lgc_formulas.specs.TermReading.{one_term_at};
ghost use Rattle.lgc_formulas.specs.FormulaGrammar.{as_whole, OneFormula};
ghost use Rattle.lgc_formulas.specs.PlainFormulas.{PlainFormula};
ghost use Rattle.lgc_formulas.specs.FormulaReading.{whole_formula_at, formula_here_at};
ghost use Rattle.lgc_formulas.specs.FormulaTexts.{named_place, text_setting, FormulaTextGives, IsFormulaText, IsTextFault, text_formula_at, formula_text_read, parsed, ParsedGives, IsParsedFault, TermGives, LoneTerm, LoneTermGives, IsTermPlaceFault, lone_term_at};
ghost use Rattle.lgc_formulas.specs.Limits.{LetsFit, IsFormulaFor, IsReadTerm};

use crate::context::Context;
use crate::formula::{MOST_NODES, Read, one_formula};
use crate::term::one_term;
use lgc_inputs::{fault_of, tokens_in};
use lgc_lexer::Token;
use lgc_syntax::{Formula, InputFault, Term, WRONG_ARITY};
use lgc_tokens::{Reading, Stop};
use lgc_values::Matrix;
use std::alloc::Global;

/// The greatest length of the text of a formula, in bytes.
pub const LONGEST_TEXT: u32 = 4_294_967_295;

/// A formula that was read among tokens, the place of the token behind it, and how many nodes are left.
#[derive(Drop)]
pub struct Parsed {
    pub formula: Formula,
    pub next: usize,
    pub nodes_left: u32,
}

// ---- whole texts

// The formula that all of the tokens are.
#[tactic(auto, unfolding(crate::specs::FormulaReading::whole_formula_at))]
fn whole_formula<'a, const N: usize>(
    alloc: Global,
    c: &Context<N>,
    tokens: &'a [Token],
) -> Result<Formula, Stop<'a>>
    requires { AllIn c.now.bytes.now tokens.now }
    ensures { GivesAs (named_all c.now.m.now c.now.bytes.now) (λ formula. formula) result (whole (map_at (λ x. x.formula) (whole_formula_at (setting_of c.now) MOST_NODES)) (named_all c.now.m.now c.now.bytes.now tokens.now)) }
{
    let (read, rest) = one_formula(alloc, c, MOST_NODES, tokens)?;
    let Read {
        formula,
        nodes_left: _,
        is_bare,
    } = read;
    if is_bare {
        return Err(Stop::Unexpected(rest));
    }
    match rest.split_first() {
        Some(_) => Err(Stop::Unexpected(rest)),
        None => Ok(formula),
    }
}

fn formula_of<'a, const N: usize>(
    alloc: Global,
    m: &'a Matrix<N>,
    bytes: &'a [u8],
    tokens: &[Token],
) -> Result<Formula, InputFault>
    requires length { length bytes.now < 2 ^ 32 }
    requires inside { AllIn bytes.now tokens.now }
    ensures { Tells (λ formula. formula) result (told_of named_place (length bytes.now) (whole (text_formula_at m.now) (named_all m.now bytes.now tokens.now))) }
{
    let c = Context {
        m,
        bytes,
        quantified: true,
        lets: None,
    };
    match whole_formula(alloc, &c, tokens) {
        Ok(formula) => Ok(formula),
        Err(stop) => Err(fault_of(bytes, stop)),
    }
}

fn formula_in<const N: usize>(
    alloc: Global,
    m: &Matrix<N>,
    bytes: &[u8],
) -> Result<Formula, InputFault>
    requires { length bytes.now < 2 ^ 32 }
    ensures { Tells (λ formula. formula) result (formula_text_read m.now bytes.now) }
{
    let tokens = tokens_in(alloc, bytes, LONGEST_TEXT)?;
    formula_of(alloc, m, bytes, &tokens)
}

/// The formula of a text, with at most 1,000 nodes, at most 100 deep; or the first fault of the text.
///
/// The faults are looked for in this order: the bytes have no tokens, and then the text is read from the left, up to the first token
/// at which there is one. The numbers and places are those of `InputFault`'s constants. `Memory` may come at any bytes.
pub fn read_formula<const N: usize>(
    alloc: Global,
    m: &Matrix<N>,
    bytes: &[u8],
) -> Result<Formula, InputFault>
    requires { length bytes.now < 2 ^ 32 }
    // The formula is the grammar's, and a fault is at the first token that breaks a rule, or with which no formula goes on.
    ensures answer { Holds (FormulaTextGives m.now bytes.now) result }
    // No other answer is right.
    ensures once { (told : Result Formula InputFault) → FormulaTextGives m.now bytes.now told → Tells (λ formula. formula) result told }
    // What is in the grammar is read, as this formula alone.
    ensures complete { (formula : Formula) → IsFormulaText m.now bytes.now formula → IsTree (λ formula. formula) result formula }
    // It is a formula for the logic, no deeper and no larger than the limits.
    ensures fits { IfOk result (λ f. IsFormulaFor (text_setting m.now) f) }
    ensures small { IfOk result (λ f. nodes f ≤ MOST_NODES) }
    // The number of a fault is one from 2 to 9.
    ensures faults { IfFault result IsTextFault }
    // The same as one function of the bytes.
    ensures exact { Tells (λ formula. formula) result (formula_text_read m.now bytes.now) }
{
    formula_in(alloc, m, bytes)
}

// ---- formulas among tokens

// A formula that any token may follow, and how many nodes are left behind it.
#[tactic(auto, unfolding(crate::specs::FormulaReading::formula_here_at))]
fn formula_here<'a, const N: usize>(
    alloc: Global,
    c: &Context<N>,
    many: u32,
    tokens: &'a [Token],
) -> Reading<'a, (Formula, u32)>
    requires { AllIn c.now.bytes.now tokens.now }
    ensures gives { GivesAs (named_all c.now.m.now c.now.bytes.now) (λ x. (as_whole x.0.0 x.0.1, named_all c.now.m.now c.now.bytes.now x.1.now)) result (formula_here_at (setting_of c.now) many (named_all c.now.m.now c.now.bytes.now tokens.now)) }
    ensures rest { IfOk result (λ x. IsShorter c.now.bytes.now tokens.now x.1.now) }
{
    let (read, rest) = one_formula(alloc, c, many, tokens)?;
    let Read {
        formula,
        nodes_left,
        is_bare,
    } = read;
    if is_bare {
        return Err(match rest.split_first() {
            Some(_) => Stop::Breaks(WRONG_ARITY, rest),
            None => Stop::Unexpected(rest),
        });
    }
    Ok(((formula, nodes_left), rest))
}

// The formula that begins with these tokens, and how many tokens are behind it.
fn formula_behind<const N: usize>(
    alloc: Global,
    c: &Context<N>,
    many: u32,
    tokens: &[Token],
) -> Result<((Formula, u32), usize), InputFault>
    requires length { length c.now.bytes.now < 2 ^ 32 }
    requires inside { AllIn c.now.bytes.now tokens.now }
    ensures exact { Tells (λ x. (as_whole x.0.0 x.0.1, drop (length tokens.now - x.1) (named_all c.now.m.now c.now.bytes.now tokens.now))) result (told_of named_place (length c.now.bytes.now) (formula_here_at (setting_of c.now) many (named_all c.now.m.now c.now.bytes.now tokens.now))) }
    ensures within { IfOk result (λ x. x.1 < length tokens.now) }
{
    match formula_here(alloc, c, many, tokens) {
        Ok((read, rest)) => Ok((read, rest.len())),
        Err(stop) => Err(fault_of(c.bytes, stop)),
    }
}

fn formula_from<const N: usize>(
    alloc: Global,
    c: &Context<N>,
    tokens: &[Token],
    at: usize,
    many: u32,
) -> Result<Parsed, InputFault>
    requires length { length c.now.bytes.now < 2 ^ 32 }
    requires inside { AllIn c.now.bytes.now tokens.now }
    requires at { at ≤ length tokens.now }
    ensures exact { Tells (parsed (named_all c.now.m.now c.now.bytes.now tokens.now)) result (told_of named_place (length c.now.bytes.now) (formula_here_at (setting_of c.now) many (drop at (named_all c.now.m.now c.now.bytes.now tokens.now)))) }
    ensures behind { IfOk result (λ x. at < x.next) }
    ensures within { IfOk result (λ x. x.next ≤ length tokens.now) }
{
    let (_, from) = tokens.split_at(at);
    match formula_behind(alloc, c, many, from) {
        Ok((read, left)) => {
            let (formula, nodes_left) = read;
            Ok(Parsed {
                formula,
                next: tokens.len() - left,
                nodes_left,
            })
        }
        Err(fault) => Err(fault),
    }
}

/// The formula that begins at token `at`, counted from 0, where `nodes_left` nodes may be read, with the place of the token behind it and
/// how many nodes are left; or the first fault from there on.
///
/// Quantifiers may stand where `quantifiers` says so. Where `lets` is given a `#` and a number stand for the formula with this number,
/// from 1, and names have at most 64 bytes. A formula goes on as far as it can, and whatever stands behind it doesn't count; where it
/// is the name of an operator that wants arguments, alone, the token behind it shows that they are missing, and the end of the bytes is
/// unexpected. The tokens are those of `lex` over the bytes. `Memory` may come at any tokens.
pub fn formula_with<const N: usize>(
    alloc: Global,
    m: &Matrix<N>,
    bytes: &[u8],
    tokens: &[Token],
    at: usize,
    nodes_left: u32,
    quantifiers: bool,
    lets: Option<&[Formula]>,
) -> Result<Parsed, InputFault>
    requires length { length bytes.now < 2 ^ 32 }
    requires tokens { tokens_of bytes.now ≡ Ok tokens.now }
    requires at { at ≤ length tokens.now }
    requires nodes { nodes_left ≤ MOST_NODES }
    // The formula is the grammar's, and a fault is at the first token that breaks a rule, or with which no formula goes on.
    ensures answer { Holds (ParsedGives (setting_with m.now quantifiers (option_map (λ l. l.now) lets.entry)) nodes_left (length bytes.now) (named_all m.now bytes.now tokens.now) at) result }
    // No other answer is right.
    ensures once { (told : Result Parsed InputFault) → ParsedGives (setting_with m.now quantifiers (option_map (λ l. l.now) lets.entry)) nodes_left (length bytes.now) (named_all m.now bytes.now tokens.now) at told → Tells (parsed (named_all m.now bytes.now tokens.now)) result (viewed (parsed (named_all m.now bytes.now tokens.now)) told) }
    // A formula that stands there, and that doesn't go on with the token behind it, is read.
    ensures complete { (read : Read) (front rest : List Named) → drop at (named_all m.now bytes.now tokens.now) ≡ front ++ rest → OneFormula (setting_with m.now quantifiers (option_map (λ l. l.now) lets.entry)) nodes_left (Ok read) front → read.is_bare ≡ false → EndsBefore (PlainFormula (numbered (setting_with m.now quantifiers (option_map (λ l. l.now) lets.entry)))) front rest → IsTree (parsed (named_all m.now bytes.now tokens.now)) result (read, rest) }
    // It is a formula for the logic, where those are that numbers stand for, and keeps the limits.
    ensures fits { IfOk result (λ x. LetsFit (setting_with m.now quantifiers (option_map (λ l. l.now) lets.entry)) → IsFormulaFor (setting_with m.now quantifiers (option_map (λ l. l.now) lets.entry)) x.formula) }
    // Its nodes are those that aren't left.
    ensures counted { IfOk result (λ x. nodes x.formula + x.nodes_left ≡ nodes_left) }
    // The number of a fault is one from 4 to 9, or 13 where quantifiers may not stand, or 15 where formulas have numbers.
    ensures faults { IfFault result (IsParsedFault (setting_with m.now quantifiers (option_map (λ l. l.now) lets.entry))) }
    // The place behind it is behind that of its first token.
    ensures behind { IfOk result (λ x. at < x.next) }
    ensures within { IfOk result (λ x. x.next ≤ length tokens.now) }
    // The same as one function of the tokens.
    ensures exact { Tells (parsed (named_all m.now bytes.now tokens.now)) result (told_of named_place (length bytes.now) (formula_here_at (setting_with m.now quantifiers (option_map (λ l. l.now) lets.entry)) nodes_left (drop at (named_all m.now bytes.now tokens.now)))) }
{
    let c = Context {
        m,
        bytes,
        quantified: quantifiers,
        lets,
    };
    formula_from(alloc, &c, tokens, at, nodes_left)
}

/// The same where formulas have no numbers.
pub fn formula_at<const N: usize>(
    alloc: Global,
    m: &Matrix<N>,
    bytes: &[u8],
    tokens: &[Token],
    at: usize,
    nodes_left: u32,
    quantifiers: bool,
) -> Result<Parsed, InputFault>
    requires length { length bytes.now < 2 ^ 32 }
    requires tokens { tokens_of bytes.now ≡ Ok tokens.now }
    requires at { at ≤ length tokens.now }
    requires nodes { nodes_left ≤ MOST_NODES }
    // The formula is the grammar's, and a fault is at the first token that breaks a rule, or with which no formula goes on.
    ensures answer { Holds (ParsedGives (setting_with m.now quantifiers None) nodes_left (length bytes.now) (named_all m.now bytes.now tokens.now) at) result }
    // No other answer is right.
    ensures once { (told : Result Parsed InputFault) → ParsedGives (setting_with m.now quantifiers None) nodes_left (length bytes.now) (named_all m.now bytes.now tokens.now) at told → Tells (parsed (named_all m.now bytes.now tokens.now)) result (viewed (parsed (named_all m.now bytes.now tokens.now)) told) }
    // A formula that stands there, and that doesn't go on with the token behind it, is read.
    ensures complete { (read : Read) (front rest : List Named) → drop at (named_all m.now bytes.now tokens.now) ≡ front ++ rest → OneFormula (setting_with m.now quantifiers None) nodes_left (Ok read) front → read.is_bare ≡ false → EndsBefore (PlainFormula false) front rest → IsTree (parsed (named_all m.now bytes.now tokens.now)) result (read, rest) }
    // It is a formula for the logic, and keeps the limits.
    ensures fits { IfOk result (λ x. IsFormulaFor (setting_with m.now quantifiers None) x.formula) }
    // Its nodes are those that aren't left.
    ensures counted { IfOk result (λ x. nodes x.formula + x.nodes_left ≡ nodes_left) }
    // The number of a fault is one from 4 to 9, or 13 where quantifiers may not stand.
    ensures faults { IfFault result (IsParsedFault (setting_with m.now quantifiers None)) }
    // The place behind it is behind that of its first token.
    ensures behind { IfOk result (λ x. at < x.next) }
    ensures within { IfOk result (λ x. x.next ≤ length tokens.now) }
    // The same as one function of the tokens.
    ensures exact { Tells (parsed (named_all m.now bytes.now tokens.now)) result (told_of named_place (length bytes.now) (formula_here_at (setting_with m.now quantifiers None) nodes_left (drop at (named_all m.now bytes.now tokens.now)))) }
{
    formula_with(alloc, m, bytes, tokens, at, nodes_left, quantifiers, None)
}

// ---- terms among tokens

// The term that begins with these tokens, and how many tokens are behind it.
fn term_behind(
    alloc: Global,
    bytes: &[u8],
    many: u32,
    tokens: &[Token],
) -> Result<((Term, u32), usize), InputFault>
    requires length { length bytes.now < 2 ^ 32 }
    requires inside { AllIn bytes.now tokens.now }
    ensures exact { Tells (λ x. ((x.0.0, x.0.1), drop (length tokens.now - x.1) (spelled_all bytes.now tokens.now))) result (told_of place_of (length bytes.now) (one_term_at many (spelled_all bytes.now tokens.now))) }
    ensures within { IfOk result (λ x. x.1 < length tokens.now) }
{
    match one_term(alloc, bytes, many, tokens) {
        Ok((read, rest)) => Ok((read, rest.len())),
        Err(stop) => Err(fault_of(bytes, stop)),
    }
}

fn term_from(
    alloc: Global,
    bytes: &[u8],
    tokens: &[Token],
    at: usize,
    many: u32,
) -> Result<(Term, usize, u32), InputFault>
    requires length { length bytes.now < 2 ^ 32 }
    requires inside { AllIn bytes.now tokens.now }
    requires at { at ≤ length tokens.now }
    ensures exact { Tells (λ x. ((x.0, x.2), drop x.1 (spelled_all bytes.now tokens.now))) result (told_of place_of (length bytes.now) (one_term_at many (drop at (spelled_all bytes.now tokens.now)))) }
    ensures behind { IfOk result (λ x. at < x.1) }
    ensures within { IfOk result (λ x. x.1 ≤ length tokens.now) }
{
    let (_, from) = tokens.split_at(at);
    match term_behind(alloc, bytes, many, from) {
        Ok((read, left)) => {
            let (term, nodes_left) = read;
            Ok((term, tokens.len() - left, nodes_left))
        }
        Err(fault) => Err(fault),
    }
}

/// The term that begins at token `at`, counted from 0, where `nodes_left` nodes may be read, with the place of the token behind it and how
/// many nodes are left; or the first fault from there on.
///
/// No quantifier is around it: each of its variables is free. A term goes on as far as it can, and whatever stands behind it doesn't
/// count. The tokens are those of `lex` over the bytes. `Memory` may come at any tokens.
pub fn term_with(
    alloc: Global,
    bytes: &[u8],
    tokens: &[Token],
    at: usize,
    nodes_left: u32,
) -> Result<(Term, usize, u32), InputFault>
    requires length { length bytes.now < 2 ^ 32 }
    requires tokens { tokens_of bytes.now ≡ Ok tokens.now }
    requires at { at ≤ length tokens.now }
    requires nodes { nodes_left ≤ MOST_NODES }
    // The term is the grammar's, and a fault is at the first token that breaks a rule, or with which no term goes on.
    ensures answer { Holds (TermGives (λ x. ((x.0, x.2), drop x.1 (spelled_all bytes.now tokens.now))) nodes_left (length bytes.now) (spelled_all bytes.now tokens.now) at) result }
    // No other answer is right.
    ensures once { (told : Result (Term × ℕ × ℕ) InputFault) → TermGives (λ x. ((x.0, x.2), drop x.1 (spelled_all bytes.now tokens.now))) nodes_left (length bytes.now) (spelled_all bytes.now tokens.now) at told → Tells {Y = Counted Term × List Spelled} (λ x. ((x.0, x.2), drop x.1 (spelled_all bytes.now tokens.now))) result (viewed (λ x. ((x.0, x.2), drop x.1 (spelled_all bytes.now tokens.now))) told) }
    // A term that stands there, and that doesn't go on with the token behind it, is read.
    ensures complete { (term : Counted Term) (front rest : List Spelled) → drop at (spelled_all bytes.now tokens.now) ≡ front ++ rest → OneTerm nodes_left (Ok term) front → EndsBefore PlainTerm front rest → IsTree {A = Counted Term × List Spelled} (λ x. ((x.0, x.2), drop x.1 (spelled_all bytes.now tokens.now))) result (term, rest) }
    // It has no bound variable, and keeps the limit of depth.
    ensures fits { IfOk result (λ x. IsReadTerm x.0) }
    // Its nodes are those that aren't left.
    ensures counted { IfOk result (λ x. term_nodes x.0 + x.2 ≡ nodes_left) }
    // The number of a fault is 4, or one from 7 to 9.
    ensures faults { IfFault result IsTermPlaceFault }
    // The place behind it is behind that of its first token.
    ensures behind { IfOk result (λ x. at < x.1) }
    ensures within { IfOk result (λ x. x.1 ≤ length tokens.now) }
    // The same as one function of the tokens.
    ensures exact { Tells (λ x. ((x.0, x.2), drop x.1 (spelled_all bytes.now tokens.now))) result (told_of place_of (length bytes.now) (one_term_at nodes_left (drop at (spelled_all bytes.now tokens.now)))) }
{
    term_from(alloc, bytes, tokens, at, nodes_left)
}

fn lone_term_from(
    alloc: Global,
    bytes: &[u8],
    tokens: &[Token],
    at: usize,
) -> Result<(Term, usize), InputFault>
    requires length { length bytes.now < 2 ^ 32 }
    requires inside { AllIn bytes.now tokens.now }
    requires at { at ≤ length tokens.now }
    ensures exact { Tells (λ x. (x.0, drop x.1 (spelled_all bytes.now tokens.now))) result (told_of place_of (length bytes.now) (lone_term_at (drop at (spelled_all bytes.now tokens.now)))) }
    ensures behind { IfOk result (λ x. at < x.1) }
    ensures within { IfOk result (λ x. x.1 ≤ length tokens.now) }
{
    match term_from(alloc, bytes, tokens, at, MOST_NODES) {
        Ok((term, next, _)) => Ok((term, next)),
        Err(fault) => Err(fault),
    }
}

/// The same with 1,000 nodes: the term, and the place of the token behind it.
pub fn term_at(
    alloc: Global,
    bytes: &[u8],
    tokens: &[Token],
    at: usize,
) -> Result<(Term, usize), InputFault>
    requires length { length bytes.now < 2 ^ 32 }
    requires tokens { tokens_of bytes.now ≡ Ok tokens.now }
    requires at { at ≤ length tokens.now }
    // The term is the grammar's, and a fault is at the first token that breaks a rule, or with which no term goes on.
    ensures answer { Holds (LoneTermGives (length bytes.now) (spelled_all bytes.now tokens.now) at) result }
    // No other answer is right.
    ensures once { (told : Result (Term × ℕ) InputFault) → LoneTermGives (length bytes.now) (spelled_all bytes.now tokens.now) at told → Tells {Y = Term × List Spelled} (λ x. (x.0, drop x.1 (spelled_all bytes.now tokens.now))) result (viewed (λ x. (x.0, drop x.1 (spelled_all bytes.now tokens.now))) told) }
    // A term that stands there, and that doesn't go on with the token behind it, is read.
    ensures complete { (term : Term) (front rest : List Spelled) → drop at (spelled_all bytes.now tokens.now) ≡ front ++ rest → LoneTerm (Ok term) front → EndsBefore PlainTerm front rest → IsTree {A = Term × List Spelled} (λ x. (x.0, drop x.1 (spelled_all bytes.now tokens.now))) result (term, rest) }
    // It has no bound variable, and is no deeper and no larger than the limits.
    ensures fits { IfOk result (λ x. IsReadTerm x.0) }
    ensures small { IfOk result (λ x. term_nodes x.0 ≤ MOST_NODES) }
    // The number of a fault is 4, or one from 7 to 9.
    ensures faults { IfFault result IsTermPlaceFault }
    // The place behind it is behind that of its first token.
    ensures behind { IfOk result (λ x. at < x.1) }
    ensures within { IfOk result (λ x. x.1 ≤ length tokens.now) }
    // The same as one function of the tokens.
    ensures exact { Tells (λ x. (x.0, drop x.1 (spelled_all bytes.now tokens.now))) result (told_of place_of (length bytes.now) (lone_term_at (drop at (spelled_all bytes.now tokens.now)))) }
{
    lone_term_from(alloc, bytes, tokens, at)
}
