// Lists of formulas.
ghost use Rattle.std.specs.Prelude.{[], IfOk};
ghost use Rattle.lgc_lexer.specs.Spans.{AllIn};
ghost use Rattle.lgc_tokens.specs.Spelled.{IsRest, IsShorter};
ghost use Rattle.lgc_tokens.specs.Gives.{GivesAs};
ghost use Rattle.lgc_formulas.specs.Named.{named_all};
ghost use Rattle.lgc_formulas.specs.Setting.{setting_of};
ghost use Rattle.lgc_formulas.specs.FormulaReading.{one_formula_at, comma_formula_at, more_formulas_at, formula_list_at};

use crate::context::Context;
use crate::formula::{Formulas, one_formula, with_formula};
use crate::token::{next_is, one};
use lgc_lexer::Token;
use lgc_syntax::WRONG_ARITY;
use lgc_tokens::{Class, Reading, Stop};
use lgc_values::List;
use std::alloc::Global;

// A comma and a formula, behind these.
#[tactic(auto, unfolding(crate::specs::FormulaReading::comma_formula_at))]
fn comma_formula<'a, const N: usize>(
    alloc: Global,
    c: &Context<N>,
    before: Formulas,
    tokens: &'a [Token],
) -> Reading<'a, Formulas>
    requires { AllIn c.now.bytes.now tokens.now }
    ensures gives { GivesAs (named_all c.now.m.now c.now.bytes.now) (λ x. (x.0, named_all c.now.m.now c.now.bytes.now x.1.now)) result (comma_formula_at (one_formula_at (setting_of c.now)) before (named_all c.now.m.now c.now.bytes.now tokens.now)) }
    ensures rest { IfOk result (λ x. IsShorter c.now.bytes.now tokens.now x.1.now) }
{
    let Formulas {
        list,
        nodes_left,
        is_bare,
    } = before;
    if is_bare {
        return Err(if next_is(c, Class::Comma, tokens) {
            Stop::Breaks(WRONG_ARITY, tokens)
        } else {
            Stop::Unexpected(tokens)
        });
    }
    let (_, rest) = one(c, Class::Comma, tokens)?;
    let (next, rest) = one_formula(alloc, c, nodes_left, rest)?;
    let formulas = with_formula(list, next)?;
    Ok((formulas, rest))
}

// Formulas behind these, each behind a comma.
fn more_formulas<'a, const N: usize>(
    alloc: Global,
    c: &Context<N>,
    before: Formulas,
    tokens: &'a [Token],
) -> Reading<'a, Formulas>
    requires { AllIn c.now.bytes.now tokens.now }
    ensures gives { GivesAs (named_all c.now.m.now c.now.bytes.now) (λ x. (x.0, named_all c.now.m.now c.now.bytes.now x.1.now)) result (more_formulas_at (one_formula_at (setting_of c.now)) before (named_all c.now.m.now c.now.bytes.now tokens.now)) }
    ensures rest { IfOk result (λ x. IsRest c.now.bytes.now tokens.now x.1.now) }
{
    let mut formulas = before;
    let mut rest = tokens;
    while next_is(c, Class::Comma, rest) {
        let (next, behind) = comma_formula(alloc, c, formulas, rest)?;
        formulas = next;
        rest = behind;
    }
    Ok((formulas, rest))
}

/// One formula or more, with commas between them, where `many` nodes are left. The last of them may be bare.
///
/// Whoever reads on behind the list bars it: where the last formula is bare, the rule of the number of arguments is broken by each token
/// that could go on there.
#[tactic(auto, unfolding(crate::specs::FormulaReading::formula_list_at))]
pub fn formula_list<'a, const N: usize>(
    alloc: Global,
    c: &Context<N>,
    many: u32,
    tokens: &'a [Token],
) -> Reading<'a, Formulas>
    requires { AllIn c.now.bytes.now tokens.now }
    ensures gives { GivesAs (named_all c.now.m.now c.now.bytes.now) (λ x. (x.0, named_all c.now.m.now c.now.bytes.now x.1.now)) result (formula_list_at (one_formula_at (setting_of c.now)) many (named_all c.now.m.now c.now.bytes.now tokens.now)) }
    ensures rest { IfOk result (λ x. IsShorter c.now.bytes.now tokens.now x.1.now) }
{
    let (first, rest) = one_formula(alloc, c, many, tokens)?;
    let room = List::of_vec(Vec::with_capacity(alloc, 2)?);
    let formulas = with_formula(room, first)?;
    more_formulas(alloc, c, formulas, rest)
}
