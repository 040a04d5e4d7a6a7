// Quantifiers.
ghost use Rattle.std.specs.Prelude.{◌≡◌, ◌≤◌, List, length, map, All, IfOk};
ghost use Rattle.std.specs.Str.{bytes_eq};
ghost use Rattle.std.specs.List.{list_any};
ghost use Rattle.lgc_values.specs.declared.TheConstants.{MOST_VALUES};
ghost use Rattle.lgc_parser.specs.declared.tree.Word.{Word};
ghost use Rattle.lgc_parser.specs.declared.tree.QuantBody.{QuantBody};
ghost use Rattle.lgc_parser.specs.TreeWords.{QuantBodyHas, StatementHas};
ghost use Rattle.lgc_spec.specs.Faults.{Passes, Answers};
ghost use Rattle.lgc_spec.specs.Words.{LiesIn, text_of};
ghost use Rattle.lgc_spec.specs.Orderings.{Ordered};
ghost use Rattle.lgc_spec.specs.KeptOrders.{AreKept};
ghost use Rattle.lgc_spec.specs.Folds.{HasRows};
ghost use Rattle.lgc_spec.specs.Quantifiers.{symbol_fault, BodyGives, QuantifierGives, QuantifiersGive};

use crate::bounds::set_bound_given;
use crate::distribution::distribution_given;
use crate::fault::{DUPLICATE_NAME, SpecFault, TOO_MANY_SYMBOLS, fault_at};
use crate::induced::induced_given;
use crate::operators::has_operator;
use crate::orderings::NamedOrder;
use crate::words::text_of;
use lgc_parser::{QuantBody, Statement, Word};
use lgc_values::{List, Name, Operator, Quantifier};
use std::alloc::Global;

/// The greatest number of quantifiers of a specification.
pub(crate) const MOST_QUANTIFIERS: usize = 64;

fn has_quantifier(quantifiers: &[Quantifier], name: &[u8]) -> bool
    ensures { result ≡ list_any (λ q. bytes_eq q.name name.now) quantifiers.now }
{
    quantifiers
        .iter()
        .any(|quantifier| quantifier.name.bytes() == name)
}

// That a quantifier may have this name behind these ones.
fn check_name(
    bytes: &[u8],
    operators: &[Operator],
    quantifiers: &[Quantifier],
    name: &Word,
) -> Result<(), SpecFault>
    requires { LiesIn (length bytes.now) name.now }
    ensures { Passes result (symbol_fault bytes.now (map (λ o. o.name) operators.now) (map (λ q. q.name) quantifiers.now) name.now) }
{
    if quantifiers.len() >= MOST_QUANTIFIERS {
        return Err(fault_at(TOO_MANY_SYMBOLS, name.at));
    }
    let text = text_of(bytes, name);
    if has_operator(operators, text) || has_quantifier(quantifiers, text) {
        return Err(fault_at(DUPLICATE_NAME, name.at));
    }
    Ok(())
}

// The table of a quantifier's body.
fn body_given(
    alloc: Global,
    bytes: &[u8],
    names: &[Name],
    orders: &[NamedOrder],
    operators: &[Operator],
    body: &QuantBody,
) -> Result<List<u8>, SpecFault>
    requires body { QuantBodyHas (LiesIn (length bytes.now)) body.now }
    requires orders { All (λ o. LiesIn (length bytes.now) o.name) orders.now }
    requires sizes { All (λ o. o.order.size ≡ length names.now) orders.now }
    requires some { 2 ≤ length names.now }
    requires few { length names.now ≤ MOST_VALUES }
    requires tables { All (λ o. HasRows (length names.now) o.arity o.table) operators.now }
    ensures { (orderings : List Ordered) → AreKept bytes.now (length names.now) orders.now orderings
        → Answers (BodyGives bytes.now names.now orderings operators.now body.now) result }
{
    match body {
        QuantBody::Mapping { rows, close } => {
            distribution_given(alloc, bytes, names, rows.items(), *close)
        }
        QuantBody::Induced { operator, arity } => {
            induced_given(alloc, bytes, names, operators, operator, arity)
        }
        QuantBody::Bound {
            at,
            lower,
            ordering,
        } => set_bound_given(alloc, bytes, names, orders, *at, *lower, ordering),
    }
}

// The quantifier that a statement writes, behind these ones.
fn quantifier_given(
    alloc: Global,
    bytes: &[u8],
    names: &[Name],
    orders: &[NamedOrder],
    operators: &[Operator],
    earlier: &[Quantifier],
    name: &Word,
    body: &QuantBody,
) -> Result<Quantifier, SpecFault>
    requires name { LiesIn (length bytes.now) name.now }
    requires body { QuantBodyHas (LiesIn (length bytes.now)) body.now }
    requires orders { All (λ o. LiesIn (length bytes.now) o.name) orders.now }
    requires sizes { All (λ o. o.order.size ≡ length names.now) orders.now }
    requires some { 2 ≤ length names.now }
    requires few { length names.now ≤ MOST_VALUES }
    requires tables { All (λ o. HasRows (length names.now) o.arity o.table) operators.now }
    ensures gives { (orderings : List Ordered) → AreKept bytes.now (length names.now) orders.now orderings
        → (before : List (Word × QuantBody)) → map (λ q. q.name) earlier.now ≡ map (λ q. text_of bytes.now q.0) before
        → Answers (QuantifierGives bytes.now names.now orderings operators.now before (name.now, body.now)) result }
    ensures name { IfOk result (λ quantifier. quantifier.name ≡ text_of bytes.now name.now) }
{
    check_name(bytes, operators, earlier, name)?;
    let table = body_given(alloc, bytes, names, orders, operators, body)?;
    let name = Name::of_bytes(alloc, text_of(bytes, name))?;
    Ok(Quantifier { name, table })
}

/// The quantifiers of a file.
pub(crate) fn quantifiers_given(
    alloc: Global,
    bytes: &[u8],
    names: &[Name],
    orders: &[NamedOrder],
    operators: &[Operator],
    statements: &[Statement],
) -> Result<List<Quantifier>, SpecFault>
    requires words { All (StatementHas (LiesIn (length bytes.now))) statements.now }
    requires orders { All (λ o. LiesIn (length bytes.now) o.name) orders.now }
    requires sizes { All (λ o. o.order.size ≡ length names.now) orders.now }
    requires some { 2 ≤ length names.now }
    requires few { length names.now ≤ MOST_VALUES }
    requires tables { All (λ o. HasRows (length names.now) o.arity o.table) operators.now }
    ensures { (orderings : List Ordered) → AreKept bytes.now (length names.now) orders.now orderings
        → Answers (QuantifiersGive bytes.now names.now orderings operators.now statements.now) result }
{
    let mut quantifiers = List::new(alloc);
    for statement in statements {
        if let Statement::Quantifier { name, body } = statement {
            let earlier = quantifiers.items();
            let quantifier = quantifier_given(
                alloc, bytes, names, orders, operators, earlier, name, body,
            )?;
            quantifiers.push(quantifier)?;
        }
    }
    Ok(quantifiers)
}
