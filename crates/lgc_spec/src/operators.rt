// Operators.
ghost use Rattle.std.specs.Prelude.{◌≡◌, ◌<◌, ◌≤◌, ◌^◌, List, length, map, All, IfOk, MatchOption};
ghost use Rattle.std.specs.Str.{bytes_eq};
ghost use Rattle.std.specs.List.{list_any};
ghost use Rattle.lgc_values.specs.declared.TheConstants.{MOST_VALUES, MOST_ARGUMENTS, MOST_ROWS};
ghost use Rattle.lgc_tokens.specs.Numbers.{number_of};
ghost use Rattle.lgc_parser.specs.TreeWords.{OpBodyHas, StatementHas};
ghost use Rattle.lgc_spec.specs.Faults.{Gives, Passes, Answers};
ghost use Rattle.lgc_spec.specs.Words.{LiesIn, text_of};
ghost use Rattle.lgc_spec.specs.Orderings.{Ordered};
ghost use Rattle.lgc_spec.specs.KeptOrders.{AreKept};
ghost use Rattle.lgc_spec.specs.Operators.{arity_given, name_fault, BodyGives, OperatorGives, OperatorsGive};

use crate::bounds::bound_given;
use crate::fault::{ARITY_TOO_LARGE, DUPLICATE_NAME, SpecFault, TOO_MANY_SYMBOLS, fault_at};
use crate::mapping::mapping_given;
use crate::orderings::NamedOrder;
use crate::table::table_given;
use crate::words::text_of;
use lgc_parser::{OpBody, Statement, Word};
use lgc_values::{List, MOST_ARGUMENTS, MOST_ROWS, Name, Operator};
use std::alloc::Global;

/// The greatest number of operators of a specification.
pub(crate) const MOST_OPERATORS: usize = 64;

/// The number that digits write, where it is small enough for an arity.
pub(crate) fn arity_of(digits: &[u8]) -> Option<u8>
    ensures { MatchOption result (MOST_ARGUMENTS < number_of digits.now)
        (λ arity. (arity ≡ number_of digits.now) × (arity ≤ MOST_ARGUMENTS)) }
{
    let mut arity = 0;
    for digit in digits {
        arity = 10 * arity + digit.saturating_sub(b'0');
        if arity > MOST_ARGUMENTS {
            return None;
        }
    }
    Some(arity)
}

// The arity that a word writes, for an operator of `n` values.
fn arity_given(bytes: &[u8], n: usize, word: &Word) -> Result<u8, SpecFault>
    requires word { LiesIn (length bytes.now) word.now }
    requires some { 0 < n }
    requires few { n ≤ MOST_VALUES }
    ensures arity { Gives (λ arity. arity) result (arity_given bytes.now n word.now) }
    ensures narrow { IfOk result (λ arity. arity ≤ MOST_ARGUMENTS) }
    ensures short { IfOk result (λ arity. n ^ arity ≤ MOST_ROWS) }
{
    match arity_of(text_of(bytes, word)) {
        Some(arity) if n.pow(u32::from(arity)) <= MOST_ROWS => Ok(arity),
        _ => Err(fault_at(ARITY_TOO_LARGE, word.at)),
    }
}

/// Whether an operator has this name.
pub(crate) fn has_operator(operators: &[Operator], name: &[u8]) -> bool
    ensures { result ≡ list_any (λ o. bytes_eq o.name name.now) operators.now }
{
    operators
        .iter()
        .any(|operator| operator.name.bytes() == name)
}

// That an operator may have this name behind these ones.
fn check_name(bytes: &[u8], operators: &[Operator], name: &Word) -> Result<(), SpecFault>
    requires { LiesIn (length bytes.now) name.now }
    ensures { Passes result (name_fault bytes.now (map (λ o. o.name) operators.now) name.now) }
{
    if operators.len() >= MOST_OPERATORS {
        return Err(fault_at(TOO_MANY_SYMBOLS, name.at));
    }
    if has_operator(operators, text_of(bytes, name)) {
        return Err(fault_at(DUPLICATE_NAME, name.at));
    }
    Ok(())
}

// The table of an operator's body.
fn body_given(
    alloc: Global,
    bytes: &[u8],
    names: &[Name],
    orders: &[NamedOrder],
    arity: u8,
    body: &OpBody,
) -> Result<List<u8>, SpecFault>
    requires body { OpBodyHas (LiesIn (length bytes.now)) body.now }
    requires orders { All (λ o. LiesIn (length bytes.now) o.name) orders.now }
    requires sizes { All (λ o. o.order.size ≡ length names.now) orders.now }
    requires some { 2 ≤ length names.now }
    requires few { length names.now ≤ MOST_VALUES }
    requires narrow { arity ≤ MOST_ARGUMENTS }
    requires short { length names.now ^ arity ≤ MOST_ROWS }
    ensures { (orderings : List Ordered) → AreKept bytes.now (length names.now) orders.now orderings
        → Answers (BodyGives bytes.now names.now orderings arity body.now) result }
{
    match body {
        OpBody::Mapping { rows, close } => {
            mapping_given(alloc, bytes, names, arity, rows.items(), *close)
        }
        OpBody::Table { at, cells } => {
            table_given(alloc, bytes, names, arity, *at, cells.items())
        }
        OpBody::Bound {
            at,
            lower,
            ordering,
        } => bound_given(alloc, bytes, names, orders, arity, *at, *lower, ordering),
    }
}

// The operator that a statement writes, behind these ones.
fn operator_given(
    alloc: Global,
    bytes: &[u8],
    names: &[Name],
    orders: &[NamedOrder],
    earlier: &[Operator],
    name: &Word,
    arity: &Word,
    body: &OpBody,
) -> Result<Operator, SpecFault>
    requires name { LiesIn (length bytes.now) name.now }
    requires arity { LiesIn (length bytes.now) arity.now }
    requires body { OpBodyHas (LiesIn (length bytes.now)) body.now }
    requires orders { All (λ o. LiesIn (length bytes.now) o.name) orders.now }
    requires sizes { All (λ o. o.order.size ≡ length names.now) orders.now }
    requires some { 2 ≤ length names.now }
    requires few { length names.now ≤ MOST_VALUES }
    ensures gives { (orderings : List Ordered) → AreKept bytes.now (length names.now) orders.now orderings
        → (before : List (Word × Word × OpBody)) → map (λ o. o.name) earlier.now ≡ map (λ o. text_of bytes.now o.0) before
        → Answers (OperatorGives bytes.now names.now orderings before (name.now, arity.now, body.now)) result }
    ensures name { IfOk result (λ operator. operator.name ≡ text_of bytes.now name.now) }
{
    check_name(bytes, earlier, name)?;
    let arity = arity_given(bytes, names.len(), arity)?;
    let table = body_given(alloc, bytes, names, orders, arity, body)?;
    let name = Name::of_bytes(alloc, text_of(bytes, name))?;
    Ok(Operator { name, arity, table })
}

/// The operators of a file.
pub(crate) fn operators_given(
    alloc: Global,
    bytes: &[u8],
    names: &[Name],
    orders: &[NamedOrder],
    statements: &[Statement],
) -> Result<List<Operator>, SpecFault>
    requires words { All (StatementHas (LiesIn (length bytes.now))) statements.now }
    requires orders { All (λ o. LiesIn (length bytes.now) o.name) orders.now }
    requires sizes { All (λ o. o.order.size ≡ length names.now) orders.now }
    requires some { 2 ≤ length names.now }
    requires few { length names.now ≤ MOST_VALUES }
    ensures { (orderings : List Ordered) → AreKept bytes.now (length names.now) orders.now orderings
        → Answers (OperatorsGive bytes.now names.now orderings statements.now) result }
{
    let mut operators = List::new(alloc);
    for statement in statements {
        if let Statement::Operator { name, arity, body } = statement {
            let earlier = operators.items();
            let operator = operator_given(alloc, bytes, names, orders, earlier, name, arity, body)?;
            operators.push(operator)?;
        }
    }
    Ok(operators)
}
