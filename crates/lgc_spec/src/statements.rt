// The statements that come once.
ghost use Rattle.std.specs.Prelude.{◌≡◌, option_map, option_copied};
ghost use Rattle.std.specs.List.{list_any};
ghost use Rattle.lgc_spec.specs.Faults.{Passes};
ghost use Rattle.lgc_spec.specs.Statements.{is_single, same_kind, keyword_of, comes_again, first_second, first_some, name_in, values_in, designated_in};

use crate::fault::{DUPLICATE_STATEMENT, SpecFault, fault_at};
use lgc_parser::{Statement, Word};

// Whether there is at most one statement of this kind.
fn is_single(statement: &Statement) -> bool
    ensures { result ≡ is_single statement.now }
{
    matches!(
        statement,
        Statement::Logic { .. } | Statement::Values { .. } | Statement::Designated { .. }
    )
}

// Whether both statements are of one kind, of which there is at most one.
fn same_kind(a: &Statement, b: &Statement) -> bool
    ensures { result ≡ same_kind a.now b.now }
{
    match (a, b) {
        (Statement::Logic { .. }, Statement::Logic { .. }) => true,
        (Statement::Values { .. }, Statement::Values { .. }) => true,
        (Statement::Designated { .. }, Statement::Designated { .. }) => true,
        _ => false,
    }
}

fn keyword_of(statement: &Statement) -> u32
    ensures { result ≡ keyword_of statement.now }
{
    match statement {
        Statement::Logic { at, .. } => *at,
        Statement::Values { at, .. } => *at,
        Statement::Designated { at, .. } => *at,
        _ => 0,
    }
}

fn has_kind(statement: &Statement, statements: &[Statement]) -> bool
    ensures { result ≡ list_any (same_kind statement.now) statements.now }
{
    statements.iter().any(|other| same_kind(statement, other))
}

// Only a statement of whose kind there is at most one is compared with those before it: the others may be many.
#[tactic(auto, using(crate::proofs::StatementLaws::never_again))]
fn comes_again(before: &[Statement], statement: &Statement) -> bool
    ensures { result ≡ comes_again before.now statement.now }
{
    is_single(statement) && has_kind(statement, before)
}

/// That no statement comes a second time that comes at most once.
pub(crate) fn check_single(statements: &[Statement]) -> Result<(), SpecFault>
    ensures { Passes result (first_second statements.now) }
{
    for (i, statement) in statements.iter().enumerate() {
        if comes_again(&statements[..i], statement) {
            return Err(fault_at(DUPLICATE_STATEMENT, keyword_of(statement)));
        }
    }
    Ok(())
}

fn name_in(statement: &Statement) -> Option<Word>
    ensures { result ≡ name_in statement.now }
{
    match statement {
        Statement::Logic { name, .. } => Some(*name),
        _ => None,
    }
}

fn values_in(statement: &Statement) -> Option<(u32, &[Word])>
    ensures { option_map (λ part. (part.0, part.1.now)) result ≡ values_in statement.now }
{
    match statement {
        Statement::Values { at, values } => Some((*at, values.items())),
        _ => None,
    }
}

fn designated_in(statement: &Statement) -> Option<&[Word]>
    ensures { option_copied result ≡ designated_in statement.now }
{
    match statement {
        Statement::Designated { values, .. } => Some(values.items()),
        _ => None,
    }
}

/// The name of the logic.
pub(crate) fn logic_name(statements: &[Statement]) -> Option<Word>
    ensures { result ≡ first_some name_in statements.now }
{
    for statement in statements {
        if let Some(name) = name_in(statement) {
            return Some(name);
        }
    }
    None
}

/// The keyword and the words of the truth values.
pub(crate) fn truth_values(statements: &[Statement]) -> Option<(u32, &[Word])>
    ensures { option_map (λ part. (part.0, part.1.now)) result ≡ first_some values_in statements.now }
{
    for statement in statements {
        if let Some((at, words)) = values_in(statement) {
            return Some((at, words));
        }
    }
    None
}

/// The words of the designated values.
pub(crate) fn designated_values(statements: &[Statement]) -> Option<&[Word]>
    ensures { option_copied result ≡ first_some designated_in statements.now }
{
    for statement in statements {
        if let Some(words) = designated_in(statement) {
            return Some(words);
        }
    }
    None
}
