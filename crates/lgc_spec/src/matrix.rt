// The matrix of a specification's logic.
ghost use Rattle.std.specs.Prelude.{◌≡◌, ◌<◌, ◌^◌, length, IfOk};
ghost use Rattle.lgc_values.specs.Logic.{IsLogic};
ghost use Rattle.lgc_spec.specs.Logics.{logic_of};

use crate::spec::Spec;
use lgc_values::{List, Matrix, Name, Operator, Quantifier, ValueSet};
use std::alloc::{AllocError, Global};

fn copy_names(alloc: Global, names: &[Name]) -> Result<List<Name>, AllocError>
    ensures { IfOk result (λ copies. copies ≡ names.now) }
{
    let mut copies = List::new(alloc);
    for name in names {
        copies.push(Name::of_bytes(alloc, name.bytes())?)?;
    }
    Ok(copies)
}

fn copy_table(alloc: Global, table: &[u8]) -> Result<List<u8>, AllocError>
    ensures { IfOk result (λ copy. copy ≡ table.now) }
{
    Ok(List::of_vec(Vec::from_slice(alloc, table)?))
}

fn copy_operators(alloc: Global, operators: &[Operator]) -> Result<List<Operator>, AllocError>
    ensures { IfOk result (λ copies. copies ≡ operators.now) }
{
    let mut copies = List::new(alloc);
    for operator in operators {
        let name = Name::of_bytes(alloc, operator.name.bytes())?;
        let table = copy_table(alloc, operator.table.items())?;
        let arity = operator.arity;
        copies.push(Operator { name, arity, table })?;
    }
    Ok(copies)
}

fn copy_quantifiers(
    alloc: Global,
    quantifiers: &[Quantifier],
) -> Result<List<Quantifier>, AllocError>
    ensures { IfOk result (λ copies. copies ≡ quantifiers.now) }
{
    let mut copies = List::new(alloc);
    for quantifier in quantifiers {
        let name = Name::of_bytes(alloc, quantifier.name.bytes())?;
        let table = copy_table(alloc, quantifier.table.items())?;
        copies.push(Quantifier { name, table })?;
    }
    Ok(copies)
}

/// The matrix of a specification with `N` truth values.
pub fn matrix_of<const N: usize>(alloc: Global, spec: &Spec) -> Result<Matrix<N>, AllocError>
    requires size { length spec.now.values ≡ N }
    requires logic { IsLogic (logic_of spec.now) }
    requires designated { spec.now.designated < 2 ^ N }
    ensures { IfOk result (λ matrix. matrix ≡ logic_of spec.now) }
{
    let names = copy_names(alloc, spec.values.items())?;
    let operators = copy_operators(alloc, spec.operators.items())?;
    let quantifiers = copy_quantifiers(alloc, spec.quantifiers.items())?;
    let designated = ValueSet::of_mask(spec.designated);
    Ok(Matrix::new(names, designated, operators, quantifiers))
}
