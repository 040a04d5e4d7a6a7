// The numbers of formulas, by recursion on the formulas.
ghost use Rattle.std.specs.Prelude.{◌≡◌, Some, false, slice_get, IfOk};
ghost use Rattle.std.specs.List.{list_any, Any};
ghost use Rattle.lgc_syntax.specs.Sizes.{has_quantifier};
ghost use Rattle.lgc_numbering.specs.Store.{AreNumbersOf};
ghost use Rattle.lgc_syntax.specs.Subformulas.{IsSubformula};
ghost use Rattle.lgc_numbering.specs.Growth.{IsGrownBy};

use crate::Formulas;
use lgc_syntax::Formula;
use lgc_values::List;
use std::alloc::AllocError;

// The number of a formula.
#[cycle(number_in)]
pub(crate) fn number_in(f: &Formula, formulas: &mut Formulas) -> Result<u64, AllocError>
    requires { has_quantifier f.now ≡ false }
    ensures number { IfOk result (λ k. slice_get formulas.new k ≡ Some f.now) }
    ensures grown { IsGrownBy (λ g. IsSubformula g f.now) formulas.old formulas.new }
{
    match f {
        Formula::Atom(_, _) => formulas.number_of_atom(f),
        Formula::Op(op, args) => {
            let numbers = numbers_in(args.items(), formulas)?;
            formulas.number_of_compound(*op, numbers)
        }
        Formula::Quant(_, _) => unreachable!(),
    }
}

// The numbers of formulas.
#[cycle(number_in)]
fn numbers_in(fs: &[Formula], formulas: &mut Formulas) -> Result<List<u64>, AllocError>
    requires { list_any has_quantifier fs.now ≡ false }
    ensures numbers { IfOk result (λ numbers. AreNumbersOf formulas.new fs.now numbers) }
    ensures grown { IsGrownBy (λ g. Any (IsSubformula g) fs.now) formulas.old formulas.new }
{
    let mut numbers = formulas.no_numbers();
    for f in fs {
        numbers.push(number_in(f, formulas)?)?;
    }
    Ok(numbers)
}
