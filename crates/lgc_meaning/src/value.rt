// The value of a formula under a valuation.
ghost use Rattle.std.specs.Prelude.{◌≡◌, ◌<◌, false, All};
ghost use Rattle.lgc_values.specs.Values.{IsSize};
ghost use Rattle.lgc_values.specs.Logic.{IsOperator};
ghost use Rattle.lgc_syntax.specs.Fits.{Fits};
ghost use Rattle.lgc_syntax.specs.Sizes.{has_quantifier};
ghost use Rattle.lgc_syntax.specs.Values.{listed, value};
ghost use Rattle.lgc_meaning.specs.Operators.{with_operators};

use crate::Valuation;
use lgc_syntax::Formula;
use lgc_values::{Matrix, Operator};

/// The truth value of a formula without quantifiers under a valuation. An atom that isn't listed takes 0.
#[tactic(auto, using(crate::proofs::Operators::operator_rules))]
pub fn value_of<const N: usize>(m: &Matrix<N>, v: &Valuation, f: &Formula) -> u8
    requires fits { Fits m.now f.now }
    requires propositional { has_quantifier f.now ≡ false }
    requires values { All (λ entry. entry.1 < N) v.now }
    ensures value { result ≡ value m.now (listed v.now) f.now }
    ensures below { result < N }
{
    value_by_operators(f, m.operators(), N as u32, v)
}

// The value of a formula whose operators are these, over so many truth values.
//
// The recursion has no const parameter, since a call in it with conditions on the arguments would get no proof.
#[tactic(auto, using(crate::proofs::Rows::row_rules))]
fn value_by_operators(f: &Formula, operators: &[Operator], size: u32, v: &Valuation) -> u8
    requires size { IsSize size }
    requires operators { All (IsOperator size) operators.now }
    requires fits { Fits (with_operators size operators.now) f.now }
    requires values { All (λ entry. entry.1 < size) v.now }
    ensures value { result ≡ value (with_operators size operators.now) (listed v.now) f.now }
    ensures below { result < size }
{
    match f {
        Formula::Atom(_, _) => v.value_at(f),
        Formula::Op(op, args) => {
            let mut row = 0;
            for arg in args.items() {
                row = row * size + u32::from(value_by_operators(arg, operators, size, v));
            }
            operators[*op as usize].table.items()[row as usize]
        }
        Formula::Quant(_, _) => unreachable!(),
    }
}
