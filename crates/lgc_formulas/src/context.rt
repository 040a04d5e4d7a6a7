// What formulas are read against.
ghost use Rattle.std.specs.Prelude.{◌≡◌};
ghost use Rattle.lgc_formulas.specs.Setting.{setting_of, numbered};

use lgc_syntax::Formula;
use lgc_values::Matrix;

/// What formulas are read against: a logic, the bytes of the tokens, whether quantifiers may stand, and the formulas that a `#` and
/// a number stand for, counted from 1. Where these aren't given no formula begins with a `#`, and names may be long.
#[derive(Clone, Copy)]
pub struct Context<'a, const N: usize> {
    pub m: &'a Matrix<N>,
    pub bytes: &'a [u8],
    pub quantified: bool,
    pub lets: Option<&'a [Formula]>,
}

/// Whether formulas have numbers.
pub(crate) fn is_numbered<const N: usize>(c: &Context<N>) -> bool
    ensures { result ≡ numbered (setting_of c.now) }
{
    c.lets.is_some()
}
