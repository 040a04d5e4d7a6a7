// Signed formulas.
use lgc_syntax::Formula;
use lgc_values::ValueSet;
use std::marker::Model;

/// A formula with a sign, a set of truth values. It holds where the formula's value lies in the sign.
#[derive(Drop)]
pub struct Signed<const N: usize> {
    pub formula: Formula,
    pub sign: ValueSet<N>,
}

impl<const N: usize> Model for Signed<N> {
    ghost use Rattle.lgc_sequents.specs.Signed.{SignedFormula, signed_code};

    ghost Value = { SignedFormula };

    ghost coded = { signed_code };

    ghost view = { λ item. record { formula = item.formula; sign = item.sign } };
}
