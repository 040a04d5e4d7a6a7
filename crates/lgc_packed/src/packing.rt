// From sequents to sequents over numbers, and back.
ghost use Rattle.std.specs.Prelude.{◌≡◌, false, All, IfOk};
ghost use Rattle.std.specs.List.{Any};
ghost use Rattle.lgc_syntax.specs.Sizes.{has_quantifier};
ghost use Rattle.lgc_numbering.specs.Numbering.{IsNumbering};
ghost use Rattle.lgc_syntax.specs.Subformulas.{IsSubformula};
ghost use Rattle.lgc_numbering.specs.Growth.{IsGrownBy};
ghost use Rattle.lgc_packed.specs.Packed.{unpacked};
ghost use Rattle.lgc_packed.specs.Packing.{AreKnown, IsPackOf, IsTrueAs};

use crate::Packed;
use lgc_numbering::Formulas;
use lgc_sequents::Sequent;
use std::alloc::{AllocError, Global};

/// The sequent over numbers of a sequent without quantifiers: the pair of each item's number and sign, and no other. Formulas that have no
/// number yet are appended with their subformulas; after want of memory some of them may have been.
pub fn pack<const N: usize>(
    alloc: Global,
    s: &Sequent<N>,
    formulas: &mut Formulas,
) -> Result<Packed<N>, AllocError>
    requires { All (λ item. has_quantifier item.formula ≡ false) s.now }
    ensures packed { IfOk result (IsPackOf formulas.new s.now) }
    ensures truth { IfOk result (IsTrueAs formulas.new s.now) }
    ensures grown { IsGrownBy (λ g. Any (λ item. IsSubformula g item.formula) s.now) formulas.old formulas.new }
    ensures numbering { IsNumbering formulas.new }
{
    // The formulas are numbered already: `nodes` says so.
    let _nodes = formulas.nodes();
    let items = s.items();
    let mut packed = Packed::new(alloc);
    for item in items {
        let number = formulas.number_of(&item.formula)?;
        packed.add(number, item.sign)?;
    }
    Ok(packed)
}

/// The sequent of the formulas with these numbers, in the order of the pairs. It is true where the one over numbers is.
pub fn unpack<const N: usize>(
    alloc: Global,
    p: &Packed<N>,
    formulas: &Formulas,
) -> Result<Sequent<N>, AllocError>
    requires { AreKnown formulas.now p.now }
    ensures items { IfOk result (λ s. s ≡ unpacked formulas.now p.now) }
    ensures truth { IfOk result (λ s. IsTrueAs formulas.now s p.now) }
{
    // No two numbers are of one formula: `nodes` says so.
    let _nodes = formulas.nodes();
    let pairs = p.pairs();
    let mut sequent = Sequent::new(alloc);
    for pair in pairs {
        let formula = formulas.formula(pair.0)?;
        sequent.add_new(formula, pair.1)?;
    }
    Ok(sequent)
}
