// What is answered to a goal.
use lgc_derivations::Derivation;
use lgc_meaning::Valuation;
use lgc_sequents::Sequent;

/// What is answered to a goal: a derivation whose conclusion it is, or a valuation under which it is false.
#[derive(Drop)]
pub enum Outcome<const N: usize> {
    Derived(Derivation<Sequent<N>>),
    Refuted(Valuation),
}
