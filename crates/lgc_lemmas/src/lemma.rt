// Lemmas.
use lgc_packed::Packed;
use lgc_values::List;
use std::marker::Model;

/// Why a lemma holds: some formula carries all truth values, or by the rule with a number, counted from 1, on the principal formula,
/// from the lemmas at these places, counted from 0, one for each clause of the rule.
#[derive(Drop)]
pub enum Reason {
    Axiom,
    ByRule {
        rule: u32,
        principal: u64,
        cited: List<u64>,
    },
}

/// A sequent with the reason for which it holds.
#[derive(Drop)]
pub struct Lemma<const N: usize> {
    pub sequent: Packed<N>,
    pub reason: Reason,
}

impl<const N: usize> Model for Lemma<N> {
    ghost use Rattle.lgc_lemmas.specs.Plain.{PlainLemma};

    ghost Value = { PlainLemma };

    ghost view = { λ lemma. record { sequent = lemma.sequent; reason = lemma.reason } };
}
