// What is decided of a goal.
use lgc_lemmas::Lemmas;
use lgc_meaning::Valuation;
use lgc_numbering::Formulas;

/// What is decided of a goal: it includes the lemma at a place, counted from 0, over formulas with numbers; or it is false under a
/// valuation.
#[derive(Drop)]
pub enum Decided<const N: usize> {
    Proved {
        formulas: Formulas,
        lemmas: Lemmas<N>,
        place: u64,
    },
    Refuted(Valuation),
}
