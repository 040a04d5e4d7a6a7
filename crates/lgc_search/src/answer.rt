// What a search answers.
use lgc_packed::Packed;
use lgc_values::List;

/// An answer to a goal: the place of a lemma that the goal includes, or values of the numbered formulas under which the goal is false.
#[derive(Drop)]
pub enum Answer {
    Proved(u64),
    Refuted(List<u8>),
}

/// What is found of the premises of a step: lemmas for all of them, and what these have besides the clauses; a lemma that the goal
/// includes without its principal formula; or values under which a premise is false.
#[derive(Drop)]
pub(crate) enum Premises<const N: usize> {
    All { cited: List<u64>, kept: Packed<N> },
    Enough(u64),
    Refuted(List<u8>),
}
