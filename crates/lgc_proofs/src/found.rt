// What is found of a goal.
use lgc_meaning::Valuation;

/// What is found of a goal: the position of a line with its items, counted from 1, or a valuation under which it is false.
#[derive(Drop)]
pub enum Found {
    Line(u64),
    Refuted(Valuation),
}
