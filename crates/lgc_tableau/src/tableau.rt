// Dual tableaux.
use lgc_syntax::Formula;
use lgc_values::List;
use sqlite_items::Boxed;

/// A case of a split: what it adds to the branch, one item for each argument of the split formula, and the tableau below. The items are of
/// a type `S`, which is that of signed formulas over some number of truth values.
#[derive(Drop)]
#[cycle(tableau)]
pub struct Case<S> {
    pub added: List<S>,
    pub below: Boxed<Tableau<S>>,
}

/// A dual tableau, over items of a type `S`.
///
/// - `Closed`: the formula carries all truth values on the branch.
/// - `Split`: a formula with the sign that it has on the branch, and one case for each clause of a rule of its operator at this sign. What
///   the signed formula says is said by all cases together.
#[derive(Drop)]
#[cycle(tableau)]
pub enum Tableau<S> {
    Closed { by: Formula },
    Split { on: S, cases: List<Case<S>> },
}
