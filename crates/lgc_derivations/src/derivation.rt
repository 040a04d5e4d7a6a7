// Derivations.
use lgc_syntax::Formula;
use lgc_values::List;

/// A derivation with conclusions of a type `S`, which is that of sequents over some number of truth values.
///
/// - `Axiom`: some formula of the conclusion carries all truth values.
/// - `Step`: the principal formula is introduced by a rule, which is named by its position, counted from 1. There is a derivation of the
///   premise for each of its clauses.
#[derive(Drop)]
pub enum Derivation<S> {
    Axiom {
        conclusion: S,
    },
    Step {
        conclusion: S,
        rule: u32,
        principal: Formula,
        premises: List<Derivation<S>>,
    },
}
