// Formulas by their parts.
use lgc_syntax::Formula;
use lgc_values::List;

/// A formula without quantifiers, by its parts: an atom, or operator `op`, counted from 0, with the numbers of its arguments.
#[derive(Drop)]
pub enum Node {
    Atom(Formula),
    Compound { op: u16, args: List<u64> },
}
