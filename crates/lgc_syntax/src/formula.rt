// Terms and formulas.
use lgc_values::{List, Name};
use sqlite_items::Boxed;

/// A term: a bound variable, a free variable, or a function with its arguments, of which a constant has none.
///
/// `Bound(0)` is the variable of the innermost quantifier around it, `Bound(1)` that of the next one, and so on. A function symbol is
/// a name with its number of arguments.
#[derive(Drop)]
pub enum Term {
    Bound(u32),
    Free(Name),
    Apply(Name, List<Term>),
}

/// A formula: an atom, which is a predicate with its arguments, an operator with its arguments, or a quantifier with its body.
///
/// Operators and quantifiers are those of a logic, by their numbers from 0. A predicate is told by its name and by how many
/// arguments it has.
#[derive(Drop)]
pub enum Formula {
    Atom(Name, List<Term>),
    Op(u16, List<Formula>),
    Quant(u16, Boxed<Formula>),
}
