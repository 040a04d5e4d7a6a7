// The logic of a specification.
use lgc_values::{List, Name, Operator, Quantifier};

/// The logic that a specification gives: its name, which is empty where none is told, the names of its truth values, the mask
/// of the designated ones, its operators and its quantifiers, in the order of the file.
#[derive(Debug, Drop)]
pub struct Spec {
    pub name: Name,
    pub values: List<Name>,
    pub designated: u16,
    pub operators: List<Operator>,
    pub quantifiers: List<Quantifier>,
}
