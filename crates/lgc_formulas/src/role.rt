// What names mean in a logic.

/// What a logic has under a name: the operator or the quantifier with this number, from 0, or neither.
#[derive(Clone, Copy, Debug, PartialEq, Eq)]
pub enum Role {
    Operator(u16),
    Quantifier(u16),
    Neither,
}
