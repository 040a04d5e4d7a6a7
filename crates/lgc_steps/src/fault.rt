// Why a line isn't a step.

/// The first part in which a line isn't a step. The parts are looked at in the order of the variants, as far as the line's reason has them.
#[derive(Clone, Copy, Debug, PartialEq, Eq)]
pub enum StepFault {
    /// No rule has the position that the reason names.
    UnknownRule,
    /// A cited line doesn't stand before this one.
    NotEarlier,
    /// There isn't one premise for each clause, or a premise doesn't have one term for each set of its clause that asks for one.
    Premises,
    /// The principal formula's outermost symbol isn't the rule's, or its sign in the conclusion lacks a value of the rule's sign.
    Sign,
    /// A premise has a value of a formula that lies neither in the conclusion nor in a set of the clause that stands on the formula. Under
    /// resolution, a cited line has a value of another formula that doesn't lie in the conclusion, or both have a value of the formula
    /// resolved on that doesn't.
    Foreign,
    /// A term for an `all` set isn't a free variable, stands for two `all` sets of its premise, or is free in the conclusion.
    Eigenvariable,
    /// No formula carries all truth values.
    Incomplete,
}
