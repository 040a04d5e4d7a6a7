// What is said of reports.

/// A part of a report. The items of each part have positions, which are counted from 1.
#[derive(Clone, Copy, Debug, PartialEq, Eq)]
pub enum Place {
    Rule,
    Line,
    Claim,
}

/// Why a report isn't valid: what one of its items lacks. Of the causes that an item has, the first one is told, in the order of the
/// variants.
#[derive(Clone, Copy, Debug, PartialEq, Eq)]
pub enum Cause {
    /// The rule isn't exact: the first row, by its index, at which the table and its clauses differ.
    Inexact(u32),
    /// No rule has the position that the line names.
    UnknownRule,
    /// No line before this one, or for a claim no line at all, has a position that is cited.
    UnknownLine,
    /// There isn't one premise for each clause, or a premise doesn't have one term for each set of its clause that asks for one.
    Premises,
    /// The principal formula's outermost symbol isn't the rule's, or its sign in the line lacks a value of the rule's sign.
    Sign,
    /// A cited line has a value of a formula that may not stand in it.
    Foreign,
    /// A term for an `all` set isn't a free variable, stands for two `all` sets of its premise, or is free in the line.
    Eigenvariable,
    /// No formula of an axiom carries all truth values.
    Incomplete,
    /// The claim doesn't cite one line for each goal of its query, or a line isn't included in its goal or in the sequent that is claimed.
    NotIncluded,
    /// The query has a quantifier, its atoms aren't listed, or the valuation satisfies it.
    NotRefuted,
    /// The number that is written before the item isn't its position.
    Misnumbered,
    /// A cited line rests on a pending one. Under an unfinished claim, none of the cited lines does.
    Pending,
}

/// What is said of a report.
#[derive(Clone, Copy, Debug, PartialEq, Eq)]
pub enum Verdict {
    /// It is valid.
    Accepted,
    /// It isn't: this is the first of its items that has a cause, and its first cause.
    Rejected {
        place: Place,
        position: u64,
        cause: Cause,
    },
}

/// The first item of a part that has a cause, by its position, and its first cause.
#[derive(Clone, Copy)]
pub(crate) struct Fault {
    pub(crate) position: u64,
    pub(crate) cause: Cause,
}
