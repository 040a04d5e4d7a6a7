//! What a valid report derives is true in all finite structures of the logic, whatever its free variables stand for.
//!
//! - `specs/Soundness.antt` says when a sequent holds in structures, when a query is satisfied in them, and when a report is sound.
//! - `proofs/Soundness.antt` has the law: a valid report of a logic is sound. It says nothing of what rests on a pending line.
//! - `proofs/BodyValues.antt` goes from the rows of tables to values: an exact rule of a quantifier is exact at all the values that a body takes.
//! - `proofs/Eigenvariables.antt` gives elements to the variables of a premise, and `proofs/RuleSteps.antt` proves that a step by a rule
//!   keeps truth. `proofs/LinesHold.antt` goes through the lines, and `proofs/Claims.antt` from the lines to the claims.
//!
//! The crate has no code. Structures are finite: an element is a number below the size of its structure.
#![tactic(auto)]
