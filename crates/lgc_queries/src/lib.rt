//! Reading queries against a logic, and writing them.
//!
//! - [`read_queries`] reads a query file: the queries in their order, or the first fault.
//! - [`query_at`] and [`query_with`] read a query among the tokens of a larger text, and tell the token behind it.
//! - [`one_query`] is for readers of texts that contain queries: what it gives is that of `specs/QueryReading.antt`. [`has_too_many_goals`] tells
//!   of a query whether its goals are too many.
//! - A [`QueryRead`] is a query that was read, with what the text around it has to know. [`EquationRead`] and [`Equations`] are the same of
//!   equations.
//! - [`write_query`] puts the text of a query behind other bytes.
//! - [`LONGEST_FILE`] is the limit of query files. That of a query's goals is `MOST_GOALS` of `lgc_goals`.
//!
//! `specs/QueryGrammar.antt` is the grammar of queries. It says which trees the texts have that break no rule, and which rule a token
//! breaks; `specs/PlainQueries.antt` has the same lines without rules. The readers, in `specs/QueryReading.antt`, follow the grammar
//! line by line, and `proofs/QueryReads.antt` proves that they read it; each function that reads is proved to be one of them.
//! `specs/QueryFile.antt` says what the bytes of a query file give, and `specs/QueryPlace.antt` what the query gives that begins at a
//! place among tokens. What is true of each query that is read stands in `specs/Limits.antt`.
//! `specs/QueryText.antt` has the one spelling in which queries are written.
#![tactic(auto)]

// What is read, or the caller stops too. `?` gets no proof where a `ValueSet` stands beside a reference.
macro_rules! tried {
    ($read:expr) => {
        match $read {
            Ok(read) => read,
            Err(stop) => return Err(stop),
        }
    };
}

mod equation;
mod file;
mod goals;
mod place;
mod query;
mod read;
mod set;
mod text;

pub use file::read_queries;
pub use goals::has_too_many_goals;
pub use place::{query_at, query_with};
pub use query::one_query;
pub use read::{EquationRead, Equations, QueryRead};
pub use text::write_query;

/// The greatest length of a query file, in bytes.
pub const LONGEST_FILE: u32 = 1_048_576;
