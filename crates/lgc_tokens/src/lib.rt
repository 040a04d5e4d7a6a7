//! What the grammars of all texts ask of single tokens, and how each of them is read.
//!
//! - A [`Class`] is what a token is to a grammar: one keyword or sign, or one kind of name, number or text. A keyword of one
//!   format is just a name in another.
//! - A [`Terminal`] is what a grammar asks of one token: one class, or one of several.
//! - [`is_a`], [`one`], [`next_is`], [`skip`] and [`past`] read one token of a terminal, and [`place`] tells where it stands.
//! - A [`Stop`] is why reading ended before some tokens, and a [`Reading`] what was read and the tokens behind it.
//! - [`number_in`] is the number that a text writes, and [`long_number_in`] that of a line or of a let, which may be larger; [`are_digits`] tells a
//!   text of digits alone.
//!
//! The grammars speak of tokens with what they say, the `Spelled` of `specs/Spelled.antt`. That a function answers what a reader
//! over these tokens does is `Gives`, in `specs/Gives.antt` (`GivesAs` over tokens that are seen in another way), and
//! `proofs/Tables.antt` proves for each terminal that it is read.
#![tactic(auto)]

mod class;
mod number;
mod stop;
mod terminal;

pub use class::Class;
pub use number::{MOST_LONG_NUMBER, MOST_NUMBER, are_digits, long_number_in, number_in};
pub use stop::Stop;
pub use terminal::{Reading, Terminal, is_a, next_is, one, past, place, skip};
