//! The text of dual tableaux.
//!
//! [`write_tableau`] puts the text of a tableau behind other bytes, or nothing where memory runs out. [`put_tableau`] does without a copy of the
//! text, and may leave a part of it. [`put_items`] puts the formulas of a goal with their signs, and [`put_entries`] the values of atoms.
//! `specs/TableauText.antt` defines the texts byte by byte.
#![tactic(auto)]

mod text;

pub use text::{put_entries, put_items, put_tableau, write_tableau};
