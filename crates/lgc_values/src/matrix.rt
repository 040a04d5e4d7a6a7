// A finite-valued logic: its values' names, its designated values and the tables of its operators and quantifiers.
ghost use Rattle.std.specs.Prelude.{◌≡◌, ◌≢◌, ◌<◌, ◌-◌, ◌^◌, [], length, position, IfSome};
ghost use Rattle.std.specs.Str.{bytes_eq};
ghost use Rattle.lgc_values.specs.Values.{IsSize, set_of_row};
ghost use Rattle.lgc_values.specs.Logic.{IsLogic, Logic, row_count, value_at, value_over, value_named, operator_named, quantifier_named};

use crate::{List, Name, ValueSet};
use std::marker::Model;

/// An operator: its name, its number of arguments, and its value at each row of arguments.
///
/// The index of the row `(a1, .., ak)` is the sum of `a_j * n^(k-j)`: the first argument is the most significant.
#[derive(Debug, Drop)]
pub struct Operator {
    pub name: Name,
    pub arity: u8,
    pub table: List<u8>,
}

/// A quantifier: its name, and its value at each nonempty set of values, which stands at the set's mask less 1.
#[derive(Debug, Drop)]
pub struct Quantifier {
    pub name: Name,
    pub table: List<u8>,
}

/// A logic with `N` truth values, seen as a `Logic` of `specs/Logic.antt`. Each meets `IsLogic`.
#[derive(Debug, Drop)]
pub struct Matrix<const N: usize> {
    names: List<Name>,
    designated: ValueSet<N>,
    operators: List<Operator>,
    quantifiers: List<Quantifier>,
}

impl<const N: usize> Model for Matrix<N> {
    ghost use Rattle.lgc_values.specs.Logic.{Logic, IsLogic};

    ghost Value = { Logic };

    ghost view = { λ m. record { size = N; names = m.names; designated = m.designated; operators = m.operators; quantifiers = m.quantifiers } };

    ghost invariant = { λ m. IsLogic (record { size = N; names = m.names; designated = m.designated; operators = m.operators; quantifiers = m.quantifiers }) };
}

impl<const N: usize> Matrix<N> {
    /// The logic of these parts. It takes no memory.
    pub fn new(
        names: List<Name>,
        designated: ValueSet<N>,
        operators: List<Operator>,
        quantifiers: List<Quantifier>,
    ) -> Matrix<N>
        requires { IsLogic (record { size = N; names = names; designated = designated; operators = operators; quantifiers = quantifiers }) }
        ensures { result ≡ record { size = N; names = names; designated = designated.entry; operators = operators; quantifiers = quantifiers } }
    {
        Matrix {
            names,
            designated,
            operators,
            quantifiers,
        }
    }

    /// The names of the truth values, in their order.
    pub fn names(&self) -> &[Name]
        ensures names { result.now ≡ self.now.names }
        ensures logic { IsLogic self.now }
        ensures size { self.now.size ≡ N }
    {
        self.names.items()
    }

    /// The designated values.
    pub fn designated(&self) -> ValueSet<N>
        ensures designated { result ≡ self.now.designated }
        ensures logic { IsLogic self.now }
        ensures size { self.now.size ≡ N }
    {
        self.designated
    }

    /// The operators, in the order of the logic's file.
    pub fn operators(&self) -> &[Operator]
        ensures operators { result.now ≡ self.now.operators }
        ensures logic { IsLogic self.now }
        ensures size { self.now.size ≡ N }
    {
        self.operators.items()
    }

    /// The quantifiers, in the order of the logic's file.
    pub fn quantifiers(&self) -> &[Quantifier]
        ensures quantifiers { result.now ≡ self.now.quantifiers }
        ensures logic { IsLogic self.now }
        ensures size { self.now.size ≡ N }
    {
        self.quantifiers.items()
    }

    /// The value of operator `op`, counted from 0, at the row with the index `row`.
    pub fn apply(&self, op: u16, row: u32) -> u8
        requires operator { op < length self.now.operators }
        requires row { row < row_count self.now op }
        ensures value { result ≡ value_at self.now op row }
        ensures below { result < N }
    {
        let operator = self.operators.get(op as usize);
        operator.table.items()[row as usize]
    }

    /// The value of quantifier `q`, counted from 0, at a nonempty set.
    pub fn distribute(&self, q: u16, set: ValueSet<N>) -> u8
        requires quantifier { q < length self.now.quantifiers }
        requires nonempty { set ≢ [] }
        ensures value { result ≡ value_over self.now q set.entry }
        ensures below { result < N }
    {
        let quantifier = self.quantifiers.get(q as usize);
        quantifier.table.items()[set.mask() as usize - 1]
    }

    /// The set without truth values.
    pub fn empty_set(&self) -> ValueSet<N>
        ensures { result ≡ [] }
    {
        let _names = &self.names;
        ValueSet::empty()
    }

    /// The nonempty set that stands in the row of a quantifier's table with this index, from 0.
    pub fn set_of_row(&self, row: u32) -> ValueSet<N>
        requires { row < 2 ^ self.now.size - 1 }
        ensures set { result ≡ set_of_row self.now.size row }
        ensures nonempty { result ≢ [] }
    {
        let _names = &self.names;
        ValueSet::of_row(row)
    }

    /// The truth value that has this name, if there is one.
    pub fn value_named(&self, text: &[u8]) -> Option<u8>
        ensures value { result ≡ value_named self.now text.now }
        ensures below { IfSome result (λ value. value < N) }
        ensures size { IsSize N }
    {
        match value_place(self.names(), text) {
            Some(place) => Some(place as u8),
            None => None,
        }
    }

    /// The operator that has this name, counted from 0, if there is one.
    pub fn operator_named(&self, text: &[u8]) -> Option<u16>
        ensures operator { result ≡ operator_named self.now text.now }
        ensures below { IfSome result (λ op. op < length self.now.operators) }
    {
        match operator_place(self.operators(), text) {
            Some(place) => Some(place as u16),
            None => None,
        }
    }

    /// The quantifier that has this name, counted from 0, if there is one.
    pub fn quantifier_named(&self, text: &[u8]) -> Option<u16>
        ensures quantifier { result ≡ quantifier_named self.now text.now }
        ensures below { IfSome result (λ q. q < length self.now.quantifiers) }
    {
        match quantifier_place(self.quantifiers(), text) {
            Some(place) => Some(place as u16),
            None => None,
        }
    }
}

// The place of a text among the names.
fn value_place(names: &[Name], text: &[u8]) -> Option<usize>
    ensures place { result ≡ position (λ name. bytes_eq name text.now) names.now }
    ensures below { IfSome result (λ place. place < length names.now) }
{
    names.iter().position(|name| name.bytes() == text)
}

// The place of the operator that has this name.
fn operator_place(operators: &[Operator], text: &[u8]) -> Option<usize>
    ensures place { result ≡ position (λ o. bytes_eq o.name text.now) operators.now }
    ensures below { IfSome result (λ place. place < length operators.now) }
{
    operators
        .iter()
        .position(|operator| operator.name.bytes() == text)
}

// The place of the quantifier that has this name.
fn quantifier_place(quantifiers: &[Quantifier], text: &[u8]) -> Option<usize>
    ensures place { result ≡ position (λ q. bytes_eq q.name text.now) quantifiers.now }
    ensures below { IfSome result (λ place. place < length quantifiers.now) }
{
    quantifiers
        .iter()
        .position(|quantifier| quantifier.name.bytes() == text)
}
