// Formulas that are numbered once.
ghost use Rattle.std.specs.Prelude.{◌≡◌, ◌<◌, [], Some, false, length, slice_get, All, IfOk, IfSome};
ghost use Rattle.lgc_syntax.specs.Sizes.{has_quantifier};
ghost use Rattle.lgc_numbering.specs.declared.node.Node.{Node};
ghost use Rattle.lgc_numbering.specs.declared.node.Node.TheVariants as node;
ghost use Rattle.lgc_numbering.specs.Numbering.{formula_of, IsNode, IsNumbering, AreNodesOf};
ghost use Rattle.lgc_syntax.specs.Subformulas.{IsSubformula};
ghost use Rattle.lgc_numbering.specs.Growth.{IsGrownBy};
ghost use Rattle.lgc_numbering.specs.Keys.{key_of};

use crate::Node;
use crate::keys::{key_of_atom, key_of_compound};
use crate::number::number_in;
use crate::trees::formula_in;
use indexmap::IndexSet;
use lgc_syntax::{Formula, copy_formula};
use lgc_values::List;
use std::alloc::{AllocError, Global};
use std::marker::Model;

/// Formulas without quantifiers, of which each has one number: its place, counted from 0. The arguments of a compound stand before it.
/// They are seen as the list of the formulas. A formula is kept by its node alone.
#[derive(Drop)]
pub struct Formulas {
    alloc: Global,
    nodes: List<Node>,
    keys: IndexSet<Vec<u64>>,
}

impl Model for Formulas {
    ghost use Rattle.std.specs.Prelude.{List, map};
    ghost use Rattle.std.specs.Coded.{coded_list};
    ghost use Rattle.lgc_syntax.specs.declared.formula.Formula.{Formula};
    ghost use Rattle.lgc_syntax.specs.contracts.formula.Formula as formula;
    ghost use Rattle.lgc_numbering.specs.Numbering.{formulas_of};
    ghost use Rattle.lgc_numbering.specs.Store.{IsStore};

    ghost Value = { List Formula };

    ghost coded = { coded_list formula.the_row.coded };

    ghost view = { λ kept. formulas_of kept.nodes };

    ghost invariant = { λ kept. IsStore kept.nodes (map (λ key. key.items) kept.keys.keys) };
}

impl Formulas {
    /// No formulas. It takes no memory; `alloc` is kept for later formulas.
    pub fn new(alloc: Global) -> Self
        ensures { result ≡ [] }
    {
        Formulas {
            alloc,
            nodes: List::new(alloc),
            keys: IndexSet::new(alloc),
        }
    }

    /// The nodes of the formulas, by rising numbers.
    pub fn nodes(&self) -> &[Node]
        ensures nodes { AreNodesOf self.now result.now }
        ensures numbering { IsNumbering self.now }
    {
        self.nodes.items()
    }

    /// The number of a formula. Where they aren't there, its subformulas are appended, and then the formula itself. The earlier formulas
    /// keep their numbers. After want of memory further subformulas may have been appended.
    pub fn number_of(&mut self, f: &Formula) -> Result<u64, AllocError>
        requires { has_quantifier f.now ≡ false }
        ensures number { IfOk result (λ k. slice_get self.new k ≡ Some f.now) }
        ensures grown { IsGrownBy (λ g. IsSubformula g f.now) self.old self.new }
        ensures numbering { IsNumbering self.new }
    {
        let number = number_in(f, self);
        // What is asked of the fields is known once one of them is read.
        let _nodes = &self.nodes;
        number
    }

    /// A copy of the formula with a number.
    pub fn formula(&self, k: u64) -> Result<Formula, AllocError>
        requires { k < length self.now }
        ensures { IfOk result (λ f. slice_get self.now k ≡ Some f) }
    {
        formula_in(self.alloc, self.nodes.items(), k)
    }

    // The number of an atom.
    pub(crate) fn number_of_atom(&mut self, atom: &Formula) -> Result<u64, AllocError>
        requires { IsNode 0 (node.Atom atom.now) }
        ensures number { IfOk result (λ k. slice_get self.new k ≡ Some atom.now) }
        ensures grown { IsGrownBy (λ g. g ≡ atom.now) self.old self.new }
    {
        let key = key_of_atom(self.alloc, atom)?;
        if let Some(k) = self.find(&key) {
            return Ok(k);
        }
        let copy = copy_formula(self.alloc, atom)?;
        self.place(key, Node::Atom(copy))
    }

    // The number of a compound, whose arguments have these numbers.
    pub(crate) fn number_of_compound(&mut self, op: u16, args: List<u64>) -> Result<u64, AllocError>
        requires { All (λ a. a < length self.old) args }
        ensures number { IfOk result (λ k. slice_get self.new k ≡ Some (formula_of self.old (node.Compound op args))) }
        ensures grown { IsGrownBy (λ g. g ≡ formula_of self.old (node.Compound op args)) self.old self.new }
    {
        let key = key_of_compound(self.alloc, op, args.items())?;
        self.place(key, Node::Compound { op, args })
    }

    // No numbers, with the allocator for later ones.
    pub(crate) fn no_numbers(&self) -> List<u64>
        ensures { result ≡ [] }
    {
        List::new(self.alloc)
    }

    // The number of the formula whose node has this key.
    fn find(&self, key: &Vec<u64>) -> Option<u64>
        ensures { IfSome result (λ k. (a : Node) → IsNode (length self.now) a → key.now.items ≡ key_of a → slice_get self.now k ≡ Some (formula_of self.now a)) }
    {
        let k = self.keys.get_index_of(key)?;
        Some(k as u64)
    }

    // The number of the formula of a node, which is appended where it isn't there.
    fn place(&mut self, key: Vec<u64>, added: Node) -> Result<u64, AllocError>
        requires over { IsNode (length self.old) added }
        requires key { key.items ≡ key_of added }
        ensures number { IfOk result (λ k. slice_get self.new k ≡ Some (formula_of self.old added)) }
        ensures grown { IsGrownBy (λ g. g ≡ formula_of self.old added) self.old self.new }
    {
        let (k, is_new) = self.keys.insert_full(key)?;
        if !is_new {
            drop(added);
            return Ok(k as u64);
        }
        let count = self.nodes.items().len();
        if let Err(error) = self.nodes.push(added) {
            self.keys.truncate(count);
            return Err(error);
        }
        Ok(count as u64)
    }
}
