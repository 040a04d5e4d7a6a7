// Sequents.
ghost use Rattle.std.specs.Prelude.{◌≡◌, [], ◌||◌, ℕ, true, false, IsTrue, IsFalse, IfOk, OnOk, OnErr};
ghost use Rattle.lgc_values.specs.Values.{IsSize, has};
ghost use Rattle.lgc_syntax.specs.declared.formula.Formula.{Formula};
ghost use Rattle.lgc_syntax.specs.Equality.{same_formula};
ghost use Rattle.lgc_sequents.specs.Sequents.{IsSequent, sign_in, occurs, joined, added, is_included, has_all, is_axiom, is_true_at, HasValues};

use crate::Signed;
use lgc_syntax::{Formula, copy_formula, same_formula};
use lgc_values::ValueSet;
use std::alloc::{AllocError, Global};
use std::marker::Model;

/// Signed formulas, of which one holds: a sequent is true where the value of some formula lies in the formula's sign. No formula
/// stands twice, and each sign has members. It is seen as the list of its items.
#[derive(Drop)]
pub struct Sequent<const N: usize> {
    items: Vec<Signed<N>>,
}

impl<const N: usize> Model for Sequent<N> {
    ghost use Rattle.std.specs.Prelude.{List};
    ghost use Rattle.std.specs.Coded.{coded_list};
    ghost use Rattle.lgc_sequents.specs.Signed.{SignedFormula, signed_code};
    ghost use Rattle.lgc_sequents.specs.Sequents.{IsSequent};

    ghost Value = { List SignedFormula };

    ghost coded = { coded_list signed_code };

    ghost view = { λ sequent. sequent.items.items };

    ghost invariant = { λ sequent. IsSequent N sequent.items.items };
}

impl<const N: usize> Sequent<N> {
    /// The empty sequent. It takes no memory; `alloc` is kept for later items.
    pub fn new(alloc: Global) -> Self
        requires { IsSize N }
        ensures { result ≡ [] }
    {
        Sequent {
            items: Vec::new(alloc),
        }
    }

    /// The signed formulas, in the order in which their formulas were first added.
    pub fn items(&self) -> &[Signed<N>]
        ensures items { result.now ≡ self.now }
        ensures sequent { IsSequent N self.now }
    {
        self.items.as_slice()
    }

    /// The sign of a formula, empty where it doesn't occur.
    pub fn sign_of(&self, f: &Formula) -> ValueSet<N>
        ensures { result ≡ sign_in self.now f.now }
    {
        for item in &self.items {
            if same_formula(f, &item.formula) {
                return item.sign;
            }
        }
        ValueSet::empty()
    }

    /// Joins a sign to that of a formula. A formula that didn't occur is put last, and an empty sign adds nothing. On want of memory the
    /// sequent is as it was, and the formula is dropped.
    pub fn add(&mut self, formula: Formula, sign: ValueSet<N>) -> Result<(), AllocError>
        ensures ok { OnOk result (self.new ≡ added N self.old formula sign.entry) }
        ensures truth { OnOk result ((value : Formula → ℕ) → is_true_at value self.new ≡ (is_true_at value self.old || has sign.entry (value formula))) }
        ensures err { OnErr result (self.new ≡ self.old) }
    {
        let _mask = sign.mask();
        if sign.is_empty() {
            return Ok(());
        }
        if join(&mut self.items, &formula, sign) {
            drop(formula);
            return Ok(());
        }
        self.items.push(Signed { formula, sign })?;
        Ok(())
    }

    /// The same for a formula that doesn't occur, which is compared with no other.
    pub fn add_new(&mut self, formula: Formula, sign: ValueSet<N>) -> Result<(), AllocError>
        requires new { occurs self.old formula ≡ false }
        ensures ok { OnOk result (self.new ≡ added N self.old formula sign.entry) }
        ensures err { OnErr result (self.new ≡ self.old) }
    {
        let _mask = sign.mask();
        if sign.is_empty() {
            return Ok(());
        }
        let item = Signed { formula, sign };
        self.items.push(item)?;
        Ok(())
    }

    /// Whether each value of each formula's sign lies in the sign that the formula has in the other sequent. The other one is then true
    /// where this one is.
    pub fn included_in(&self, other: &Sequent<N>) -> bool
        ensures included { result ≡ is_included self.now other.now }
        ensures truth { IsTrue result → (value : Formula → ℕ) → is_true_at value self.now ≡ true → is_true_at value other.now ≡ true }
    {
        for item in &self.items {
            if !item.sign.is_subset(other.sign_of(&item.formula)) {
                return false;
            }
        }
        true
    }

    /// Whether some formula carries all truth values. Such a sequent is true whatever the values are.
    pub fn is_axiom(&self) -> bool
        ensures full { result ≡ is_axiom N self.now }
        ensures truth { IsTrue result → (value : Formula → ℕ) → HasValues N value → is_true_at value self.now ≡ true }
    {
        for item in &self.items {
            if has_all(item.sign) {
                return true;
            }
        }
        false
    }
}

/// A copy of a sequent.
pub fn copy_sequent<const N: usize>(
    alloc: Global,
    sequent: &Sequent<N>,
) -> Result<Sequent<N>, AllocError>
    ensures { IfOk result (λ copy. copy ≡ sequent.now) }
{
    let items = copy_items(alloc, sequent.items())?;
    Ok(Sequent { items })
}

fn copy_items<const N: usize>(
    alloc: Global,
    items: &[Signed<N>],
) -> Result<Vec<Signed<N>>, AllocError>
    ensures { IfOk result (λ copies. copies.items ≡ items.now) }
{
    let mut copies = Vec::new(alloc);
    for item in items {
        copies.push(Signed {
            formula: copy_formula(alloc, &item.formula)?,
            sign: item.sign,
        })?;
    }
    Ok(copies)
}

// Joins a sign to that of a formula, and tells whether the formula occurs.
fn join<const N: usize>(items: &mut Vec<Signed<N>>, formula: &Formula, sign: ValueSet<N>) -> bool
    ensures occurs { result ≡ occurs items.old.items formula.now }
    ensures joined { IsTrue result → items.new.items ≡ joined N items.old.items formula.now sign.entry }
    ensures same { IsFalse result → items.new ≡ items.old }
{
    for i in 0..items.len() {
        if same_formula(formula, &items[i].formula) {
            let item = &mut items[i];
            item.sign = item.sign.union(sign);
            return true;
        }
    }
    false
}

// Whether each truth value is a member.
fn has_all<const N: usize>(set: ValueSet<N>) -> bool
    ensures { result ≡ has_all N set.entry }
{
    set.complement().is_empty()
}
