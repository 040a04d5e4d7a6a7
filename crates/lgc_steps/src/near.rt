// Looking formulas up, from the place of the last one on: the items of a premise stand mostly in the order of the conclusion.
ghost use Rattle.std.specs.Prelude.{◌≡◌, ◌≤◌, ◌<◌, false, length, MatchOption};
ghost use Rattle.lgc_sequents.specs.Sequents.{IsSequent, sign_in, occurs, is_included};
ghost use Rattle.lgc_steps.specs.StepTests.{IsPlaceOf};

use lgc_sequents::{Sequent, Signed};
use lgc_syntax::{Formula, same_formula};
use lgc_values::ValueSet;

// The place of a formula among items, counted from 0.
fn place_of<const N: usize>(items: &[Signed<N>], f: &Formula) -> Option<usize>
    ensures { MatchOption result (occurs items.now f.now ≡ false) (IsPlaceOf items.now f.now) }
{
    for i in 0..items.len() {
        let item = &items[i];
        if same_formula(f, &item.formula) {
            return Some(i);
        }
    }
    None
}

// The place of a formula among items, looked for from a place on, and then before it.
fn place_from<const N: usize>(items: &[Signed<N>], f: &Formula, from: usize) -> Option<usize>
    requires { from ≤ length items.now }
    ensures { MatchOption result (occurs items.now f.now ≡ false) (IsPlaceOf items.now f.now) }
{
    match place_of(&items[from..], f) {
        Some(place) => Some(from + place),
        None => place_of(&items[..from], f),
    }
}

/// The sign of a formula, which is looked for from the place `near` on; that becomes the place behind it.
pub(crate) fn sign_near<const N: usize>(
    items: &[Signed<N>],
    f: &Formula,
    near: &mut usize,
) -> ValueSet<N>
    requires sequent { IsSequent N items.now }
    requires near { near.old ≤ length items.now }
    ensures sign { result ≡ sign_in items.now f.now }
    ensures near { near.new ≤ length items.now }
{
    match place_from(items, f, *near) {
        Some(place) => {
            *near = place + 1;
            let item = &items[place];
            item.sign
        }
        None => ValueSet::empty(),
    }
}

/// Whether each value of each item's sign lies in the sign that its formula has in a sequent, as [`Sequent::included_in`] tells it. Each
/// formula is looked for from the place of the last one on, so where the items stand in the order of the sequent, this takes time by their
/// number.
pub fn are_included<const N: usize>(items: &[Signed<N>], sequent: &Sequent<N>) -> bool
    ensures { result ≡ is_included items.now sequent.now }
{
    let all = sequent.items();
    let mut near = 0;
    for item in items {
        if !item
            .sign
            .is_subset(sign_near(all, &item.formula, &mut near))
        {
            return false;
        }
    }
    true
}
