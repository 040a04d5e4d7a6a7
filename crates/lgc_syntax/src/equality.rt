// Whether two terms, or two formulas, are equal.
ghost use Rattle.std.specs.Prelude.{◌≡◌, ◌↔◌, IsTrue};
ghost use Rattle.lgc_syntax.specs.Equality.{same_term, same_formula};

use crate::formula::{Formula, Term};
use crate::names::same_name;

/// Whether two terms are equal. Bound variables are told by the quantifiers that they point to, and have no names.
pub fn same_term(a: &Term, b: &Term) -> bool
    ensures means { IsTrue result ↔ (a.now ≡ b.now) }
    ensures test { result ≡ same_term a.now b.now }
{
    equal_terms(a, b)
}

/// Whether two formulas are equal. Two that differ in the names of bound variables alone are.
pub fn same_formula(a: &Formula, b: &Formula) -> bool
    ensures means { IsTrue result ↔ (a.now ≡ b.now) }
    ensures test { result ≡ same_formula a.now b.now }
{
    equal_formulas(a, b)
}

#[cycle(equal_terms)]
fn equal_terms(a: &Term, b: &Term) -> bool
    ensures { IsTrue result ↔ (a.now ≡ b.now) }
{
    match a {
        Term::Bound(i) => match b {
            Term::Bound(j) => *i == *j,
            _ => false,
        },
        Term::Free(x) => match b {
            Term::Free(y) => same_name(x, y),
            _ => false,
        },
        Term::Apply(f, xs) => match b {
            Term::Apply(g, ys) => same_name(f, g) && equal_term_lists(xs.items(), ys.items()),
            _ => false,
        },
    }
}

#[cycle(equal_terms)]
fn equal_term_lists(a: &[Term], b: &[Term]) -> bool
    ensures { IsTrue result ↔ (a.now ≡ b.now) }
{
    if a.len() != b.len() {
        return false;
    }
    for i in 0..a.len() {
        if !equal_terms(&a[i], &b[i]) {
            return false;
        }
    }
    true
}

#[cycle(equal_formulas)]
fn equal_formulas(a: &Formula, b: &Formula) -> bool
    ensures { IsTrue result ↔ (a.now ≡ b.now) }
{
    match a {
        Formula::Atom(p, xs) => match b {
            Formula::Atom(q, ys) => same_name(p, q) && equal_term_lists(xs.items(), ys.items()),
            _ => false,
        },
        Formula::Op(o, xs) => match b {
            Formula::Op(p, ys) => *o == *p && equal_formula_lists(xs.items(), ys.items()),
            _ => false,
        },
        Formula::Quant(q, x) => match b {
            Formula::Quant(r, y) => *q == *r && equal_formulas(x.get(), y.get()),
            _ => false,
        },
    }
}

#[cycle(equal_formulas)]
fn equal_formula_lists(a: &[Formula], b: &[Formula]) -> bool
    ensures { IsTrue result ↔ (a.now ≡ b.now) }
{
    if a.len() != b.len() {
        return false;
    }
    for i in 0..a.len() {
        if !equal_formulas(&a[i], &b[i]) {
            return false;
        }
    }
    true
}
