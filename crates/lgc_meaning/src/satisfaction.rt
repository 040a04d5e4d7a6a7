// Whether a valuation satisfies a query.
ghost use Rattle.std.specs.Prelude.{◌≡◌, ◌<◌, false, not, All};
ghost use Rattle.std.specs.List.{list_any};
ghost use Rattle.lgc_values.specs.Values.{has};
ghost use Rattle.lgc_syntax.specs.Fits.{Fits};
ghost use Rattle.lgc_syntax.specs.Sizes.{has_quantifier};
ghost use Rattle.lgc_syntax.specs.Values.{listed, value};
ghost use Rattle.lgc_meaning.specs.Queries.{sides, holds_at, satisfies, FitsQuery, IsPropositional};

use crate::{Pair, Query, Valuation, value_of};
use lgc_syntax::Formula;
use lgc_values::{Matrix, ValueSet};

/// Whether a valuation satisfies a query without quantifiers.
///
/// A mixed entailment is satisfied where the value of some premise isn't in the set `given`, or that of some conclusion is in the set
/// `wanted`. An equation is where its sides agree in value. A quasi-equation is where one of its premises isn't, or its conclusion is.
pub fn satisfies<const N: usize>(m: &Matrix<N>, v: &Valuation, q: &Query) -> bool
    requires fits { FitsQuery m.now q.now }
    requires propositional { IsPropositional q.now }
    requires values { All (λ entry. entry.1 < N) v.now }
    ensures { result ≡ satisfies N (value m.now (listed v.now)) q.now }
{
    let _operators = m.operators();
    match q {
        Query::Mixed {
            given,
            wanted,
            premises,
            conclusions,
        } => {
            some_outside(m, v, premises.items(), ValueSet::of_mask(*given))
                || some_inside(m, v, conclusions.items(), ValueSet::of_mask(*wanted))
        }
        Query::Equation(pair) => holds(m, v, pair),
        Query::Quasi {
            premises,
            conclusion,
        } => some_fails(m, v, premises.items()) || holds(m, v, conclusion),
    }
}

// Whether the value of some formula isn't in a set.
fn some_outside<const N: usize>(
    m: &Matrix<N>,
    v: &Valuation,
    fs: &[Formula],
    set: ValueSet<N>,
) -> bool
    requires fits { All (Fits m.now) fs.now }
    requires propositional { All (λ f. has_quantifier f ≡ false) fs.now }
    requires values { All (λ entry. entry.1 < N) v.now }
    ensures { result ≡ list_any (λ f. not (has set.entry (value m.now (listed v.now) f))) fs.now }
{
    for f in fs {
        if !set.contains(value_of(m, v, f)) {
            return true;
        }
    }
    false
}

// Whether the value of some formula is in a set.
fn some_inside<const N: usize>(
    m: &Matrix<N>,
    v: &Valuation,
    fs: &[Formula],
    set: ValueSet<N>,
) -> bool
    requires fits { All (Fits m.now) fs.now }
    requires propositional { All (λ f. has_quantifier f ≡ false) fs.now }
    requires values { All (λ entry. entry.1 < N) v.now }
    ensures { result ≡ list_any (λ f. has set.entry (value m.now (listed v.now) f)) fs.now }
{
    for f in fs {
        if set.contains(value_of(m, v, f)) {
            return true;
        }
    }
    false
}

// Whether the sides of an equation have the same value.
fn holds<const N: usize>(m: &Matrix<N>, v: &Valuation, pair: &Pair) -> bool
    requires fits { All (Fits m.now) (sides pair.now) }
    requires propositional { All (λ f. has_quantifier f ≡ false) (sides pair.now) }
    requires values { All (λ entry. entry.1 < N) v.now }
    ensures { result ≡ holds_at (value m.now (listed v.now)) pair.now }
{
    value_of(m, v, &pair.left) == value_of(m, v, &pair.right)
}

// Whether the sides of some equation have different values.
fn some_fails<const N: usize>(m: &Matrix<N>, v: &Valuation, pairs: &[Pair]) -> bool
    requires fits { All (λ pair. All (Fits m.now) (sides pair)) pairs.now }
    requires propositional { All (λ pair. All (λ f. has_quantifier f ≡ false) (sides pair)) pairs.now }
    requires values { All (λ entry. entry.1 < N) v.now }
    ensures { result ≡ list_any (λ pair. not (holds_at (value m.now (listed v.now)) pair)) pairs.now }
{
    for pair in pairs {
        if !holds(m, v, pair) {
            return true;
        }
    }
    false
}
