// Whether a formula is the instance of a quantifier's body by a term. The instance isn't made.
ghost use Rattle.std.specs.Prelude.{◌≡◌, ◌↔◌, map, true, IsTrue};
ghost use Rattle.std.specs.Bool.{OnTrue};
ghost use Rattle.lgc_syntax.specs.Variables.{has_no_bound};
ghost use Rattle.lgc_syntax.specs.Substitution.{inst, put_in, put_in_term};
ghost use Rattle.lgc_syntax.specs.Depths.{AtDepth};
ghost use Rattle.lgc_syntax.specs.Structures.{HasValueOfBody};

use crate::equality::same_term;
use crate::formula::{Formula, Term};
use crate::names::same_name;
use crate::substitution::deeper;

/// Whether a formula is the instance of a quantifier's body by a term without bound variables. Where it is, it has in every structure the value
/// that the body has at the term's element.
pub fn is_instance(body: &Formula, term: &Term, formula: &Formula) -> bool
    requires { has_no_bound term.now ≡ true }
    ensures means { IsTrue result ↔ (formula.now ≡ inst body.now term.now) }
    ensures value { OnTrue result (HasValueOfBody body.now term.now formula.now) }
{
    is_instance_at(body, term, formula, 0)
}

#[cycle(is_instance_at)]
#[tactic(auto, using(crate::proofs::SubstitutionLaws::put_rules))]
fn is_instance_at(body: &Formula, term: &Term, formula: &Formula, around: u64) -> bool
    ensures { AtDepth around (λ n. IsTrue result ↔ (formula.now ≡ put_in term.now body.now n)) }
{
    match body {
        Formula::Atom(p, args) => match formula {
            Formula::Atom(q, others) => same_name(p, q)
                && are_term_instances_at(args.items(), term, others.items(), around),
            _ => false,
        },
        Formula::Op(o, args) => match formula {
            Formula::Op(p, others) => *o == *p
                && are_instances_at(args.items(), term, others.items(), around),
            _ => false,
        },
        Formula::Quant(q, part) => match formula {
            Formula::Quant(r, other) => *q == *r
                && is_instance_at(part.get(), term, other.get(), deeper(around)),
            _ => false,
        },
    }
}

#[cycle(is_instance_at)]
fn are_instances_at(bodies: &[Formula], term: &Term, formulas: &[Formula], around: u64) -> bool
    ensures { AtDepth around (λ n. IsTrue result ↔ (formulas.now ≡ map (λ body. put_in term.now body n) bodies.now)) }
{
    if bodies.len() != formulas.len() {
        return false;
    }
    for i in 0..bodies.len() {
        if !is_instance_at(&bodies[i], term, &formulas[i], around) {
            return false;
        }
    }
    true
}

#[cycle(is_term_instance_at)]
#[tactic(auto, using(crate::proofs::SubstitutionLaws::put_rules))]
fn is_term_instance_at(part: &Term, term: &Term, other: &Term, around: u64) -> bool
    ensures { AtDepth around (λ n. IsTrue result ↔ (other.now ≡ put_in_term term.now part.now n)) }
{
    match part {
        Term::Bound(i) => {
            let points_to = u64::from(*i);
            if points_to == around {
                return same_term(other, term);
            }
            match other {
                Term::Bound(j) => *j == (if points_to < around { *i } else { *i - 1 }),
                _ => false,
            }
        }
        Term::Free(x) => match other {
            Term::Free(y) => same_name(x, y),
            _ => false,
        },
        Term::Apply(f, args) => match other {
            Term::Apply(g, others) => same_name(f, g)
                && are_term_instances_at(args.items(), term, others.items(), around),
            _ => false,
        },
    }
}

#[cycle(is_term_instance_at)]
fn are_term_instances_at(parts: &[Term], term: &Term, others: &[Term], around: u64) -> bool
    ensures { AtDepth around (λ n. IsTrue result ↔ (others.now ≡ map (λ part. put_in_term term.now part n) parts.now)) }
{
    if parts.len() != others.len() {
        return false;
    }
    for i in 0..parts.len() {
        if !is_term_instance_at(&parts[i], term, &others[i], around) {
            return false;
        }
    }
    true
}
