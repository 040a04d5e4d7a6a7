// The free variables of a formula.
ghost use Rattle.std.specs.Prelude.{◌≡◌};
ghost use Rattle.std.specs.Bool.{OnFalse};
ghost use Rattle.std.specs.List.{list_any};
ghost use Rattle.lgc_syntax.specs.Variables.{occurs, free};
ghost use Rattle.lgc_syntax.specs.Structures.{IsIndependent};

use crate::formula::{Formula, Term};
use crate::names::same_name;
use lgc_values::Name;

/// Whether the variable occurs free in the formula. Where it doesn't, the formula's value in a structure doesn't rest on it.
#[tactic(auto, using(crate::proofs::StructureLaws::independent_where_not_free))]
pub fn has_free(name: &Name, formula: &Formula) -> bool
    ensures free { result ≡ free name.now formula.now }
    ensures independent { OnFalse result (IsIndependent name.now formula.now) }
{
    is_free_in(name, formula)
}

#[cycle(is_free_in)]
#[tactic(auto, using(crate::proofs::VariableLaws::free_rules))]
fn is_free_in(name: &Name, formula: &Formula) -> bool
    ensures { result ≡ free name.now formula.now }
{
    match formula {
        Formula::Atom(_, args) => occurs_in_some(name, args.items()),
        Formula::Op(_, args) => is_free_in_some(name, args.items()),
        Formula::Quant(_, body) => is_free_in(name, body.get()),
    }
}

#[cycle(is_free_in)]
fn is_free_in_some(name: &Name, formulas: &[Formula]) -> bool
    ensures { result ≡ list_any (free name.now) formulas.now }
{
    for formula in formulas {
        if is_free_in(name, formula) {
            return true;
        }
    }
    false
}

#[cycle(occurs_in)]
#[tactic(auto, using(crate::proofs::VariableLaws::free_rules))]
fn occurs_in(name: &Name, term: &Term) -> bool
    ensures { result ≡ occurs name.now term.now }
{
    match term {
        Term::Bound(_) => false,
        Term::Free(other) => same_name(name, other),
        Term::Apply(_, args) => occurs_in_some(name, args.items()),
    }
}

#[cycle(occurs_in)]
fn occurs_in_some(name: &Name, terms: &[Term]) -> bool
    ensures { result ≡ list_any (occurs name.now) terms.now }
{
    for term in terms {
        if occurs_in(name, term) {
            return true;
        }
    }
    false
}
