// How large a formula is, and whether it has a quantifier. Each walk ends at the first node that settles its answer.
ghost use Rattle.std.specs.Prelude.{◌≡◌, ◌≤◌, ◌<◌, ◌+◌, ◌↔◌, map, sum_by, IsTrue, MatchOption};
ghost use Rattle.std.specs.List.{list_any};
ghost use Rattle.lgc_syntax.specs.Sizes.{greatest, term_nodes, nodes, term_depth, depth, has_quantifier};

use crate::formula::{Formula, Term};

/// How many of `many` nodes are left when those of the formula are counted off, and None where it has more. Each formula and each term
/// inside is a node.
#[cycle(nodes_left)]
#[tactic(auto, using(crate::proofs::SizeLaws::node_rules))]
pub fn nodes_left(formula: &Formula, many: u32) -> Option<u32>
    ensures { MatchOption result (many < nodes formula.now) (λ left. left + nodes formula.now ≡ many) }
{
    if many == 0 {
        return None;
    }
    match formula {
        Formula::Atom(_, args) => nodes_left_by_terms(args.items(), many - 1),
        Formula::Op(_, args) => nodes_left_by_all(args.items(), many - 1),
        Formula::Quant(_, body) => nodes_left(body.get(), many - 1),
    }
}

#[cycle(nodes_left)]
#[tactic(auto, using(crate::proofs::SizeLaws::node_rules))]
fn nodes_left_by_all(formulas: &[Formula], many: u32) -> Option<u32>
    ensures { MatchOption result (many < sum_by nodes formulas.now) (λ left. left + sum_by nodes formulas.now ≡ many) }
{
    let mut left = many;
    for formula in formulas {
        left = nodes_left(formula, left)?;
    }
    Some(left)
}

#[cycle(nodes_left_by_term)]
#[tactic(auto, using(crate::proofs::SizeLaws::node_rules))]
fn nodes_left_by_term(term: &Term, many: u32) -> Option<u32>
    ensures { MatchOption result (many < term_nodes term.now) (λ left. left + term_nodes term.now ≡ many) }
{
    if many == 0 {
        return None;
    }
    match term {
        Term::Bound(_) => Some(many - 1),
        Term::Free(_) => Some(many - 1),
        Term::Apply(_, args) => nodes_left_by_terms(args.items(), many - 1),
    }
}

#[cycle(nodes_left_by_term)]
#[tactic(auto, using(crate::proofs::SizeLaws::node_rules))]
fn nodes_left_by_terms(terms: &[Term], many: u32) -> Option<u32>
    ensures { MatchOption result (many < sum_by term_nodes terms.now) (λ left. left + sum_by term_nodes terms.now ≡ many) }
{
    let mut left = many;
    for term in terms {
        left = nodes_left_by_term(term, left)?;
    }
    Some(left)
}

/// Whether the formula is at most `deep` nodes deep.
#[cycle(is_within)]
#[tactic(auto, using(crate::proofs::SizeLaws::depth_rules))]
pub fn is_within(formula: &Formula, deep: u32) -> bool
    ensures { IsTrue result ↔ (depth formula.now ≤ deep) }
{
    if deep == 0 {
        return false;
    }
    match formula {
        Formula::Atom(_, args) => are_terms_within(args.items(), deep - 1),
        Formula::Op(_, args) => are_all_within(args.items(), deep - 1),
        Formula::Quant(_, body) => is_within(body.get(), deep - 1),
    }
}

#[cycle(is_within)]
#[tactic(auto, using(crate::proofs::SizeLaws::depth_rules))]
fn are_all_within(formulas: &[Formula], deep: u32) -> bool
    ensures { IsTrue result ↔ (greatest (map depth formulas.now) ≤ deep) }
{
    for formula in formulas {
        if !is_within(formula, deep) {
            return false;
        }
    }
    true
}

#[cycle(is_term_within)]
#[tactic(auto, using(crate::proofs::SizeLaws::depth_rules))]
fn is_term_within(term: &Term, deep: u32) -> bool
    ensures { IsTrue result ↔ (term_depth term.now ≤ deep) }
{
    if deep == 0 {
        return false;
    }
    match term {
        Term::Bound(_) => true,
        Term::Free(_) => true,
        Term::Apply(_, args) => are_terms_within(args.items(), deep - 1),
    }
}

#[cycle(is_term_within)]
#[tactic(auto, using(crate::proofs::SizeLaws::depth_rules))]
fn are_terms_within(terms: &[Term], deep: u32) -> bool
    ensures { IsTrue result ↔ (greatest (map term_depth terms.now) ≤ deep) }
{
    for term in terms {
        if !is_term_within(term, deep) {
            return false;
        }
    }
    true
}

/// Whether the formula has a quantifier.
#[cycle(has_quantifier)]
#[tactic(auto, using(crate::proofs::SizeLaws::quantifier_rules))]
pub fn has_quantifier(formula: &Formula) -> bool
    ensures { result ≡ has_quantifier formula.now }
{
    match formula {
        Formula::Atom(_, _) => false,
        Formula::Op(_, args) => some_has_quantifier(args.items()),
        Formula::Quant(_, _) => true,
    }
}

#[cycle(has_quantifier)]
fn some_has_quantifier(formulas: &[Formula]) -> bool
    ensures { result ≡ list_any has_quantifier formulas.now }
{
    for formula in formulas {
        if has_quantifier(formula) {
            return true;
        }
    }
    false
}
