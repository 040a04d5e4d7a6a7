// Branches as chains of lent items, so that they take no memory.
ghost use Rattle.std.specs.Prelude.{◌≡◌};
ghost use Rattle.lgc_values.specs.Values.{IsSize, values_where};
ghost use Rattle.lgc_sequents.specs.Steps.{carries};
ghost use Rattle.lgc_tableau_check.specs.Branches.{items_of};

use lgc_sequents::Signed;
use lgc_syntax::{Formula, same_formula};
use lgc_values::ValueSet;

// The items of a goal, or those that a case adds to the branch above it.
#[derive(Drop)]
pub(crate) enum Branch<'a, S> {
    Goal(&'a [S]),
    Case(&'a Branch<'a, S>, &'a [S]),
}

// The values that a formula has on a branch.
#[tactic(auto, using(crate::proofs::BranchLaws::branch_rules))]
pub(crate) fn sign_on<const N: usize>(branch: &Branch<Signed<N>>, f: &Formula) -> ValueSet<N>
    requires { IsSize N }
    ensures { result ≡ values_where N (carries (items_of branch.now) f.now) }
{
    match branch {
        Branch::Goal(items) => sign_among(items, f),
        Branch::Case(above, items) => sign_on(*above, f).union(sign_among(items, f)),
    }
}

// The values that a formula has among some items.
#[tactic(auto, using(std::proofs::lemmas::Grind::common_steps, crate::proofs::BranchLaws::sign_none, crate::proofs::BranchLaws::sign_more, crate::proofs::BranchLaws::sign_passed))]
fn sign_among<const N: usize>(items: &[Signed<N>], f: &Formula) -> ValueSet<N>
    requires { IsSize N }
    ensures { result ≡ values_where N (carries items.now f.now) }
{
    let mut sign = ValueSet::empty();
    for item in items {
        if same_formula(f, &item.formula) {
            sign = sign.union(item.sign);
        }
    }
    sign
}
