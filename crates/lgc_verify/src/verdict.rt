// Verdicts on rules.
ghost use Rattle.std.specs.Prelude.{◌≡◌, ◌<◌, ◌^◌, length};
ghost use Rattle.lgc_clauses.specs.Kinds.{plain_rule};
ghost use Rattle.lgc_clauses.specs.Rules.{Fits};
ghost use Rattle.lgc_clauses.specs.Irredundance.{IsNumbered};
ghost use Rattle.lgc_verify.specs.Verdicts.{IsVerdict, is_right};

use lgc_clauses::{Droppable, Rule, rule_exact, rule_irredundant};
use lgc_values::Matrix;

/// What is said of a rule.
#[derive(Clone, Copy, Debug, PartialEq, Eq)]
pub enum Verdict {
    /// It isn't exact: the first row, by its index, at which the table and its clauses differ.
    Differs(u32),
    /// It is exact, and also without this part.
    Superfluous(Droppable),
    /// It is exact and irredundant.
    Right,
}

/// The verdict on a rule, the first that is true of it. It takes no memory.
pub fn judge<const N: usize>(m: &Matrix<N>, rule: &Rule<N>) -> Verdict
    requires fits { Fits m.now (plain_rule rule.now) }
    requires numbered { IsNumbered (plain_rule rule.now) }
    ensures { IsVerdict m.now (plain_rule rule.now) result }
{
    match rule_exact(m, rule) {
        Some(row) => Verdict::Differs(row),
        None => match rule_irredundant(m, rule) {
            Some(part) => Verdict::Superfluous(part),
            None => Verdict::Right,
        },
    }
}

pub(crate) fn is_right(verdict: Verdict) -> bool
    ensures { result ≡ is_right verdict }
{
    matches!(verdict, Verdict::Right)
}
