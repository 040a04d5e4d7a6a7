// Whether a rule is exact.
ghost use Rattle.std.specs.Prelude.{◌≡◌, ◌<◌, MatchOption};
ghost use Rattle.lgc_clauses.specs.Kinds.{plain_rule};
ghost use Rattle.lgc_clauses.specs.Rules.{rows_of, all_true_at, Fits};
ghost use Rattle.lgc_clauses.specs.Exactness.{IsExact, IsFirstDifference};

use crate::Rule;
use crate::table::{clause_count, clause_holds, is_inside, rows_of};
use lgc_values::Matrix;

/// Tells whether a rule is exact: whether at each row of the table the value lies in the sign exactly when every clause is true.
/// The rows of a quantifier are the nonempty sets of truth values, in the order of their masks.
///
/// `None` says that it is. Else the answer is the index, from 0, of the first row at which the value lies in the sign
/// and some clause is false, or the value lies outside and every clause is true.
pub fn rule_exact<const N: usize>(m: &Matrix<N>, rule: &Rule<N>) -> Option<u32>
    requires { Fits m.now (plain_rule rule.now) }
    ensures { MatchOption result (IsExact m.now (plain_rule rule.now)) (IsFirstDifference m.now (plain_rule rule.now)) }
{
    for row in 0..rows_of(m, rule) {
        if clauses_hold(m, rule, row) != is_inside(m, rule, row) {
            return Some(row);
        }
    }
    None
}

// Whether every clause is true at a row.
pub(crate) fn clauses_hold<const N: usize>(m: &Matrix<N>, rule: &Rule<N>, row: u32) -> bool
    requires fits { Fits m.now (plain_rule rule.now) }
    requires row { row < rows_of m.now (plain_rule rule.now).head }
    ensures { result ≡ all_true_at m.now (plain_rule rule.now).head (plain_rule rule.now).clauses row }
{
    for i in 0..clause_count(rule) {
        if !clause_holds(m, rule, i, row) {
            return false;
        }
    }
    true
}
