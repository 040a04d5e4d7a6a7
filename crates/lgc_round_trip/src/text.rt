// The text of rules.
ghost use Rattle.std.specs.Prelude.{◌≡◌, ◌<◌, ◌≤◌, ◌^◌, length, map, All, IfOk};
ghost use Rattle.lgc_clauses.specs.Rules.{Fits};
ghost use Rattle.lgc_clauses.specs.Kinds.{plain_rule};
ghost use Rattle.lgc_print.specs.Text.{calculus_text};
ghost use Rattle.lgc_rules.specs.RuleFile.{IsFileOf};
ghost use Rattle.lgc_round_trip.specs.RoundTrip.{HasSets, IsTextOf};

use lgc_clauses::Rule;
use lgc_print::calculus_text;
use lgc_values::Matrix;
use std::alloc::{AllocError, Global};

/// The text of rules for a logic, numbered from 1. The signs have members, as `have_signs` tests.
pub fn text_of_rules<const N: usize>(
    alloc: Global,
    m: &Matrix<N>,
    rules: &[Rule<N>],
) -> Result<Vec<u8>, AllocError>
    requires fits { All (λ rule. Fits m.now (plain_rule rule)) rules.now }
    requires sets { All (λ rule. HasSets N (plain_rule rule)) rules.now }
    requires few { length rules.now < 2 ^ 32 }
    ensures text { IfOk result (λ text. text.items ≡ calculus_text m.now (map plain_rule rules.now)) }
    // The grammar of rule files derives these rules from the text.
    ensures read { IfOk result (λ text. IsTextOf N m.now text.items rules.now) }
    // Where it isn't too long it is a file of these rules, and `read_rules` answers them.
    ensures file { IfOk result (λ text. length text.items ≤ 33_554_432 → IsFileOf N m.now text.items rules.now) }
{
    let _names = m.names();
    calculus_text(alloc, m, rules)
}
