// Rules of operators, each made once and found by its operator and sign.
ghost use Rattle.std.specs.Prelude.{◌≡◌, ◌≢◌, ◌+◌, ◌*◌, ◌^◌, ◌<◌, ◌≤◌, ℕ, [], length, take, Ok, IfOk, OnErr, MatchOption};
ghost use Rattle.lgc_values.specs.Logic.{Logic, IsLogic};
ghost use Rattle.lgc_values.specs.declared.TheConstants.{MOST_SYMBOLS};
ghost use Rattle.lgc_calculus.specs.RuleBook.{IsRightBook, IsNumberFor, IsRuleFor};

use indexmap::IndexSet;
use lgc_clauses::OpRule;
use lgc_op_rules::operator_rule;
use lgc_values::{List, Matrix, ValueSet};
use std::alloc::{AllocError, Global};
use std::marker::Model;

// What a rule is found by: its operator, and the mask of its sign.
#[derive(Clone, Copy, Debug, PartialEq, Eq, Hash)]
struct RuleKey {
    op: u16,
    mask: u16,
}

/// Rules of operators, seen as the list of them by their numbers, which count from 1.
#[derive(Debug, Drop)]
pub struct RuleBook<const N: usize> {
    rules: List<OpRule<N>>,
    keys: IndexSet<RuleKey>,
}

impl<const N: usize> Model for RuleBook<N> {
    ghost use Rattle.std.specs.Prelude.{List};
    ghost use Rattle.lgc_clauses.specs.Rules.{OperatorRule};
    ghost use Rattle.lgc_calculus.specs.RuleKeys.{AreKeys};

    ghost Value = { List OperatorRule };

    ghost view = { λ book. book.rules };

    ghost invariant = { λ book. AreKeys N book.rules book.keys.keys };
}

impl<const N: usize> RuleBook<N> {
    /// The book without rules, which is right for every logic. It takes no memory; `alloc` is kept for later rules.
    pub fn new(alloc: Global) -> Self
        ensures empty { result ≡ [] }
        ensures right { (logic : Logic) → IsRightBook logic result }
    {
        RuleBook {
            rules: List::new(alloc),
            keys: IndexSet::new(alloc),
        }
    }

    /// The rules: the one with number `k` stands at `k - 1`. A right book has no more than there are operators and signs.
    pub fn rules(&self) -> &[OpRule<N>]
        ensures rules { result.now ≡ self.now }
        ensures few { (logic : Logic) → IsLogic logic → IsRightBook logic self.now → length self.now ≤ MOST_SYMBOLS * 2 ^ N }
    {
        self.rules.items()
    }

    /// The rule for operator `op`, counted from 0, at a sign, and None where it wasn't made yet.
    pub fn made_rule(&self, op: u16, sign: ValueSet<N>) -> Option<&OpRule<N>>
        ensures { MatchOption result ((number : ℕ) → IsNumberFor self.now op sign.entry number → ⊥) (λ rule. IsRuleFor self.now op sign.entry rule.now) }
    {
        let mask = sign.mask();
        if let Some(place) = self.keys.get_index_of(&RuleKey { op, mask }) {
            return Some(self.rules.get(place));
        }
        None
    }

    /// The number of the rule for operator `op`, counted from 0, at a sign. The rule is derived and appended where it isn't there.
    ///
    /// Fails only where the rule isn't there and memory is wanting. The book is then as it was.
    pub fn rule_for(&mut self, m: &Matrix<N>, op: u16, sign: ValueSet<N>) -> Result<u32, AllocError>
        requires operator { op < length m.now.operators }
        requires nonempty { sign ≢ [] }
        requires right { IsRightBook m.now self.old }
        ensures number { IfOk result (IsNumberFor self.new op sign.entry) }
        ensures known { (number : ℕ) → IsNumberFor self.old op sign.entry number → (result ≡ Ok number) × (self.new ≡ self.old) }
        ensures kept { take (length self.old) self.new ≡ self.old }
        ensures one { length self.new ≤ length self.old + 1 }
        ensures failed { OnErr result (self.new ≡ self.old) }
        ensures right { IsRightBook m.now self.new }
    {
        let _operators = m.operators();
        let key = RuleKey {
            op,
            mask: sign.mask(),
        };
        if let Some(place) = self.keys.get_index_of(&key) {
            return Ok(place as u32 + 1);
        }
        let count = self.rules.len();
        let rule = operator_rule(*self.keys.allocator(), m, op, sign)?;
        self.rules.push(rule)?;
        if self.keys.insert(key).is_err() {
            self.rules.truncate(count);
            return Err(AllocError);
        }
        Ok(count as u32 + 1)
    }
}
