// The calculus of a logic: for each operator, each quantifier and each truth value a rule that is exact and irredundant.
ghost use Rattle.std.specs.Prelude.{◌<◌, ◌^◌, length, map, All, IfOk};
ghost use Rattle.lgc_clauses.specs.Kinds.{plain_rule};
ghost use Rattle.lgc_clauses.specs.Rules.{operator, quantifier, Fits};
ghost use Rattle.lgc_calculus.specs.Calculus.{IsCalculus};
ghost use Rattle.lgc_calculus.specs.RuleLists.{AreRules};

use lgc_clauses::Rule;
use lgc_op_rules::operator_rule;
use lgc_quant_rules::quantifier_rule;
use lgc_values::{List, Matrix, ValueSet};
use std::alloc::{AllocError, Global};

/// The rules of a logic.
#[derive(Debug, Drop)]
pub struct Calculus<const N: usize> {
    pub rules: List<Rule<N>>,
}

// One rule for each operator and each single truth value.
fn operator_rules<const N: usize>(alloc: Global, m: &Matrix<N>) -> Result<Vec<Rule<N>>, AllocError>
    ensures { IfOk result (λ rules. AreRules m.now operator (length m.now.operators) (map plain_rule rules.items)) }
{
    let mut rules = Vec::new(alloc);
    for op in 0..m.operators().len() as u16 {
        for v in 0..N as u8 {
            let rule = operator_rule(alloc, m, op, ValueSet::single(v))?;
            rules.push(Rule::Operator(rule))?;
        }
    }
    Ok(rules)
}

// One rule for each quantifier and each single truth value.
fn quantifier_rules<const N: usize>(
    alloc: Global,
    m: &Matrix<N>,
) -> Result<Vec<Rule<N>>, AllocError>
    ensures { IfOk result (λ rules. AreRules m.now quantifier (length m.now.quantifiers) (map plain_rule rules.items)) }
{
    let mut rules = Vec::new(alloc);
    for q in 0..m.quantifiers().len() as u16 {
        for v in 0..N as u8 {
            let rule = quantifier_rule(alloc, m, q, ValueSet::single(v))?;
            rules.push(Rule::Quantifier(rule))?;
        }
    }
    Ok(rules)
}

/// The calculus of the logic: one rule for each operator in the order of the file and each single truth value rising, and then
/// one for each quantifier and each single truth value. Each rule is exact and irredundant. Its clauses rise by the lists of
/// their sets' masks, in which that of a `some` set is the first, and so do the masks of the `all` sets of each clause.
pub fn derive_calculus<const N: usize>(
    alloc: Global,
    m: &Matrix<N>,
) -> Result<Calculus<N>, AllocError>
    ensures calculus { IfOk result (λ calculus. IsCalculus m.now (map plain_rule calculus.rules)) }
    ensures fits { IfOk result (λ calculus. All (λ rule. Fits m.now (plain_rule rule)) calculus.rules) }
    ensures few { IfOk result (λ calculus. length calculus.rules < 2 ^ 32) }
{
    let _operators = m.operators();
    let mut rules = operator_rules(alloc, m)?;
    let mut others = quantifier_rules(alloc, m)?;
    rules.append(&mut others)?;
    Ok(Calculus {
        rules: List::of_vec(rules),
    })
}
