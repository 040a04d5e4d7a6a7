// The rule of a quantifier at a sign.
ghost use Rattle.std.specs.Prelude.{◌≡◌, ◌<◌, length, All, IfOk};
ghost use Rattle.lgc_values.specs.Values.{IsSize};
ghost use Rattle.lgc_clauses.specs.Rules.{quantifier, of_quantifier, Fits, IsRising, HasRisingSets};
ghost use Rattle.lgc_clauses.specs.Exactness.{IsExact};
ghost use Rattle.lgc_clauses.specs.Irredundance.{IsIrredundant};

use crate::table::QuantifierTable;
use lgc_clauses::{QClause, QRule};
use lgc_derivation::derive_clauses;
use lgc_values::{List, Matrix, ValueSet};
use std::alloc::{AllocError, Global};

// The clause with these sets, of which the `some` set is the first.
fn clause_of<const N: usize>(sets: List<ValueSet<N>>) -> QClause<N>
    requires size { IsSize N }
    requires some { 0 < length sets }
    ensures { result ≡ sets.entry }
{
    let mut all = sets.into_vec();
    let some = all.remove(0);
    QClause {
        all: List::of_vec(all),
        some,
    }
}

// The clauses with these sets.
fn clauses_of<const N: usize>(
    alloc: Global,
    lists: Vec<List<ValueSet<N>>>,
) -> Result<Vec<QClause<N>>, AllocError>
    requires size { IsSize N }
    requires some { All (λ sets. 0 < length sets) lists.items }
    ensures { IfOk result (λ clauses. clauses.items ≡ lists.entry.items) }
{
    let mut clauses = Vec::new(alloc);
    for sets in lists {
        clauses.push(clause_of(sets))?;
    }
    Ok(clauses)
}

/// The rule for quantifier `q`, counted from 0, at a sign. It is exact and irredundant. Its clauses rise by the
/// lists of their masks, of which that of the `some` set is the first, and the masks of the `all` sets of each
/// clause rise.
///
/// At the full sign it has no clause. At the empty sign it has one clause, which has no `all` sets and an empty
/// `some` set, and so is false at every nonempty set.
pub fn quantifier_rule<const N: usize>(
    alloc: Global,
    m: &Matrix<N>,
    q: u16,
    sign: ValueSet<N>,
) -> Result<QRule<N>, AllocError>
    requires { q < length m.now.quantifiers }
    ensures quantifier { IfOk result (λ rule. rule.quant ≡ q) }
    ensures sign { IfOk result (λ rule. rule.sign ≡ sign.entry) }
    ensures fits { IfOk result (λ rule. Fits m.now (of_quantifier rule)) }
    ensures exact { IfOk result (λ rule. IsExact m.now (of_quantifier rule)) }
    ensures irredundant { IfOk result (λ rule. IsIrredundant m.now (of_quantifier rule)) }
    ensures rising { IfOk result (λ rule. IsRising rule.clauses) }
    ensures sets { IfOk result (λ rule. All (HasRisingSets (quantifier q)) rule.clauses) }
{
    let table = QuantifierTable::new(alloc, m, q, sign)?;
    let lists = derive_clauses(alloc, &table)?;
    let clauses = clauses_of(alloc, lists)?;
    Ok(QRule {
        quant: q,
        sign,
        clauses: List::of_vec(clauses),
    })
}
