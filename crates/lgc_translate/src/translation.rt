// The clauses of a formula at a sign, reduced at each step.
ghost use Rattle.std.specs.Prelude.{◌≡◌, ◌∷◌, [], true, false, length, take, map, All, AllPairs, IfOk, OnOk};
ghost use Rattle.std.specs.List.{flat_map};
ghost use Rattle.lgc_values.specs.Values.{IsSize};
ghost use Rattle.lgc_syntax.specs.Fits.{Fits};
ghost use Rattle.lgc_syntax.specs.Sizes.{has_quantifier};
ghost use Rattle.lgc_calculus.specs.RuleBook.{IsRightBook};
ghost use Rattle.lgc_clause_sets.specs.Reductions.{IsReduction};
ghost use Rattle.lgc_translate.specs.Translation as translation;
ghost use Rattle.lgc_translate.specs.Covering.{covers};
ghost use Rattle.lgc_translate.specs.SignedClauses.{atoms_in, AreLeastClauses, IsClauseOver, AreApart, IsClauseSet};
ghost use Rattle.lgc_translate.specs.Words.{AreReduced};

use crate::AtomClause;
use crate::atom_clause::clauses_of_rows;
use crate::covering::cover;
use crate::rows::{has_member, no_items, one_item, rule_at};
use lgc_calculus::RuleBook;
use lgc_clause_sets::{ClauseSet, is_full};
use lgc_clauses::{Clause, OpRule};
use lgc_meaning::{Query, atoms_of};
use lgc_syntax::{Formula, copy_formula};
use lgc_values::{List, Matrix, ValueSet};
use std::alloc::{AllocError, Global};

/// The clauses of a formula without quantifiers at a sign: under each valuation its value lies in the sign exactly where every clause is true. They
/// are those to which the rules of the book lead, without those that are always true or subsumed by another one. Each has distinct atoms of the
/// formula, in the order in which these first stand in it, with signs that have members and not all values. The order of the clauses isn't promised.
///
/// The rules that are asked for and aren't there are derived and appended to the book. They stay where memory is wanting, for which alone the call
/// fails.
pub fn to_clauses<const N: usize>(
    alloc: Global,
    m: &Matrix<N>,
    book: &mut RuleBook<N>,
    f: &Formula,
    sign: ValueSet<N>,
) -> Result<List<AtomClause<N>>, AllocError>
    requires fits { Fits m.now f.now }
    requires propositional { has_quantifier f.now ≡ false }
    requires right { IsRightBook m.now book.old }
    ensures clauses { IfOk result (AreLeastClauses N book.new f.now sign.entry) }
    ensures covered { OnOk result (covers N book.new f.now sign.entry ≡ true) }
    ensures formed { IfOk result (All (IsClauseOver N f.now)) }
    ensures apart { IfOk result (AllPairs AreApart) }
    ensures truth { IfOk result (IsClauseSet m.now f.now sign.entry) }
    ensures kept { take (length book.old) book.new ≡ book.old }
    ensures right { IsRightBook m.now book.new }
{
    let _operators = m.operators();
    cover(m, book, f, sign)?;
    clauses_by(alloc, f, sign, book.rules())
}

// The clauses by rules that stay as they are.
fn clauses_by<const N: usize>(
    alloc: Global,
    f: &Formula,
    sign: ValueSet<N>,
    rules: &[OpRule<N>],
) -> Result<List<AtomClause<N>>, AllocError>
    ensures { IfOk result (AreReduced N rules.now f.now sign.entry) }
{
    let _mask = sign.mask();
    let atoms = atoms_of_formula(alloc, f)?;
    let set = reduced(alloc, f, sign, rules, atoms.items())?;
    clauses_of_rows(alloc, atoms.items(), set.rows())
}

// The atoms of a formula, each once, in the order of their first places.
fn atoms_of_formula(alloc: Global, f: &Formula) -> Result<List<Formula>, AllocError>
    ensures { IfOk result (λ atoms. atoms ≡ atoms_in f.now) }
{
    let mut conclusions = List::new(alloc);
    conclusions.push(copy_formula(alloc, f)?)?;
    let query = Query::Mixed {
        given: 0,
        wanted: 0,
        premises: List::new(alloc),
        conclusions,
    };
    atoms_of(alloc, &query)
}

// A reduction of the clauses to which rules lead from a formula at a sign.
#[cycle(reduced)]
#[tactic(auto, using(crate::proofs::TranslationLaws::translation_laws))]
fn reduced<const N: usize>(
    alloc: Global,
    f: &Formula,
    sign: ValueSet<N>,
    rules: &[OpRule<N>],
    atoms: &[Formula],
) -> Result<ClauseSet<N>, AllocError>
    requires { IsSize N }
    ensures { IfOk result (IsReduction N (translation.translated N rules.now atoms.now f.now sign.entry)) }
{
    if is_full(sign) {
        return Ok(ClauseSet::new(alloc));
    }
    if !has_member(sign) {
        return ClauseSet::of_row(alloc, no_items(alloc, atoms)?);
    }
    match f {
        Formula::Atom(_, _) => ClauseSet::of_row(alloc, one_item(alloc, f, sign, atoms)?),
        Formula::Op(op, args) => match rule_at(rules, *op, sign) {
            None => Ok(ClauseSet::new(alloc)),
            Some(rule) => of_clauses(alloc, args.items(), rule.clauses.items(), rules, atoms),
        },
        Formula::Quant(_, _) => Ok(ClauseSet::new(alloc)),
    }
}

// A reduction of the choices for all clauses of a rule.
#[cycle(reduced)]
fn of_clauses<const N: usize>(
    alloc: Global,
    args: &[Formula],
    clauses: &[Clause<N>],
    rules: &[OpRule<N>],
    atoms: &[Formula],
) -> Result<ClauseSet<N>, AllocError>
    requires { IsSize N }
    ensures { IfOk result (IsReduction N (flat_map (λ sets. translation.choices N atoms.now sets (map (translation.translated N rules.now atoms.now) args.now)) clauses.now)) }
{
    let mut kept = ClauseSet::new(alloc);
    for clause in clauses {
        let more = of_clause(alloc, args, clause.sets.items(), rules, atoms)?;
        kept = kept.union(more)?;
    }
    Ok(kept)
}

// A reduction of the choices for one clause of a rule.
#[cycle(reduced)]
fn of_clause<const N: usize>(
    alloc: Global,
    args: &[Formula],
    sets: &[ValueSet<N>],
    rules: &[OpRule<N>],
    atoms: &[Formula],
) -> Result<ClauseSet<N>, AllocError>
    requires { IsSize N }
    ensures { IfOk result (IsReduction N (translation.choices N atoms.now sets.now (map (translation.translated N rules.now atoms.now) args.now))) }
{
    let mut kept = ClauseSet::of_row(alloc, no_items(alloc, atoms)?)?;
    let mut j = args.len().min(sets.len());
    while j > 0 {
        j -= 1;
        let clauses = reduced(alloc, &args[j], sets[j], rules, atoms)?;
        kept = clauses.products(alloc, &kept)?;
    }
    Ok(kept)
}
