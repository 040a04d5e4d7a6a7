// Clauses as lists of signed atoms.
ghost use Rattle.std.specs.Prelude.{◌≡◌, ◌∷◌, ◌++◌, [], map, IfOk, OnOk};
ghost use Rattle.lgc_translate.specs.SignedClauses.{signed_atoms};

use lgc_clause_sets::ClauseRow;
use lgc_sequents::Signed;
use lgc_syntax::{Formula, copy_formula};
use lgc_values::{List, ValueSet};
use std::alloc::{AllocError, Global};
use std::marker::Model;

/// A clause over atoms, seen as the list of its items: it is true where some atom takes a value in its sign.
#[derive(Drop)]
pub struct AtomClause<const N: usize> {
    pub items: List<Signed<N>>,
}

impl<const N: usize> Model for AtomClause<N> {
    ghost use Rattle.std.specs.Prelude.{List};
    ghost use Rattle.std.specs.Coded.{coded_list};
    ghost use Rattle.lgc_sequents.specs.Signed.{SignedFormula, signed_code};

    ghost Value = { List SignedFormula };

    ghost coded = { coded_list signed_code };

    ghost view = { λ clause. clause.items };
}

// The clauses of rows over some atoms.
pub(crate) fn clauses_of_rows<const N: usize>(
    alloc: Global,
    atoms: &[Formula],
    rows: &[ClauseRow<N>],
) -> Result<List<AtomClause<N>>, AllocError>
    ensures { IfOk result (λ clauses. clauses ≡ map (signed_atoms atoms.now) rows.now) }
{
    let mut clauses = List::new(alloc);
    for row in rows {
        let items = items_of_sets(alloc, atoms, row.sets())?;
        clauses.push(AtomClause { items })?;
    }
    Ok(clauses)
}

// The atoms whose sets have members, with these as signs.
fn items_of_sets<const N: usize>(
    alloc: Global,
    atoms: &[Formula],
    sets: &[ValueSet<N>],
) -> Result<List<Signed<N>>, AllocError>
    ensures { IfOk result (λ items. items ≡ signed_atoms atoms.now sets.now) }
{
    let mut items = List::new(alloc);
    for place in 0..atoms.len().min(sets.len()) {
        add_item(alloc, &atoms[place], sets[place], &mut items)?;
    }
    Ok(items)
}

// Adds an atom at a sign, unless the sign is empty.
fn add_item<const N: usize>(
    alloc: Global,
    atom: &Formula,
    sign: ValueSet<N>,
    items: &mut List<Signed<N>>,
) -> Result<(), AllocError>
    ensures { OnOk result (items.new ≡ items.old ++ signed_atoms (atom.now ∷ []) (sign.entry ∷ [])) }
{
    if !sign.is_empty() {
        let formula = copy_formula(alloc, atom)?;
        items.push(Signed { formula, sign })?;
    }
    Ok(())
}
