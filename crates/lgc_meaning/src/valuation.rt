// Valuations.
ghost use Rattle.std.specs.Prelude.{◌≡◌, ◌≢◌, true, [], ◌∷◌, ◌++◌, All, OnOk, OnErr};
ghost use Rattle.lgc_syntax.specs.Values.{listed};
ghost use Rattle.lgc_meaning.specs.Valuations.{is_atom, IsEntries};

use lgc_syntax::{Formula, same_formula};
use std::alloc::{AllocError, Global};
use std::marker::Model;

/// A truth value for each of some atoms, seen as the list of the atoms with their values. No atom stands twice. An atom that isn't
/// listed takes the value 0.
#[derive(Drop)]
pub struct Valuation {
    entries: Vec<(Formula, u8)>,
}

impl Model for Valuation {
    ghost use Rattle.std.specs.Prelude.{List, ℕ};
    ghost use Rattle.std.specs.Coded.{coded_list, coded×, coded_ℕ};
    ghost use Rattle.lgc_syntax.specs.declared.formula.Formula.{Formula};
    ghost use Rattle.lgc_syntax.specs.contracts.formula.Formula as formula;
    ghost use Rattle.lgc_meaning.specs.Valuations.{IsEntries};

    ghost Value = { List (Formula × ℕ) };

    ghost coded = { coded_list (coded× formula.the_row.coded coded_ℕ) };

    ghost view = { λ v. v.entries.items };

    ghost invariant = { λ v. IsEntries v.entries.items };
}

impl Valuation {
    /// The valuation that lists no atom. It takes no memory; `alloc` is kept for later entries.
    pub fn new(alloc: Global) -> Self
        ensures { result ≡ [] }
    {
        Valuation {
            entries: Vec::new(alloc),
        }
    }

    /// Gives a value to an atom that isn't listed. On want of memory the valuation is as it was, and the atom is dropped.
    pub fn set(&mut self, atom: Formula, value: u8) -> Result<(), AllocError>
        requires atom { is_atom atom ≡ true }
        requires unlisted { All (λ entry. entry.0 ≢ atom) self.old }
        ensures ok { OnOk result (self.new ≡ self.old ++ (atom, value) ∷ []) }
        ensures err { OnErr result (self.new ≡ self.old) }
    {
        self.entries.push((atom, value))?;
        Ok(())
    }

    /// The atoms with their values, in the order in which they were set.
    pub fn entries(&self) -> &[(Formula, u8)]
        ensures entries { result.now ≡ self.now }
        ensures distinct { IsEntries self.now }
    {
        self.entries.as_slice()
    }

    // The value of an atom, 0 where it isn't listed.
    pub(crate) fn value_at(&self, atom: &Formula) -> u8
        ensures { result ≡ listed self.now atom.now }
    {
        for entry in &self.entries {
            if same_formula(atom, &entry.0) {
                return entry.1;
            }
        }
        0
    }
}
