// Lines of which no two say the same.
ghost use Rattle.std.specs.Prelude.{◌≡◌, ◌≤◌, [], false, length, take, All, IfOk, OnErr};
ghost use Rattle.lgc_syntax.specs.Sizes.{has_quantifier};
ghost use Rattle.lgc_proofs.specs.Proofs.{AreDistinct, IsLineFor};

use crate::keys::key_of_packed;
use indexmap::IndexSet;
use lgc_numbering::Formulas;
use lgc_packed::pack;
use lgc_sequents::{Line, Reason, Sequent};
use lgc_values::List;
use std::alloc::{AllocError, Global};
use std::marker::Model;

/// Lines in the order in which they were proved, seen as their list. Their numbers are their positions, and no two of them have sequents
/// that are included in each other.
#[derive(Drop)]
pub struct Proofs<const N: usize> {
    lines: List<Line<N>>,
    formulas: Formulas,
    keys: IndexSet<Vec<u64>>,
}

impl<const N: usize> Model for Proofs<N> {
    ghost use Rattle.std.specs.Prelude.{List, map};
    ghost use Rattle.std.specs.Coded.{coded_list};
    ghost use Rattle.lgc_sequents.specs.Lines.{PlainLine, line_code};
    ghost use Rattle.lgc_proofs.specs.Store.{AreKept};

    ghost Value = { List PlainLine };

    ghost coded = { coded_list line_code };

    ghost view = { λ proofs. proofs.lines };

    ghost invariant = { λ proofs. AreKept N proofs.formulas proofs.lines (map (λ key. key.items) proofs.keys.keys) };
}

impl<const N: usize> Proofs<N> {
    /// No lines. It takes no memory; `alloc` is kept for later ones.
    pub fn new(alloc: Global) -> Self
        ensures { result ≡ [] }
    {
        Proofs {
            lines: List::new(alloc),
            formulas: Formulas::new(alloc),
            keys: IndexSet::new(alloc),
        }
    }

    /// The lines by their positions, which count from 1: the first stands at 0.
    pub fn lines(&self) -> &[Line<N>]
        ensures lines { result.now ≡ self.now }
        ensures distinct { AreDistinct self.now }
    {
        self.lines.items()
    }

    /// The lines, given away.
    pub fn into_lines(self) -> List<Line<N>>
        ensures lines { result ≡ self.entry }
        ensures distinct { AreDistinct result }
    {
        self.lines
    }

    /// Leaves the first lines, so many of them.
    pub fn truncate(&mut self, count: u64)
        requires { count ≤ length self.old }
        ensures { self.new ≡ take count self.old }
    {
        self.lines.truncate(count as usize);
        self.keys.truncate(count as usize);
    }

    // The position of a line with these items in any order. Where there is none, one is appended, with this reason.
    pub(crate) fn line_for(
        &mut self,
        sequent: Sequent<N>,
        reason: Reason,
    ) -> Result<u64, AllocError>
        requires { All (λ item. has_quantifier item.formula ≡ false) sequent }
        ensures line { IfOk result (IsLineFor self.old self.new sequent.entry reason) }
        ensures kept { OnErr result (self.new ≡ self.old) }
    {
        let alloc = *self.keys.allocator();
        let packed = pack(alloc, &sequent, &mut self.formulas)?;
        let key = key_of_packed(alloc, &packed)?;
        let count = self.keys.len();
        let (place, is_new) = self.keys.insert_full(key)?;
        if !is_new {
            return Ok(place as u64 + 1);
        }
        let number = count as u64 + 1;
        let line = Line {
            number,
            sequent,
            reason,
        };
        if let Err(error) = self.lines.push(line) {
            self.keys.truncate(count);
            return Err(error);
        }
        Ok(number)
    }
}
