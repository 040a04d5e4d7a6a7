// The search for a goal's line.
ghost use Rattle.std.specs.Prelude.{◌≡◌, false, All, IfOk};
ghost use Rattle.lgc_clauses.specs.Rules.{OperatorRule};
ghost use Rattle.lgc_syntax.specs.Fits.{Fits};
ghost use Rattle.lgc_syntax.specs.Sizes.{has_quantifier};
ghost use Rattle.lgc_calculus.specs.RuleBook.{IsRightBook};
ghost use Rattle.lgc_lemmas.specs.Steps.{IsGrown};
ghost use Rattle.lgc_decision.specs.Decided.{IsProvedFrom};
ghost use Rattle.lgc_proofs.specs.Proofs.{HasItems};
ghost use Rattle.lgc_proofs.specs.Found.{AreAppended, IsFound};

use crate::writing::{needed_by, reason_of, write_lines};
use crate::{Found, Proofs};
use lgc_calculus::RuleBook;
use lgc_decision::{Decided, decide};
use lgc_lemmas::Lemmas;
use lgc_numbering::Formulas;
use lgc_sequents::{Sequent, copy_sequent};
use lgc_values::Matrix;
use std::alloc::{AllocError, Global};

impl<const N: usize> Proofs<N> {
    /// The line of a goal, or a valuation under which the goal is false. The goal's line has its items, in some order; where it isn't there, it
    /// is appended, behind the lines that it needs and that aren't there. Appended lines are axioms, and steps by rules of the book.
    ///
    /// Where memory runs out, the book may have more rules and there may be more lines.
    #[tactic(auto, using(crate::proofs::Appending::unchanged_laws))]
    pub fn prove(
        &mut self,
        alloc: Global,
        m: &Matrix<N>,
        book: &mut RuleBook<N>,
        goal: &Sequent<N>,
    ) -> Result<Found, AllocError>
        requires fits { All (λ item. Fits m.now item.formula) goal.now }
        requires propositional { All (λ item. has_quantifier item.formula ≡ false) goal.now }
        requires right { IsRightBook m.now book.old }
        ensures found { IfOk result (IsFound m.now self.new goal.now) }
        ensures appended { AreAppended m.now book.new goal.now self.old self.new }
        ensures rules { IsGrown OperatorRule book.old book.new }
        ensures right { IsRightBook m.now book.new }
    {
        match decide(alloc, m, book, goal)? {
            Decided::Refuted(valuation) => Ok(Found::Refuted(valuation)),
            Decided::Proved {
                formulas,
                lemmas,
                place,
            } => {
                let position = self.write_goal(alloc, m, book, goal, &formulas, &lemmas, place)?;
                Ok(Found::Line(position))
            }
        }
    }

    // The position of the goal's line, where the goal includes the lemma at a place. Lines that aren't there are appended. Want of memory may
    // leave some of them.
    #[tactic(auto, using(crate::proofs::Appending::unchanged_laws))]
    fn write_goal(
        &mut self,
        alloc: Global,
        m: &Matrix<N>,
        book: &RuleBook<N>,
        goal: &Sequent<N>,
        formulas: &Formulas,
        lemmas: &Lemmas<N>,
        place: u64,
    ) -> Result<u64, AllocError>
        requires propositional { All (λ item. has_quantifier item.formula ≡ false) goal.now }
        requires right { IsRightBook m.now book.now }
        requires proved { IsProvedFrom m.now book.now goal.now formulas.now lemmas.now place }
        ensures line { IfOk result (HasItems self.new goal.now) }
        ensures appended { AreAppended m.now book.now goal.now self.old self.new }
    {
        let marks = needed_by(alloc, lemmas, place)?;
        let positions = write_lines(alloc, m, book, formulas, lemmas, &marks, place, self)?;
        let reason = reason_of(alloc, formulas, &lemmas.lemma(place).reason, &positions)?;
        let sequent = copy_sequent(alloc, goal)?;
        self.line_for(sequent, reason)
    }
}
