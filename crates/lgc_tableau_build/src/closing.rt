// Tableaux that are closed on a branch.
ghost use Rattle.std.specs.Prelude.{◌≡◌, ◌++◌, All, IfOk};
ghost use Rattle.lgc_clauses.specs.Rules.{OperatorRule};
ghost use Rattle.lgc_syntax.specs.Fits.{Fits};
ghost use Rattle.lgc_calculus.specs.RuleBook.{IsRightBook};
ghost use Rattle.lgc_lemmas.specs.Steps.{IsGrown};
ghost use Rattle.lgc_packed.specs.Packed.{unpacked};
ghost use Rattle.lgc_packed.specs.Packing.{AreKnown};
ghost use Rattle.lgc_tableau_build.specs.Building.{AreLeft, IsBranch, IsMade, AreMade};

use crate::branch::{first_full, signs_of};
use crate::opened::{Branch, Opened, longer, open, skip, split};
use lgc_calculus::RuleBook;
use lgc_numbering::Formulas;
use lgc_sequents::Signed;
use lgc_tableau::{Case, Tableau};
use lgc_values::{List, Matrix, ValueSet};
use sqlite_items::Boxed;
use std::alloc::{AllocError, Global};

// A tableau that is closed on a branch, which is true under every valuation. It splits formulas that are left.
#[cycle(close)]
pub(crate) fn close<const N: usize>(
    alloc: Global,
    m: &Matrix<N>,
    formulas: &Formulas,
    book: &mut RuleBook<N>,
    branch: &Branch<N>,
) -> Result<Tableau<Signed<N>>, AllocError>
    requires fit { All (Fits m.now) formulas.now }
    requires left { AreLeft formulas.now branch.now.left }
    requires branch { IsBranch m.now formulas.now branch.now.left branch.now.pairs }
    requires right { IsRightBook m.now book.old }
    ensures made { IfOk result (IsMade m.now book.new formulas.now branch.now.left branch.now.pairs) }
    ensures rules { IsGrown OperatorRule book.old book.new }
    ensures right { IsRightBook m.now book.new }
{
    let _operators = m.operators();
    let nodes = formulas.nodes();
    let pairs = branch.pairs.items();
    let signs = signs_of(alloc, nodes.len(), pairs)?;
    if let Some(number) = first_full(pairs, signs.as_slice()) {
        let by = formulas.formula(number)?;
        return Ok(Tableau::Closed { by });
    }
    let opened = open(alloc, m, formulas, &*book, branch, signs.as_slice())?;
    if opened.sign.is_empty() {
        let below = skip(alloc, m, formulas, branch, &opened)?;
        return close(alloc, m, formulas, book, &below);
    }
    let additions = split(alloc, m, formulas, book, branch, &opened)?;
    let cases = close_cases(alloc, m, formulas, book, branch, &opened, &additions)?;
    let formula = formulas.formula(opened.number as u64)?;
    Ok(Tableau::Split {
        on: Signed {
            formula,
            sign: opened.sign,
        },
        cases,
    })
}

// A case for each of the lists of pairs, which it adds to the branch, with a tableau that is closed there.
#[cycle(close)]
fn close_cases<const N: usize>(
    alloc: Global,
    m: &Matrix<N>,
    formulas: &Formulas,
    book: &mut RuleBook<N>,
    branch: &Branch<N>,
    opened: &Opened<N>,
    additions: &List<List<(u64, ValueSet<N>)>>,
) -> Result<List<Case<Signed<N>>>, AllocError>
    requires fit { All (Fits m.now) formulas.now }
    requires left { AreLeft formulas.now opened.now.rest }
    requires known { All (AreKnown formulas.now) additions.now }
    requires branches { All (λ added. IsBranch m.now formulas.now opened.now.rest (branch.now.pairs ++ added)) additions.now }
    requires right { IsRightBook m.now book.old }
    ensures made { IfOk result (AreMade m.now book.new formulas.now opened.now.rest branch.now.pairs additions.now) }
    ensures rules { IsGrown OperatorRule book.old book.new }
    ensures right { IsRightBook m.now book.new }
{
    let mut cases = List::new(alloc);
    for addition in additions.items() {
        let added = signed(alloc, formulas, addition.items())?;
        let branch_below = longer(alloc, m, formulas, branch, opened, addition.items())?;
        let tableau = close(alloc, m, formulas, book, &branch_below)?;
        let below = Boxed::new(alloc, tableau)?;
        cases.push(Case { added, below })?;
    }
    Ok(cases)
}

// The signed formulas of pairs.
fn signed<const N: usize>(
    alloc: Global,
    formulas: &Formulas,
    pairs: &[(u64, ValueSet<N>)],
) -> Result<List<Signed<N>>, AllocError>
    requires { AreKnown formulas.now pairs.now }
    ensures { IfOk result (λ items. items ≡ unpacked formulas.now pairs.now) }
{
    let mut items = List::new(alloc);
    for pair in pairs {
        let (number, sign) = *pair;
        let formula = formulas.formula(number)?;
        items.push(Signed { formula, sign })?;
    }
    Ok(items)
}
