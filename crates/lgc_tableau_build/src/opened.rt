// Branches of a tableau, the formula that is split next, and the branches below it.
//
// What a call of `close` requires of a branch, and that fewer formulas are left there, is ensured by the function that makes the branch: the
// calls inside the cycle of `close` are proved by what is said there in the same words.
ghost use Rattle.std.specs.Prelude.{◌≡◌, ◌≢◌, ◌<◌, ◌+◌, ◌*◌, ◌++◌, [], false, length, slice_set, All, IfOk};
ghost use Rattle.lgc_clauses.specs.Rules.{OperatorRule};
ghost use Rattle.lgc_syntax.specs.Fits.{Fits};
ghost use Rattle.lgc_calculus.specs.RuleBook.{IsRightBook};
ghost use Rattle.lgc_lemmas.specs.Steps.{IsGrown};
ghost use Rattle.lgc_packed.specs.Packing.{AreKnown};
ghost use Rattle.lgc_tableau_build.specs.Numbers.{AreSigns, IsNoneFull};
ghost use Rattle.lgc_tableau_build.specs.Building.{AreLeft, IsBranch, IsOpened, IsExpanded, left_count};

use crate::choosing::next;
use crate::expanding::expand;
use lgc_calculus::RuleBook;
use lgc_numbering::Formulas;
use lgc_values::{List, Matrix, ValueSet};
use std::alloc::{AllocError, Global};

/// The signed formulas of a branch, by the numbers of the formulas, and which of the numbered formulas are left to be split.
#[derive(Drop)]
pub(crate) struct Branch<const N: usize> {
    pub left: List<bool>,
    pub pairs: List<(u64, ValueSet<N>)>,
}

/// The number of a formula that is left, the values that it has on the branch, and which formulas are left without it.
#[derive(Drop)]
pub(crate) struct Opened<const N: usize> {
    pub number: usize,
    pub sign: ValueSet<N>,
    pub rest: List<bool>,
}

// The formula that is split next on a branch where none has all values, where these are the formulas' signs.
pub(crate) fn open<const N: usize>(
    alloc: Global,
    m: &Matrix<N>,
    formulas: &Formulas,
    book: &RuleBook<N>,
    branch: &Branch<N>,
    signs: &[ValueSet<N>],
) -> Result<Opened<N>, AllocError>
    requires left { AreLeft formulas.now branch.now.left }
    requires branch { IsBranch m.now formulas.now branch.now.left branch.now.pairs }
    requires count { length signs.now ≡ length formulas.now }
    requires signs { AreSigns N branch.now.pairs signs.now }
    requires unclosed { IsNoneFull N branch.now.pairs }
    ensures is { IfOk result (λ opened. IsOpened m.now formulas.now branch.now.left branch.now.pairs opened.number opened.sign opened.rest) }
    ensures left { IfOk result (λ opened. AreLeft formulas.now opened.rest) }
    ensures number { IfOk result (λ opened. opened.number < length formulas.now) }
    ensures falls { IfOk result (λ opened. 2 * left_count opened.rest + 2 < 2 * left_count branch.now.left + 1) }
{
    let _operators = m.operators();
    let nodes = formulas.nodes();
    let left = branch.left.items();
    match next(nodes, book, left, signs) {
        None => unreachable!(),
        Some(number) => {
            let rest = without(alloc, left, number)?;
            let sign = signs[number];
            Ok(Opened { number, sign, rest })
        }
    }
}

// The marks without the one of a formula.
fn without(alloc: Global, left: &[bool], k: usize) -> Result<List<bool>, AllocError>
    requires { k < length left.now }
    ensures { IfOk result (λ rest. rest ≡ slice_set left.now k false) }
{
    let mut rest = Vec::from_slice(alloc, left)?;
    rest[k] = false;
    Ok(List::of_vec(rest))
}

// The same branch without the formula, which has no value there.
pub(crate) fn skip<const N: usize>(
    alloc: Global,
    m: &Matrix<N>,
    formulas: &Formulas,
    branch: &Branch<N>,
    opened: &Opened<N>,
) -> Result<Branch<N>, AllocError>
    requires fit { All (Fits m.now) formulas.now }
    requires left { AreLeft formulas.now branch.now.left }
    requires branch { IsBranch m.now formulas.now branch.now.left branch.now.pairs }
    requires opened { IsOpened m.now formulas.now branch.now.left branch.now.pairs opened.now.number opened.now.sign opened.now.rest }
    requires empty { opened.now.sign ≡ [] }
    ensures rest { IfOk result (λ below. below.left ≡ opened.now.rest) }
    ensures pairs { IfOk result (λ below. below.pairs ≡ branch.now.pairs) }
    ensures left { IfOk result (λ below. AreLeft formulas.now below.left) }
    ensures branch { IfOk result (λ below. IsBranch m.now formulas.now below.left below.pairs) }
    ensures falls { IfOk result (λ below. 2 * left_count below.left + 1 < 2 * left_count branch.now.left + 1) }
{
    let _operators = m.operators();
    let _nodes = formulas.nodes();
    let left = List::of_vec(Vec::from_slice(alloc, opened.rest.items())?);
    let pairs = List::of_vec(Vec::from_slice(alloc, branch.pairs.items())?);
    Ok(Branch { left, pairs })
}

// What the clauses of the rule for the formula add to the branch, in their order.
pub(crate) fn split<const N: usize>(
    alloc: Global,
    m: &Matrix<N>,
    formulas: &Formulas,
    book: &mut RuleBook<N>,
    branch: &Branch<N>,
    opened: &Opened<N>,
) -> Result<List<List<(u64, ValueSet<N>)>>, AllocError>
    requires fit { All (Fits m.now) formulas.now }
    requires left { AreLeft formulas.now branch.now.left }
    requires branch { IsBranch m.now formulas.now branch.now.left branch.now.pairs }
    requires opened { IsOpened m.now formulas.now branch.now.left branch.now.pairs opened.now.number opened.now.sign opened.now.rest }
    requires nonempty { opened.now.sign ≢ [] }
    requires right { IsRightBook m.now book.old }
    ensures expanded { IfOk result (IsExpanded book.new formulas.now opened.now.number opened.now.sign) }
    ensures known { IfOk result (All (AreKnown formulas.now)) }
    ensures branches { IfOk result (All (λ added. IsBranch m.now formulas.now opened.now.rest (branch.now.pairs ++ added))) }
    ensures rules { IsGrown OperatorRule book.old book.new }
    ensures right { IsRightBook m.now book.new }
{
    let _operators = m.operators();
    let _nodes = formulas.nodes();
    expand(alloc, m, formulas, book, opened.number, opened.sign)
}

// The branch with further pairs behind it, without the formula that is split. The matrix and the formulas stand in the contract alone.
pub(crate) fn longer<const N: usize>(
    alloc: Global,
    _m: &Matrix<N>,
    _formulas: &Formulas,
    branch: &Branch<N>,
    opened: &Opened<N>,
    addition: &[(u64, ValueSet<N>)],
) -> Result<Branch<N>, AllocError>
    requires left { AreLeft _formulas.now opened.now.rest }
    requires branch { IsBranch _m.now _formulas.now opened.now.rest (branch.now.pairs ++ addition.now) }
    ensures rest { IfOk result (λ below. below.left ≡ opened.now.rest) }
    ensures pairs { IfOk result (λ below. below.pairs ≡ branch.now.pairs ++ addition.now) }
    ensures left { IfOk result (λ below. AreLeft _formulas.now below.left) }
    ensures branch { IfOk result (λ below. IsBranch _m.now _formulas.now below.left below.pairs) }
    ensures falls { IfOk result (λ below. 2 * left_count below.left + 1 < 2 * left_count opened.now.rest + 2) }
{
    let left = List::of_vec(Vec::from_slice(alloc, opened.rest.items())?);
    let mut pairs = Vec::from_slice(alloc, branch.pairs.items())?;
    pairs.extend_from_slice(addition)?;
    Ok(Branch {
        left,
        pairs: List::of_vec(pairs),
    })
}
