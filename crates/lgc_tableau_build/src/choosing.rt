// Which formula is split next.
ghost use Rattle.std.specs.Prelude.{◌≡◌, ◌<◌, ℕ, true, false, length, MatchOption, IsFalse};
ghost use Rattle.lgc_values.specs.Values.{has};
ghost use Rattle.lgc_tableau_build.specs.Numbers.{is_left, arguments_of, AreNodesInOrder, IsArgumentOfNone, IsLastLeft, IsFree};

use lgc_calculus::RuleBook;
use lgc_clauses::OpRule;
use lgc_numbering::Node;
use lgc_values::ValueSet;

// The number of a formula that is left and is an argument of no other one that is left, and None where none is left. One that has no value on the
// branch comes first, and then one whose split leaves the fewest cases open, as far as the book has the rules.
pub(crate) fn next<const N: usize>(
    nodes: &[Node],
    book: &RuleBook<N>,
    left: &[bool],
    signs: &[ValueSet<N>],
) -> Option<usize>
    requires order { AreNodesInOrder nodes.now }
    requires left { length left.now ≡ length nodes.now }
    requires signs { length signs.now ≡ length nodes.now }
    ensures { MatchOption result ((k : ℕ) → is_left left.now k ≡ false) (IsFree nodes.now left.now) }
{
    match last_left(left) {
        Some(last) => Some(fewest_open(nodes, book, left, signs, last)),
        None => None,
    }
}

// The greatest number of a formula that is left.
fn last_left(left: &[bool]) -> Option<usize>
    ensures { MatchOption result ((k : ℕ) → is_left left.now k ≡ false) (IsLastLeft left.now) }
{
    let mut k = left.len();
    while k > 0 {
        k -= 1;
        if left[k] {
            return Some(k);
        }
    }
    None
}

// The number of a formula whose split leaves the fewest cases open, where this one is the last that is left.
fn fewest_open<const N: usize>(
    nodes: &[Node],
    book: &RuleBook<N>,
    left: &[bool],
    signs: &[ValueSet<N>],
    last: usize,
) -> usize
    requires order { AreNodesInOrder nodes.now }
    requires left { length left.now ≡ length nodes.now }
    requires signs { length signs.now ≡ length nodes.now }
    requires last { IsLastLeft left.now last }
    ensures { IsFree nodes.now left.now result }
{
    let mut best = last;
    let mut fewest = open_cases(nodes, book, signs, last);
    for k in 0..last {
        if left[k] && fewest > 0 {
            let open = open_cases(nodes, book, signs, k);
            if open < fewest && !is_argument(nodes, left, k as u64) {
                best = k;
                fewest = open;
            }
        }
    }
    best
}

// Whether a formula is an argument of one that is left.
fn is_argument(nodes: &[Node], left: &[bool], number: u64) -> bool
    requires { length left.now ≡ length nodes.now }
    ensures { IsFalse result → IsArgumentOfNone nodes.now left.now number }
{
    for j in 0..nodes.len() {
        if left[j] && has_argument(&nodes[j], number) {
            return true;
        }
    }
    false
}

fn has_argument(node: &Node, number: u64) -> bool
    ensures { result ≡ has (arguments_of node.now) number }
{
    match node {
        Node::Atom(_) => false,
        Node::Compound { op: _, args } => is_among(args.items(), number),
    }
}

fn is_among(numbers: &[u64], number: u64) -> bool
    ensures { result ≡ has numbers.now number }
{
    for other in numbers {
        if *other == number {
            return true;
        }
    }
    false
}

// How many cases the split of a formula leaves open: none where it has no value on the branch, and 1 where the rule wasn't made yet.
fn open_cases<const N: usize>(
    nodes: &[Node],
    book: &RuleBook<N>,
    signs: &[ValueSet<N>],
    k: usize,
) -> u32
    requires number { k < length nodes.now }
    requires signs { length signs.now ≡ length nodes.now }
{
    let sign = signs[k];
    if sign.is_empty() {
        return 0;
    }
    match &nodes[k] {
        Node::Atom(_) => 1,
        Node::Compound { op, args } => match book.made_rule(*op, sign) {
            None => 1,
            Some(rule) => open_clauses(rule, args.items(), signs),
        },
    }
}

// How many clauses of a rule give none of the arguments all values.
fn open_clauses<const N: usize>(rule: &OpRule<N>, arguments: &[u64], signs: &[ValueSet<N>]) -> u32 {
    let mut open: u32 = 0;
    for clause in rule.clauses.items() {
        if !fills_some(clause.sets.items(), arguments, signs) {
            open = open.saturating_add(1);
        }
    }
    open
}

// Whether a clause gives one of these formulas all values.
fn fills_some<const N: usize>(
    sets: &[ValueSet<N>],
    arguments: &[u64],
    signs: &[ValueSet<N>],
) -> bool {
    for i in 0..arguments.len() {
        let k = arguments[i] as usize;
        if i < sets.len() && k < signs.len() && sets[i].union(signs[k]).is_full() {
            return true;
        }
    }
    false
}
