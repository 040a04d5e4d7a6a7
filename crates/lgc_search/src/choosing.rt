// Which compound of a goal is opened.
ghost use Rattle.std.specs.Prelude.{◌≡◌, ◌<◌, false, length, MatchOption};
ghost use Rattle.lgc_lemmas.specs.Nodes.{HasNumbersBelow, IsCompoundAt, has_compound};

use lgc_calculus::RuleBook;
use lgc_clauses::OpRule;
use lgc_lemmas::{compound_at, is_compound_at};
use lgc_numbering::Node;
use lgc_packed::{Packed, sign_of};
use lgc_values::ValueSet;

// The place of a compound, and None where there is none. Its rule leaves the fewest premises open, as far as the book has the rules.
pub(crate) fn principal_at<const N: usize>(
    nodes: &[Node],
    book: &RuleBook<N>,
    goal: &Packed<N>,
) -> Option<usize>
    requires { HasNumbersBelow (length nodes.now) goal.now }
    ensures { MatchOption result (has_compound nodes.now goal.now ≡ false) (IsCompoundAt nodes.now goal.now) }
{
    match compound_at(nodes, goal) {
        Some(first) => Some(fewest_open(nodes, book, goal, first)),
        None => None,
    }
}

// The place of a compound whose rule leaves the fewest premises open, from one compound on.
fn fewest_open<const N: usize>(
    nodes: &[Node],
    book: &RuleBook<N>,
    goal: &Packed<N>,
    first: usize,
) -> usize
    requires numbers { HasNumbersBelow (length nodes.now) goal.now }
    requires first { IsCompoundAt nodes.now goal.now first }
    ensures { IsCompoundAt nodes.now goal.now result }
{
    let pairs = goal.pairs();
    let mut best = first;
    let mut fewest = u32::MAX;
    for at in first..pairs.len() {
        if fewest > 0 && is_compound_at(nodes, goal, at) {
            let open = open_premises(nodes, book, goal, at);
            if open < fewest {
                best = at;
                fewest = open;
            }
        }
    }
    best
}

// How many premises the rule of a compound leaves open, and 1 where it wasn't made yet.
fn open_premises<const N: usize>(
    nodes: &[Node],
    book: &RuleBook<N>,
    goal: &Packed<N>,
    at: usize,
) -> u32
    requires numbers { HasNumbersBelow (length nodes.now) goal.now }
    requires place { at < length goal.now }
{
    let (number, sign) = goal.pairs()[at];
    match &nodes[number as usize] {
        Node::Atom(_) => 1,
        Node::Compound { op, args } => match book.made_rule(*op, sign) {
            None => 1,
            Some(rule) => open_clauses(rule, args.items(), goal),
        },
    }
}

// How many clauses of a rule give no formula of the goal all values, where the principal formula has these arguments.
fn open_clauses<const N: usize>(rule: &OpRule<N>, arguments: &[u64], goal: &Packed<N>) -> u32 {
    let mut open: u32 = 0;
    for clause in rule.clauses.items() {
        if !fills_some(clause.sets.items(), arguments, goal) {
            open = open.saturating_add(1);
        }
    }
    open
}

// Whether a clause gives one of these formulas all values.
fn fills_some<const N: usize>(sets: &[ValueSet<N>], arguments: &[u64], goal: &Packed<N>) -> bool {
    for i in 0..arguments.len() {
        if i < sets.len() && fills(sets[i], sign_of(goal, arguments[i])) {
            return true;
        }
    }
    false
}

// Whether each value is in one of two sets.
fn fills<const N: usize>(set: ValueSet<N>, other: ValueSet<N>) -> bool {
    set.union(other).complement().is_empty()
}
