// The tableaux of queries.
ghost use Rattle.std.specs.Prelude.{◌≡◌, ◌++◌, ◌<◌, ◌^◌, All, OnOk, IfOk};
ghost use Rattle.std.specs.Fmt.{decimal};
ghost use Rattle.lgc_clauses.specs.Rules.{OperatorRule};
ghost use Rattle.lgc_syntax.specs.Sizes.{depth};
ghost use Rattle.lgc_calculus.specs.RuleBook.{IsRightBook};
ghost use Rattle.lgc_goals.specs.Goals.{goal_count, goals_of};
ghost use Rattle.lgc_lemmas.specs.Steps.{IsGrown};
ghost use Rattle.lgc_queries.specs.Asked.{IsAsked};
ghost use Rattle.lgc_tableaux.specs.TableauxText.{goal_text, built_text, IsTableauxText};
ghost use Rattle.lgc_tableaux.specs.Work.{is_closed, IsShallow, IsGoalPut, AreGoalsPut};

use itoa::Buffer;
use lgc_calculus::RuleBook;
use lgc_goals::{goal_at, goal_count};
use lgc_meaning::Query;
use lgc_sequents::Signed;
use lgc_tableau_build::{Built, build};
use lgc_tableau_text::{put_entries, put_items, put_tableau};
use lgc_values::Matrix;
use std::alloc::{AllocError, Global};

/// The text of the tableaux of queries, and whether the tableaux of all their goals are closed.
#[derive(Drop)]
pub struct Tableaux {
    pub text: Vec<u8>,
    pub all_closed: bool,
}

/// The text of the tableaux for the goals of queries, in their order, with a valuation against each goal that some valuation makes false, and
/// whether every valuation satisfies every query. It fails only where memory is wanting.
pub fn tableaux_text<const N: usize>(
    alloc: Global,
    m: &Matrix<N>,
    queries: &[Query],
) -> Result<Tableaux, AllocError>
    requires { All (IsAsked m.now) queries.now }
    ensures { IfOk result (λ made. IsTableauxText m.now queries.now made.all_closed made.text.items) }
{
    let _operators = m.operators();
    let mut book = RuleBook::new(alloc);
    let mut text = Vec::new(alloc);
    let mut all_closed = true;
    for (i, query) in queries.iter().enumerate() {
        let closed = put_query(alloc, m, &mut book, i + 1, query, &mut text)?;
        all_closed = all_closed && closed;
    }
    Ok(Tableaux { text, all_closed })
}

// Puts the tableaux of the goals of a query with a number, and tells whether all of them are closed.
fn put_query<const N: usize>(
    alloc: Global,
    m: &Matrix<N>,
    book: &mut RuleBook<N>,
    number: usize,
    query: &Query,
    into: &mut Vec<u8>,
) -> Result<bool, AllocError>
    requires asked { IsAsked m.now query.now }
    requires right { IsRightBook m.now book.old }
    ensures put { IfOk result (λ closed. AreGoalsPut N m.now book.new number (goals_of m.now.size query.now) closed into.old.items into.new.items) }
    ensures rules { OnOk result (IsGrown OperatorRule book.old book.new) }
    ensures right { OnOk result (IsRightBook m.now book.new) }
{
    let _operators = m.operators();
    let mut all_closed = true;
    for place in 0..goal_count(m, query) {
        let closed = put_goal(alloc, m, book, number, query, place, into)?;
        all_closed = all_closed && closed;
    }
    Ok(all_closed)
}

// Puts the goal of a query at a place, counted from 0, with its tableau or with the valuation against it, and tells whether it is closed.
fn put_goal<const N: usize>(
    alloc: Global,
    m: &Matrix<N>,
    book: &mut RuleBook<N>,
    number: usize,
    query: &Query,
    place: u32,
    into: &mut Vec<u8>,
) -> Result<bool, AllocError>
    requires asked { IsAsked m.now query.now }
    requires within { place < goal_count N query.now }
    requires right { IsRightBook m.now book.old }
    ensures put { IfOk result (λ closed. IsGoalPut N m.now book.new number query.now place closed into.old.items into.new.items) }
    ensures rules { OnOk result (IsGrown OperatorRule book.old book.new) }
    ensures right { OnOk result (IsRightBook m.now book.new) }
{
    let _operators = m.operators();
    let goal = goal_at(alloc, m, query, place)?;
    let built = build(alloc, m, book, &goal)?;
    put_heading(alloc, m, number, place as usize + 1, goal.items(), into)?;
    put_built(alloc, m, &built, into)?;
    Ok(is_closed(&built))
}

#[tactic(auto, unfolding(crate::specs::TableauxText::goal_text))]
fn put_heading<const N: usize>(
    alloc: Global,
    m: &Matrix<N>,
    query: usize,
    number: usize,
    goal: &[Signed<N>],
    into: &mut Vec<u8>,
) -> Result<(), AllocError>
    requires { All (λ item. depth item.formula < 2 ^ 32) goal.now }
    ensures { OnOk result (into.new.items ≡ into.old.items ++ goal_text m.now query number goal.now) }
{
    into.extend_from_slice(b"goal ")?;
    put_number(query, into)?;
    into.push(b'.')?;
    put_number(number, into)?;
    into.extend_from_slice(b": ")?;
    put_items(alloc, m, goal, into)
}

fn put_number(number: usize, into: &mut Vec<u8>) -> Result<(), AllocError>
    ensures { OnOk result (into.new.items ≡ into.old.items ++ decimal number) }
{
    let mut buffer = Buffer::new();
    into.extend_from_slice(buffer.format(number).as_bytes())
}

fn put_built<const N: usize>(
    alloc: Global,
    m: &Matrix<N>,
    built: &Built<N>,
    into: &mut Vec<u8>,
) -> Result<(), AllocError>
    requires { IsShallow built.now }
    ensures { OnOk result (into.new.items ≡ into.old.items ++ built_text m.now built.now) }
{
    match built {
        Built::Closed(t) => {
            into.push(b'\n')?;
            put_tableau(alloc, m, t, into)
        }
        Built::Unclosed(valuation) => {
            into.extend_from_slice(b" unclosed at ")?;
            put_entries(alloc, m, valuation.entries(), into)?;
            into.extend_from_slice(b"\n")
        }
    }
}

fn is_closed<const N: usize>(built: &Built<N>) -> bool
    ensures { result ≡ is_closed built.now }
{
    match built {
        Built::Closed(_) => true,
        Built::Unclosed(_) => false,
    }
}
