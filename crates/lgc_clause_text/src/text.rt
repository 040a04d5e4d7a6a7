// The text of the signed clauses of queries.
ghost use Rattle.std.specs.Prelude.{◌≡◌, ◌++◌, ◌∷◌, [], length, take, All, IfOk, OnOk};
ghost use Rattle.lgc_calculus.specs.RuleBook.{IsRightBook};
ghost use Rattle.lgc_goals.specs.Goals.{goals_of, complement};
ghost use Rattle.lgc_queries.specs.Asked.{IsAsked};
ghost use Rattle.lgc_clause_text.specs.Items.{items_of_goal, items_of_goals};
ghost use Rattle.lgc_clause_text.specs.ClausesText.{IsClausesText};
ghost use Rattle.lgc_clause_text.specs.Put.{ArePut, IsTranslatable};

use crate::line::{Place, put_line};
use lgc_calculus::RuleBook;
use lgc_goals::goals;
use lgc_meaning::Query;
use lgc_sequents::{Sequent, Signed};
use lgc_translate::to_clauses;
use lgc_values::Matrix;
use std::alloc::{AllocError, Global};

/// The text of the signed clauses of queries, in their order: one line for each item of each goal. All clauses are those by the rules of one book,
/// in some order. It fails only where memory is wanting.
pub fn clauses_text<const N: usize>(
    alloc: Global,
    m: &Matrix<N>,
    queries: &[Query],
) -> Result<Vec<u8>, AllocError>
    requires { All (IsAsked m.now) queries.now }
    ensures { IfOk result (λ text. IsClausesText m.now queries.now text.items) }
{
    let _operators = m.operators();
    let mut book = RuleBook::new(alloc);
    let mut text = Vec::new(alloc);
    for (place, query) in queries.iter().enumerate() {
        put_query(alloc, m, &mut book, place as u64 + 1, query, &mut text)?;
    }
    Ok(text)
}

// Puts the lines of a query with a number.
fn put_query<const N: usize>(
    alloc: Global,
    m: &Matrix<N>,
    book: &mut RuleBook<N>,
    number: u64,
    query: &Query,
    into: &mut Vec<u8>,
) -> Result<(), AllocError>
    requires asked { IsAsked m.now query.now }
    requires right { IsRightBook m.now book.old }
    ensures put { OnOk result (ArePut m.now book.new (items_of_goals m.now number 1 (goals_of m.now.size query.now)) into.old.items into.new.items) }
    ensures kept { take (length book.old) book.new ≡ book.old }
    ensures right { IsRightBook m.now book.new }
{
    let _operators = m.operators();
    let goals = goals(alloc, m, query)?;
    put_goals(alloc, m, book, number, goals.items(), into)
}

// Puts the lines of the goals of a query with a number.
fn put_goals<const N: usize>(
    alloc: Global,
    m: &Matrix<N>,
    book: &mut RuleBook<N>,
    query: u64,
    goals: &[Sequent<N>],
    into: &mut Vec<u8>,
) -> Result<(), AllocError>
    requires translatable { All (λ goal. All (λ item. IsTranslatable m.now item.formula) goal) goals.now }
    requires right { IsRightBook m.now book.old }
    ensures put { OnOk result (ArePut m.now book.new (items_of_goals m.now query 1 goals.now) into.old.items into.new.items) }
    ensures kept { take (length book.old) book.new ≡ book.old }
    ensures right { IsRightBook m.now book.new }
{
    for (place, goal) in goals.iter().enumerate() {
        put_goal(alloc, m, book, query, place as u64 + 1, goal.items(), into)?;
    }
    Ok(())
}

// Puts the lines of a goal's items.
fn put_goal<const N: usize>(
    alloc: Global,
    m: &Matrix<N>,
    book: &mut RuleBook<N>,
    query: u64,
    goal: u64,
    items: &[Signed<N>],
    into: &mut Vec<u8>,
) -> Result<(), AllocError>
    requires translatable { All (λ item. IsTranslatable m.now item.formula) items.now }
    requires right { IsRightBook m.now book.old }
    ensures put { OnOk result (ArePut m.now book.new (items_of_goal m.now query goal 1 items.now) into.old.items into.new.items) }
    ensures kept { take (length book.old) book.new ≡ book.old }
    ensures right { IsRightBook m.now book.new }
{
    for (place, item) in items.iter().enumerate() {
        let place = Place {
            query,
            goal,
            item: place as u64 + 1,
        };
        put_item(alloc, m, book, place, item, into)?;
    }
    Ok(())
}

// Puts the line of an item.
fn put_item<const N: usize>(
    alloc: Global,
    m: &Matrix<N>,
    book: &mut RuleBook<N>,
    place: Place,
    item: &Signed<N>,
    into: &mut Vec<u8>,
) -> Result<(), AllocError>
    requires translatable { IsTranslatable m.now item.now.formula }
    requires right { IsRightBook m.now book.old }
    ensures put { OnOk result (ArePut m.now book.new (record { query = place.query; goal = place.goal; item = place.item; formula = item.now.formula; sign = complement m.now.size item.now.sign } ∷ []) into.old.items into.new.items) }
    ensures kept { take (length book.old) book.new ≡ book.old }
    ensures right { IsRightBook m.now book.new }
{
    let _operators = m.operators();
    let sign = item.sign.complement();
    let clauses = to_clauses(alloc, m, book, &item.formula, sign)?;
    put_line(alloc, m, place, &item.formula, sign, clauses.items(), into)
}
