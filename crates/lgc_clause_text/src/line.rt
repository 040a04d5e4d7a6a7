// The printed form of the clauses of an item.
ghost use Rattle.std.specs.Prelude.{◌≡◌, ◌++◌, ◌<◌, ◌^◌, map, codes, All, OnOk};
ghost use Rattle.std.specs.Fmt.{decimal};
ghost use Rattle.lgc_syntax.specs.Sizes.{depth};
ghost use Rattle.lgc_print.specs.Text.{joined};
ghost use Rattle.lgc_clause_text.specs.ClausesText as text;

use itoa::Buffer;
use lgc_print::{put_formula, put_set};
use lgc_report::put_sequent;
use lgc_sequents::Signed;
use lgc_syntax::Formula;
use lgc_translate::AtomClause;
use lgc_values::{Matrix, ValueSet};
use std::alloc::{AllocError, Global};

// The numbers of a query, of a goal of it and of an item of the goal, each from 1.
#[derive(Clone, Copy, Debug)]
pub(crate) struct Place {
    pub query: u64,
    pub goal: u64,
    pub item: u64,
}

fn put_number(number: u64, into: &mut Vec<u8>) -> Result<(), AllocError>
    ensures { OnOk result (into.new.items ≡ into.old.items ++ decimal number) }
{
    let mut buffer = Buffer::new();
    into.extend_from_slice(buffer.format(number).as_bytes())
}

#[tactic(auto, unfolding(crate::specs::ClausesText::place_text))]
fn put_place(place: Place, into: &mut Vec<u8>) -> Result<(), AllocError>
    ensures { OnOk result (into.new.items ≡ into.old.items ++ text.place_text place.query place.goal place.item) }
{
    into.extend_from_slice(b"goal ")?;
    put_number(place.query, into)?;
    into.push(b'.')?;
    put_number(place.goal, into)?;
    into.extend_from_slice(b" item ")?;
    put_number(place.item, into)
}

#[tactic(auto, using(std::proofs::lemmas::Grind::common_steps, crate::proofs::TextLaws::clause_cases))]
fn put_clause<const N: usize>(
    alloc: Global,
    m: &Matrix<N>,
    items: &[Signed<N>],
    into: &mut Vec<u8>,
) -> Result<(), AllocError>
    requires { All (λ item. depth item.formula < 2 ^ 32) items.now }
    ensures { OnOk result (into.new.items ≡ into.old.items ++ text.clause_text m.now items.now) }
{
    if items.is_empty() {
        return into.extend_from_slice(b"0");
    }
    put_sequent(alloc, m, items, into)
}

#[tactic(auto, using(std::proofs::lemmas::Grind::common_steps, lgc_print::proofs::TextLaws::joined_more, lgc_print::proofs::TextLaws::between_more))]
fn put_each<const N: usize>(
    alloc: Global,
    m: &Matrix<N>,
    clauses: &[AtomClause<N>],
    into: &mut Vec<u8>,
) -> Result<(), AllocError>
    requires { All (λ clause. All (λ item. depth item.formula < 2 ^ 32) clause) clauses.now }
    ensures { OnOk result (into.new.items ≡ into.old.items ++ joined (codes "; ") (map (text.clause_text m.now) clauses.now)) }
{
    let mut separator: &[u8] = b"";
    for clause in clauses {
        into.extend_from_slice(separator)?;
        put_clause(alloc, m, clause.items.items(), into)?;
        separator = b"; ";
    }
    Ok(())
}

#[tactic(auto, unfolding(crate::specs::ClausesText::clauses_text))]
fn put_clauses<const N: usize>(
    alloc: Global,
    m: &Matrix<N>,
    clauses: &[AtomClause<N>],
    into: &mut Vec<u8>,
) -> Result<(), AllocError>
    requires { All (λ clause. All (λ item. depth item.formula < 2 ^ 32) clause) clauses.now }
    ensures { OnOk result (into.new.items ≡ into.old.items ++ text.clauses_text m.now clauses.now) }
{
    into.push(b'[')?;
    put_each(alloc, m, clauses, into)?;
    into.push(b']')?;
    Ok(())
}

// Puts the line of an item: of a formula at a sign.
#[tactic(auto, unfolding(crate::specs::ClausesText::line_text))]
pub(crate) fn put_line<const N: usize>(
    alloc: Global,
    m: &Matrix<N>,
    place: Place,
    f: &Formula,
    sign: ValueSet<N>,
    clauses: &[AtomClause<N>],
    into: &mut Vec<u8>,
) -> Result<(), AllocError>
    requires formula { depth f.now < 2 ^ 32 }
    requires atoms { All (λ clause. All (λ item. depth item.formula < 2 ^ 32) clause) clauses.now }
    ensures { OnOk result (into.new.items ≡ into.old.items ++ text.line_text m.now (record { query = place.query; goal = place.goal; item = place.item; formula = f.now; sign = sign.entry }) clauses.now) }
{
    put_place(place, into)?;
    into.extend_from_slice(b": ")?;
    put_formula(alloc, m, f, 0, into)?;
    into.extend_from_slice(b" at ")?;
    put_set(m.names(), sign, into)?;
    into.extend_from_slice(b": ")?;
    put_clauses(alloc, m, clauses, into)?;
    into.extend_from_slice(b".\n")
}
