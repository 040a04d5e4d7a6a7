// What the calls on formulas and queries answer to a text.
ghost use Rattle.std.specs.Prelude.{◌≢◌, ◌<◌, ◌≤◌, All, IfOk};
ghost use Rattle.std.specs.Bool.{OnFalse};
ghost use Rattle.lgc_syntax.specs.Sizes.{depth};
ghost use Rattle.lgc_meaning.specs.Queries.{formulas_of, FitsQuery};
ghost use Rattle.lgc_formulas.specs.declared.formula.TheConstants.{MOST_DEPTH as MOST_READ};
ghost use Rattle.lgc_queries.specs.Limits.{IsFileQuery};

use lgc_formulas::{Parsed, formula_at, formula_with, read_formula, term_at, term_with};
use lgc_goals::goals;
use lgc_inputs::tokens_in;
use lgc_meaning::{Query, Valuation, atoms_of, satisfies};
use lgc_print::{write_formula, write_term};
use lgc_queries::{query_at, query_with, read_queries, write_query};
use lgc_sequents::Sequent;
use lgc_spec::{matrix_of, read_spec};
use lgc_syntax::{Formula, InputFault, copy_formula, instance, is_within, same_formula};
use lgc_values::{List, Matrix, ValueSet};
use std::alloc::{AllocError, Global};

const LONGEST_TEXT: u32 = 2_000_000;

const MOST_NODES: u32 = 1_000;

const MOST_DEPTH: u32 = 200;

/// What is asked of a text: a call and what is written of its answer.
#[derive(Clone, Copy, Debug, PartialEq, Eq)]
pub(crate) enum Asked {
    /// `read_formula`: the formula.
    Formula,
    /// `formula_with`, with numbered formulas: the formula, the place behind it, and the nodes that are left.
    Numbered,
    /// `term_with`: the term, the place behind it, and the nodes that are left.
    Term,
    /// `instance` of the body of a quantified formula, by the term behind it: the instance.
    Instance,
    /// `query_at`, with quantifiers: the query and the place behind it.
    Query,
    /// `query_with`, with numbered formulas and without quantifiers: the place behind the query.
    NumberedQuery,
    /// `read_queries`: the queries.
    Queries,
    /// `goals` of the queries of a file.
    Goals,
    /// `atoms_of` the queries of a file.
    Atoms,
    /// `satisfies`, for each query of a file: the first valuation that doesn't satisfy it, or none.
    Refutations,
}

/// What a section asks for by its name.
pub(crate) fn asked_of(name: &str) -> Option<Asked> {
    match name {
        "formula" => Some(Asked::Formula),
        "numbered" => Some(Asked::Numbered),
        "term" => Some(Asked::Term),
        "instance" => Some(Asked::Instance),
        "query" => Some(Asked::Query),
        "numbered_query" => Some(Asked::NumberedQuery),
        "queries" => Some(Asked::Queries),
        "goals" => Some(Asked::Goals),
        "atoms" => Some(Asked::Atoms),
        "refutations" => Some(Asked::Refutations),
        _ => None,
    }
}

/// The matrix of a specification, if it gives a logic with three truth values.
pub(crate) fn matrix(alloc: Global, spec: &[u8]) -> Result<Option<Matrix<3>>, AllocError> {
    let Ok(spec) = read_spec(alloc, spec) else {
        return Ok(None);
    };
    if spec.values.len() != 3 {
        return Ok(None);
    }
    Ok(Some(matrix_of(alloc, &spec)?))
}

/// What is written of the answer, where formulas have these numbers.
pub(crate) fn written(
    alloc: Global,
    m: &Matrix<3>,
    lets: &[Formula],
    asked: Asked,
    text: &[u8],
) -> Result<Vec<u8>, InputFault> {
    match asked {
        Asked::Formula => formula(alloc, m, text),
        Asked::Numbered => numbered(alloc, m, lets, text),
        Asked::Term => term(alloc, text),
        Asked::Instance => instance_of(alloc, m, text),
        Asked::Query => query(alloc, m, text),
        Asked::NumberedQuery => numbered_query(alloc, m, lets, text),
        Asked::Queries => queries(alloc, m, text),
        Asked::Goals => all_goals(alloc, m, text),
        Asked::Atoms => atoms(alloc, m, text),
        Asked::Refutations => refutations(alloc, m, text),
    }
}

/// The formula with which a text begins, where formulas have these numbers.
pub(crate) fn formula_of(
    alloc: Global,
    m: &Matrix<3>,
    lets: &[Formula],
    text: &[u8],
) -> Result<Parsed, InputFault> {
    let tokens = tokens_in(alloc, text, LONGEST_TEXT)?;
    formula_with(alloc, m, text, &tokens, 0, MOST_NODES, true, Some(lets))
}

fn formula(alloc: Global, m: &Matrix<3>, text: &[u8]) -> Result<Vec<u8>, InputFault> {
    let mut into = Vec::new(alloc);
    if text.len() < LONGEST_TEXT as usize {
        let f = read_formula(alloc, m, text)?;
        put_formula(alloc, m, &f, &mut into)?;
    }
    Ok(into)
}

fn numbered(
    alloc: Global,
    m: &Matrix<3>,
    lets: &[Formula],
    text: &[u8],
) -> Result<Vec<u8>, InputFault> {
    let Parsed {
        formula,
        next,
        nodes_left,
    } = formula_of(alloc, m, lets, text)?;
    let mut into = Vec::new(alloc);
    put_formula(alloc, m, &formula, &mut into)?;
    into.extend_from_slice(format!(in alloc; " before {next}, {nodes_left} left")?.as_bytes())?;
    Ok(into)
}

fn term(alloc: Global, text: &[u8]) -> Result<Vec<u8>, InputFault> {
    let tokens = tokens_in(alloc, text, LONGEST_TEXT)?;
    let (term, next, nodes_left) = term_with(alloc, text, &tokens, 0, MOST_NODES)?;
    let mut into = Vec::new(alloc);
    write_term(alloc, &term, &mut into)?;
    into.extend_from_slice(format!(in alloc; " before {next}, {nodes_left} left")?.as_bytes())?;
    Ok(into)
}

fn instance_of(alloc: Global, m: &Matrix<3>, text: &[u8]) -> Result<Vec<u8>, InputFault> {
    let tokens = tokens_in(alloc, text, LONGEST_TEXT)?;
    let Parsed { formula, next, .. } = formula_at(alloc, m, text, &tokens, 0, MOST_NODES, true)?;
    let (term, _) = term_at(alloc, text, &tokens, next)?;
    let mut into = Vec::new(alloc);
    if let Formula::Quant(_, body) = &formula {
        put_formula(alloc, m, &instance(alloc, body.get(), &term)?, &mut into)?;
    }
    Ok(into)
}

fn query(alloc: Global, m: &Matrix<3>, text: &[u8]) -> Result<Vec<u8>, InputFault> {
    let tokens = tokens_in(alloc, text, LONGEST_TEXT)?;
    let (query, next) = query_at(alloc, m, text, &tokens, 0, true)?;
    let mut into = Vec::new(alloc);
    put_query(alloc, m, &query, &mut into)?;
    into.extend_from_slice(format!(in alloc; " before {next}")?.as_bytes())?;
    Ok(into)
}

fn numbered_query(
    alloc: Global,
    m: &Matrix<3>,
    lets: &[Formula],
    text: &[u8],
) -> Result<Vec<u8>, InputFault> {
    let tokens = tokens_in(alloc, text, LONGEST_TEXT)?;
    let (_, next) = query_with(alloc, m, text, &tokens, 0, MOST_NODES, false, Some(lets))?;
    let mut into = Vec::new(alloc);
    into.extend_from_slice(format!(in alloc; "before {next}")?.as_bytes())?;
    Ok(into)
}

fn queries(alloc: Global, m: &Matrix<3>, text: &[u8]) -> Result<Vec<u8>, InputFault> {
    let mut into = Vec::new(alloc);
    for query in read_queries(alloc, m, text)?.items() {
        part(&mut into, b" ")?;
        put_query(alloc, m, query, &mut into)?;
        into.push(b'.')?;
    }
    Ok(into)
}

fn all_goals(alloc: Global, m: &Matrix<3>, text: &[u8]) -> Result<Vec<u8>, InputFault> {
    let mut into = Vec::new(alloc);
    for query in read_queries(alloc, m, text)?.items() {
        put_goals(alloc, m, query, &mut into)?;
    }
    Ok(into)
}

// Puts the goals of a query behind those of others.
fn put_goals(
    alloc: Global,
    m: &Matrix<3>,
    query: &Query,
    into: &mut Vec<u8>,
) -> Result<(), AllocError>
    requires { IsFileQuery m.now query.now }
{
    let _operators = m.operators();
    for goal in goals(alloc, m, query)?.items() {
        part(into, b"; ")?;
        put_sequent(alloc, m, goal, into)?;
    }
    Ok(())
}

fn atoms(alloc: Global, m: &Matrix<3>, text: &[u8]) -> Result<Vec<u8>, InputFault> {
    let mut into = Vec::new(alloc);
    for query in read_queries(alloc, m, text)?.items() {
        for atom in atoms_of(alloc, query)?.items() {
            part(&mut into, b", ")?;
            put_formula(alloc, m, atom, &mut into)?;
        }
    }
    Ok(into)
}

fn refutations(alloc: Global, m: &Matrix<3>, text: &[u8]) -> Result<Vec<u8>, InputFault> {
    let mut into = Vec::new(alloc);
    for query in read_queries(alloc, m, text)?.items() {
        part(&mut into, b"; ")?;
        put_refutation(alloc, m, query, &mut into)?;
    }
    Ok(into)
}

// ---- valuations

// The valuation of some atoms with this index among so many: its digits are the values, the first the most significant.
#[tactic(auto, using(crate::proofs::Listing::listing_rules))]
fn valuation_at(
    alloc: Global,
    atoms: &[Formula],
    count: u32,
    index: u32,
) -> Result<Valuation, AllocError>
    ensures { IfOk result (λ v. All (λ entry. entry.1 < 3) v) }
{
    let mut v = Valuation::new(alloc);
    let mut power = count;
    for atom in atoms {
        power /= 3;
        list(alloc, &mut v, atom, (index / power.max(1) % 3) as u8)?;
    }
    Ok(v)
}

// Gives a value to an atom, if it is one that isn't listed.
#[tactic(auto, using(crate::proofs::Listing::listing_rules))]
fn list(alloc: Global, v: &mut Valuation, atom: &Formula, value: u8) -> Result<(), AllocError>
    requires values { All (λ entry. entry.1 < 3) v.old }
    requires value { value < 3 }
    ensures { All (λ entry. entry.1 < 3) v.new }
{
    if let Formula::Atom(_, _) = atom
        && !lists(v.entries(), atom)
    {
        v.set(copy_formula(alloc, atom)?, value)?;
    }
    Ok(())
}

// Whether a formula is one of the entries.
fn lists(entries: &[(Formula, u8)], f: &Formula) -> bool
    ensures { OnFalse result (All (λ entry. entry.0 ≢ f.now) entries.now) }
{
    for entry in entries {
        if same_formula(&entry.0, f) {
            return true;
        }
    }
    false
}

// Puts the first valuation of its atoms that doesn't satisfy a query.
fn put_refutation(
    alloc: Global,
    m: &Matrix<3>,
    query: &Query,
    into: &mut Vec<u8>,
) -> Result<(), AllocError>
    requires { IsFileQuery m.now query.now }
{
    let _operators = m.operators();
    let atoms = atoms_of(alloc, query)?;
    if atoms.len() > 6 {
        return into.extend_from_slice(b"too many atoms");
    }
    let mut count: u32 = 1;
    for _ in atoms.items() {
        count = count.saturating_mul(3);
    }
    for index in 0..count {
        let v = valuation_at(alloc, atoms.items(), count, index)?;
        if !satisfies(m, &v, query) {
            return put_valuation(alloc, m, &v, into);
        }
    }
    into.extend_from_slice(b"none")
}

fn put_valuation(
    alloc: Global,
    m: &Matrix<3>,
    v: &Valuation,
    into: &mut Vec<u8>,
) -> Result<(), AllocError> {
    let mut text = Vec::new(alloc);
    for entry in v.entries() {
        part(&mut text, b", ")?;
        put_formula(alloc, m, &entry.0, &mut text)?;
        text.extend_from_slice(b": ")?;
        put_value(m, entry.1, &mut text)?;
    }
    into.extend_from_slice(&text)
}

// ---- texts

// Puts what stands between two parts, where there is a part before.
fn part(into: &mut Vec<u8>, between: &[u8]) -> Result<(), AllocError> {
    if into.is_empty() {
        return Ok(());
    }
    into.extend_from_slice(between)
}

fn put_formula(
    alloc: Global,
    m: &Matrix<3>,
    f: &Formula,
    into: &mut Vec<u8>,
) -> Result<(), AllocError> {
    if !is_within(f, MOST_DEPTH) {
        return into.extend_from_slice(b"too deep");
    }
    write_formula(alloc, m, f, into)
}

fn put_query(
    alloc: Global,
    m: &Matrix<3>,
    query: &Query,
    into: &mut Vec<u8>,
) -> Result<(), AllocError>
    requires shallow { All (λ f. depth f ≤ MOST_READ) (formulas_of query.now) }
    requires fits { FitsQuery m.now query.now }
{
    let _operators = m.operators();
    write_query(alloc, m, query, into)
}

fn put_sequent(
    alloc: Global,
    m: &Matrix<3>,
    sequent: &Sequent<3>,
    into: &mut Vec<u8>,
) -> Result<(), AllocError> {
    let mut text = Vec::new(alloc);
    for item in sequent.items() {
        part(&mut text, b", ")?;
        put_formula(alloc, m, &item.formula, &mut text)?;
        put_set(m, item.sign, &mut text)?;
    }
    into.extend_from_slice(if text.is_empty() { b"nothing" } else { &text })
}

// Puts `^` and the names of the members.
fn put_set(m: &Matrix<3>, set: ValueSet<3>, into: &mut Vec<u8>) -> Result<(), AllocError> {
    into.extend_from_slice(b"^{")?;
    for v in 0..3u8 {
        if set.contains(v) {
            put_value(m, v, into)?;
            into.push(b',')?;
        }
    }
    into.pop();
    into.push(b'}')?;
    Ok(())
}

fn put_value(m: &Matrix<3>, value: u8, into: &mut Vec<u8>) -> Result<(), AllocError> {
    match m.names().get(value as usize) {
        Some(name) => into.extend_from_slice(name.bytes()),
        None => Ok(()),
    }
}
