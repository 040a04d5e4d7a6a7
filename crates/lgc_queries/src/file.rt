// Reading query files.
ghost use Rattle.std.specs.Prelude.{◌≡◌, ◌<◌, ◌^◌, [], List, length, All, IfOk, Result};
ghost use Rattle.lgc_grammar.specs.Reading.{next_is, whole};
ghost use Rattle.lgc_lexer.specs.Spans.{AllIn};
ghost use Rattle.lgc_syntax.specs.declared.fault.InputFault.{InputFault};
ghost use Rattle.lgc_meaning.specs.declared.query.Query.{Query};
ghost use Rattle.lgc_tokens.specs.declared.class.Class.TheVariants.{Dot};
ghost use Rattle.lgc_tokens.specs.Spelled.{IsRest, IsShorter};
ghost use Rattle.lgc_tokens.specs.Classes.{starts_query};
ghost use Rattle.lgc_tokens.specs.Gives.{GivesAs};
ghost use Rattle.lgc_inputs.specs.Told.{Holds, IfFault, IsTree, Tells, told_of};
ghost use Rattle.lgc_formulas.specs.Named.{is, named_all};
ghost use Rattle.lgc_formulas.specs.Setting.{setting_of};
ghost use Rattle.lgc_formulas.specs.FormulaTexts.{named_place};
ghost use Rattle.lgc_queries.specs.QueryGrammar.{file_setting};
ghost use Rattle.lgc_queries.specs.QueryReading.{behind_query_at, query_end_at, next_query_at, queries_at};
ghost use Rattle.lgc_queries.specs.QueryFile.{FileGives, IsFileOf, IsFileFault};
ghost use Rattle.lgc_queries.specs.FileReading.{file_read};
ghost use Rattle.lgc_queries.specs.Limits.{IsFileQuery};

use crate::LONGEST_FILE;
use crate::goals::has_too_many_goals;
use crate::query::one_query;
use crate::read::{QueryRead, Rest};
use lgc_formulas::{Context, MOST_NODES, next_is, one};
use lgc_inputs::{fault_of, tokens_in};
use lgc_lexer::Token;
use lgc_meaning::Query;
use lgc_syntax::{InputFault, TOO_MANY_GOALS, WRONG_ARITY};
use lgc_tokens::{Class, Reading, Stop, Terminal};
use lgc_values::{List, Matrix};
use std::alloc::Global;

// A point, behind a query that is appended.
#[tactic(auto, unfolding(crate::specs::QueryReading::behind_query_at, crate::specs::QueryReading::query_end_at))]
fn end_query<'a, const N: usize>(
    c: &Context<N>,
    queries: &mut List<Query>,
    read: QueryRead,
    tokens: &'a [Token],
) -> Rest<'a>
    requires { AllIn c.now.bytes.now tokens.now }
    ensures gives { GivesAs (named_all c.now.m.now c.now.bytes.now) (λ x. (queries.new, named_all c.now.m.now c.now.bytes.now x.now)) result (behind_query_at c.now.m.now.size (is Dot) (query_end_at queries.old) read (named_all c.now.m.now c.now.bytes.now tokens.now)) }
    ensures rest { IfOk result (λ x. IsShorter c.now.bytes.now tokens.now x.now) }
{
    let QueryRead { query, is_bare } = read;
    if is_bare {
        return Err(if next_is(c, Class::Dot, tokens) {
            Stop::Breaks(WRONG_ARITY, tokens)
        } else {
            Stop::Unexpected(tokens)
        });
    }
    if has_too_many_goals(c.m, &query) {
        return Err(if next_is(c, Class::Dot, tokens) {
            Stop::Breaks(TOO_MANY_GOALS, tokens)
        } else {
            Stop::Unexpected(tokens)
        });
    }
    let (_, rest) = one(c, Class::Dot, tokens)?;
    queries.push(query)?;
    Ok(rest)
}

// The next query, which is appended.
#[tactic(auto, unfolding(crate::specs::QueryReading::next_query_at, crate::specs::QueryReading::query_before_at))]
fn next_query<'a, const N: usize>(
    alloc: Global,
    c: &Context<N>,
    queries: &mut List<Query>,
    tokens: &'a [Token],
) -> Rest<'a>
    requires inside { AllIn c.now.bytes.now tokens.now }
    requires file { setting_of c.now ≡ file_setting c.now.m.now }
    ensures gives { GivesAs (named_all c.now.m.now c.now.bytes.now) (λ x. (queries.new, named_all c.now.m.now c.now.bytes.now x.now)) result (next_query_at c.now.m.now queries.old (named_all c.now.m.now c.now.bytes.now tokens.now)) }
    ensures rest { IfOk result (λ x. IsShorter c.now.bytes.now tokens.now x.now) }
{
    let (read, rest) = one_query(alloc, c, MOST_NODES, tokens)?;
    end_query(c, queries, read, rest)
}

// Whether a query begins with the next token.
fn next_starts_query<const N: usize>(c: &Context<N>, tokens: &[Token]) -> bool
    requires { AllIn c.now.bytes.now tokens.now }
    ensures { result ≡ next_is (λ t. starts_query t.spelled) (named_all c.now.m.now c.now.bytes.now tokens.now) }
{
    lgc_tokens::next_is(c.bytes, Terminal::QueryStart, tokens)
}

// All queries.
fn more_queries<'a, const N: usize>(
    alloc: Global,
    c: &Context<N>,
    tokens: &'a [Token],
) -> Reading<'a, List<Query>>
    requires inside { AllIn c.now.bytes.now tokens.now }
    requires file { setting_of c.now ≡ file_setting c.now.m.now }
    ensures gives { GivesAs (named_all c.now.m.now c.now.bytes.now) (λ x. (x.0, named_all c.now.m.now c.now.bytes.now x.1.now)) result (queries_at c.now.m.now (named_all c.now.m.now c.now.bytes.now tokens.now)) }
    ensures rest { IfOk result (λ x. IsRest c.now.bytes.now tokens.now x.1.now) }
{
    let mut queries = List::new(alloc);
    let mut rest = tokens;
    while next_starts_query(c, rest) {
        rest = next_query(alloc, c, &mut queries, rest)?;
    }
    Ok((queries, rest))
}

// The queries that all of the tokens are.
fn whole_queries<'a, const N: usize>(
    alloc: Global,
    c: &Context<N>,
    tokens: &'a [Token],
) -> Result<List<Query>, Stop<'a>>
    requires inside { AllIn c.now.bytes.now tokens.now }
    requires file { setting_of c.now ≡ file_setting c.now.m.now }
    ensures { GivesAs (named_all c.now.m.now c.now.bytes.now) (λ queries. queries) result (whole (queries_at c.now.m.now) (named_all c.now.m.now c.now.bytes.now tokens.now)) }
{
    let (queries, rest) = more_queries(alloc, c, tokens)?;
    match rest.split_first() {
        Some(_) => Err(Stop::Unexpected(rest)),
        None => Ok(queries),
    }
}

fn queries_of<'a, const N: usize>(
    alloc: Global,
    m: &'a Matrix<N>,
    bytes: &'a [u8],
    tokens: &[Token],
) -> Result<List<Query>, InputFault>
    requires length { length bytes.now < 2 ^ 32 }
    requires inside { AllIn bytes.now tokens.now }
    ensures { Tells (λ queries. queries) result (told_of named_place (length bytes.now) (whole (queries_at m.now) (named_all m.now bytes.now tokens.now))) }
{
    let c = Context {
        m,
        bytes,
        quantified: false,
        lets: None,
    };
    match whole_queries(alloc, &c, tokens) {
        Ok(queries) => Ok(queries),
        Err(stop) => Err(fault_of(bytes, stop)),
    }
}

fn queries_in<const N: usize>(
    alloc: Global,
    m: &Matrix<N>,
    bytes: &[u8],
) -> Result<List<Query>, InputFault>
    ensures { Tells (λ queries. queries) result (file_read m.now bytes.now) }
{
    let tokens = tokens_in(alloc, bytes, LONGEST_FILE)?;
    queries_of(alloc, m, bytes, &tokens)
}

/// The queries of a query file, in their order; or its first fault.
///
/// The faults are looked for in this order: the file is longer than 1,048,576 bytes, then the bytes have no tokens, and then the text is
/// read from the left, up to the first token at which there is one. A query has at most 1,000 nodes in all of its formulas, which are at
/// most 100 deep, and at most 4,096 goals; it has no quantifier. The numbers and places are those of `InputFault`'s constants. `Memory`
/// may come at any bytes.
pub fn read_queries<const N: usize>(
    alloc: Global,
    m: &Matrix<N>,
    bytes: &[u8],
) -> Result<List<Query>, InputFault>
    // The queries are the grammar's, and a fault is at the first token that breaks a rule, or with which no query file goes on.
    ensures answer { Holds (FileGives m.now bytes.now) result }
    // No other answer is right.
    ensures once { (told : Result (List Query) InputFault) → FileGives m.now bytes.now told → Tells (λ queries. queries) result told }
    // What is in the grammar is read, with these queries alone.
    ensures complete { (queries : List Query) → IsFileOf m.now bytes.now queries → IsTree (λ queries. queries) result queries }
    // Each is a query for the logic, and keeps the limits.
    ensures fits { IfOk result (λ queries. All (IsFileQuery m.now) queries) }
    // The number of a fault is one from 1 to 10, or 13 or 14.
    ensures faults { IfFault result IsFileFault }
    // The same as one function of the bytes.
    ensures exact { Tells (λ queries. queries) result (file_read m.now bytes.now) }
{
    let _names = m.names();
    queries_in(alloc, m, bytes)
}
