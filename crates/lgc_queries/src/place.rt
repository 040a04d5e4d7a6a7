// Reading single queries among tokens.
ghost use Rattle.std.specs.Prelude.{◌≡◌, ◌<◌, ◌≤◌, ◌^◌, ◌-◌, ◌++◌, ℕ, None, List, length, drop, All, option_map, IfOk, IfSome, Result, Ok, false};
ghost use Rattle.lgc_grammar.specs.Among.{EndsBefore};
ghost use Rattle.lgc_lexer.specs.Spans.{AllIn};
ghost use Rattle.lgc_lexer.specs.Tokens.{tokens_of};
ghost use Rattle.lgc_syntax.specs.declared.fault.InputFault.{InputFault};
ghost use Rattle.lgc_syntax.specs.Fits.{Fits};
ghost use Rattle.lgc_meaning.specs.declared.query.Query.{Query};
ghost use Rattle.lgc_tokens.specs.Spelled.{IsShorter};
ghost use Rattle.lgc_tokens.specs.Gives.{GivesAs};
ghost use Rattle.lgc_inputs.specs.Told.{Holds, IfFault, IsTree, Tells};
ghost use Rattle.lgc_inputs.specs.Places.{viewed};
ghost use Rattle.lgc_formulas.specs.declared.formula.TheConstants.{MOST_NODES};
ghost use Rattle.lgc_formulas.specs.Named.{Named, named_all};
ghost use Rattle.lgc_formulas.specs.Setting.{setting_of, setting_with, numbered};
ghost use Rattle.lgc_queries.specs.QueryGrammar.{OneQuery};
ghost use Rattle.lgc_queries.specs.PlainQueries.{PlainQuery};
ghost use Rattle.lgc_queries.specs.QueryReading.{query_here_at};
ghost use Rattle.lgc_queries.specs.QueryPlace.{whole_query, with_tokens, QueryTold, IsPlaceFault};
ghost use Rattle.lgc_queries.specs.FileReading.{query_read};
ghost use Rattle.lgc_queries.specs.Limits.{IsQueryFor};

use crate::query::one_query;
use crate::read::QueryRead;
use lgc_formulas::{Context, MOST_NODES};
use lgc_inputs::fault_of;
use lgc_lexer::Token;
use lgc_meaning::Query;
use lgc_syntax::{Formula, InputFault, WRONG_ARITY};
use lgc_tokens::{Reading, Stop};
use lgc_values::Matrix;
use std::alloc::Global;

// A query that any token may follow.
#[tactic(auto, unfolding(crate::specs::QueryReading::query_here_at))]
fn query_here<'a, const N: usize>(
    alloc: Global,
    c: &Context<N>,
    many: u32,
    tokens: &'a [Token],
) -> Reading<'a, Query>
    requires { AllIn c.now.bytes.now tokens.now }
    ensures gives { GivesAs (named_all c.now.m.now c.now.bytes.now) (λ x. (x.0, named_all c.now.m.now c.now.bytes.now x.1.now)) result (query_here_at (setting_of c.now) many (named_all c.now.m.now c.now.bytes.now tokens.now)) }
    ensures rest { IfOk result (λ x. IsShorter c.now.bytes.now tokens.now x.1.now) }
{
    let (read, rest) = one_query(alloc, c, many, tokens)?;
    let QueryRead { query, is_bare } = read;
    if is_bare {
        return Err(match rest.split_first() {
            Some(_) => Stop::Breaks(WRONG_ARITY, rest),
            None => Stop::Unexpected(rest),
        });
    }
    Ok((query, rest))
}

// The query that begins with these tokens, and how many tokens are behind it.
fn query_behind<const N: usize>(
    alloc: Global,
    c: &Context<N>,
    many: u32,
    tokens: &[Token],
) -> Result<(Query, usize), InputFault>
    requires length { length c.now.bytes.now < 2 ^ 32 }
    requires inside { AllIn c.now.bytes.now tokens.now }
    ensures exact { Tells (λ x. (x.0, drop (length tokens.now - x.1) (named_all c.now.m.now c.now.bytes.now tokens.now))) result (query_read (setting_of c.now) many (length c.now.bytes.now) (named_all c.now.m.now c.now.bytes.now tokens.now)) }
    ensures within { IfOk result (λ x. x.1 < length tokens.now) }
{
    match query_here(alloc, c, many, tokens) {
        Ok((query, rest)) => Ok((query, rest.len())),
        Err(stop) => Err(fault_of(c.bytes, stop)),
    }
}

fn query_from<const N: usize>(
    alloc: Global,
    c: &Context<N>,
    tokens: &[Token],
    at: usize,
    many: u32,
) -> Result<(Query, usize), InputFault>
    requires length { length c.now.bytes.now < 2 ^ 32 }
    requires inside { AllIn c.now.bytes.now tokens.now }
    requires at { at ≤ length tokens.now }
    ensures exact { Tells (with_tokens (named_all c.now.m.now c.now.bytes.now tokens.now)) result (query_read (setting_of c.now) many (length c.now.bytes.now) (drop at (named_all c.now.m.now c.now.bytes.now tokens.now))) }
    ensures behind { IfOk result (λ x. at < x.1) }
    ensures within { IfOk result (λ x. x.1 ≤ length tokens.now) }
{
    let (_, from) = tokens.split_at(at);
    match query_behind(alloc, c, many, from) {
        Ok((query, left)) => Ok((query, tokens.len() - left)),
        Err(fault) => Err(fault),
    }
}

/// The query that begins at token `at`, counted from 0, where `nodes_left` nodes may be read in all of its formulas, with the place of the
/// token behind it; or the first fault from there on.
///
/// Quantifiers may stand where `quantifiers` says so. Where `lets` is given a `#` and a number stand for the formula with this number,
/// from 1, and names have at most 64 bytes. A query goes on as far as it can, and whatever stands behind it doesn't count; where its last
/// formula is the name of an operator that wants arguments, alone, the token behind it shows that they are missing, and the end of the
/// bytes is unexpected. Its goals aren't counted. The tokens are those of `lex` over the bytes. `Memory` may come at any tokens.
pub fn query_with<const N: usize>(
    alloc: Global,
    m: &Matrix<N>,
    bytes: &[u8],
    tokens: &[Token],
    at: usize,
    nodes_left: u32,
    quantifiers: bool,
    lets: Option<&[Formula]>,
) -> Result<(Query, usize), InputFault>
    requires length { length bytes.now < 2 ^ 32 }
    requires tokens { tokens_of bytes.now ≡ Ok tokens.now }
    requires at { at ≤ length tokens.now }
    requires nodes { nodes_left ≤ MOST_NODES }
    // The query is the grammar's, and a fault is at the first token that breaks a rule, or with which no query goes on.
    ensures answer { Holds (QueryTold (setting_with m.now quantifiers (option_map (λ l. l.now) lets.entry)) nodes_left (length bytes.now) (named_all m.now bytes.now tokens.now) at) result }
    // No other answer is right.
    ensures once { (told : Result (Query × ℕ) InputFault) → QueryTold (setting_with m.now quantifiers (option_map (λ l. l.now) lets.entry)) nodes_left (length bytes.now) (named_all m.now bytes.now tokens.now) at told → Tells (with_tokens (named_all m.now bytes.now tokens.now)) result (viewed (with_tokens (named_all m.now bytes.now tokens.now)) told) }
    // A query that stands there, and that doesn't go on with the token behind it, is read.
    ensures complete { (query : Query) (front rest : List Named) → drop at (named_all m.now bytes.now tokens.now) ≡ front ++ rest → OneQuery (setting_with m.now quantifiers (option_map (λ l. l.now) lets.entry)) nodes_left (Ok (whole_query query)) front → EndsBefore (PlainQuery (numbered (setting_with m.now quantifiers (option_map (λ l. l.now) lets.entry)))) front rest → IsTree (with_tokens (named_all m.now bytes.now tokens.now)) result (query, rest) }
    // Where the formulas that numbers stand for are of the logic, it is a query for the logic, and keeps the limits.
    ensures fits { IfSome (option_map (λ l. l.now) lets.entry) (All (Fits m.now)) → IfOk result (λ x. IsQueryFor (setting_with m.now quantifiers (option_map (λ l. l.now) lets.entry)) nodes_left x.0) }
    // The number of a fault is one from 4 to 10, or 13 where quantifiers may not stand, or 15 where formulas have numbers.
    ensures faults { IfFault result (IsPlaceFault (setting_with m.now quantifiers (option_map (λ l. l.now) lets.entry))) }
    // The place behind it is behind that of its first token.
    ensures behind { IfOk result (λ x. at < x.1) }
    ensures within { IfOk result (λ x. x.1 ≤ length tokens.now) }
    // The same as one function of the tokens.
    ensures exact { Tells (with_tokens (named_all m.now bytes.now tokens.now)) result (query_read (setting_with m.now quantifiers (option_map (λ l. l.now) lets.entry)) nodes_left (length bytes.now) (drop at (named_all m.now bytes.now tokens.now))) }
{
    let _names = m.names();
    let c = Context {
        m,
        bytes,
        quantified: quantifiers,
        lets,
    };
    query_from(alloc, &c, tokens, at, nodes_left)
}

/// The same with 1,000 nodes, where formulas have no numbers.
pub fn query_at<const N: usize>(
    alloc: Global,
    m: &Matrix<N>,
    bytes: &[u8],
    tokens: &[Token],
    at: usize,
    quantifiers: bool,
) -> Result<(Query, usize), InputFault>
    requires length { length bytes.now < 2 ^ 32 }
    requires tokens { tokens_of bytes.now ≡ Ok tokens.now }
    requires at { at ≤ length tokens.now }
    // The query is the grammar's, and a fault is at the first token that breaks a rule, or with which no query goes on.
    ensures answer { Holds (QueryTold (setting_with m.now quantifiers None) MOST_NODES (length bytes.now) (named_all m.now bytes.now tokens.now) at) result }
    // No other answer is right.
    ensures once { (told : Result (Query × ℕ) InputFault) → QueryTold (setting_with m.now quantifiers None) MOST_NODES (length bytes.now) (named_all m.now bytes.now tokens.now) at told → Tells (with_tokens (named_all m.now bytes.now tokens.now)) result (viewed (with_tokens (named_all m.now bytes.now tokens.now)) told) }
    // A query that stands there, and that doesn't go on with the token behind it, is read.
    ensures complete { (query : Query) (front rest : List Named) → drop at (named_all m.now bytes.now tokens.now) ≡ front ++ rest → OneQuery (setting_with m.now quantifiers None) MOST_NODES (Ok (whole_query query)) front → EndsBefore (PlainQuery false) front rest → IsTree (with_tokens (named_all m.now bytes.now tokens.now)) result (query, rest) }
    // It is a query for the logic, and keeps the limits.
    ensures fits { IfOk result (λ x. IsQueryFor (setting_with m.now quantifiers None) MOST_NODES x.0) }
    // The number of a fault is one from 4 to 10, or 13 where quantifiers may not stand.
    ensures faults { IfFault result (IsPlaceFault (setting_with m.now quantifiers None)) }
    // The place behind it is behind that of its first token.
    ensures behind { IfOk result (λ x. at < x.1) }
    ensures within { IfOk result (λ x. x.1 ≤ length tokens.now) }
    // The same as one function of the tokens.
    ensures exact { Tells (with_tokens (named_all m.now bytes.now tokens.now)) result (query_read (setting_with m.now quantifiers None) MOST_NODES (length bytes.now) (drop at (named_all m.now bytes.now tokens.now))) }
{
    query_with(alloc, m, bytes, tokens, at, MOST_NODES, quantifiers, None)
}
