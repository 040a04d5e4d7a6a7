// The printed form of rules.
ghost use Rattle.std.specs.Prelude.{◌≡◌, ◌++◌, ◌<◌, ◌≤◌, ◌^◌, ◌+◌, length, take, All, map, OnOk, OnErr, IfOk, codes};
ghost use Rattle.std.specs.Fmt.{decimal};
ghost use Rattle.std.specs.List.{list_all};
ghost use Rattle.lgc_lexer.specs.Forms.{is_word};
ghost use Rattle.lgc_values.specs.declared.TheConstants.{MOST_ARGUMENTS};
ghost use Rattle.lgc_clauses.specs.Kinds.{plain_rule};
ghost use Rattle.lgc_clauses.specs.Rules.{Fits};
ghost use Rattle.lgc_print.specs.Text.{joined, is_lower_word, quoted, value_text, symbol_text, set_text, literal_text, operator_clause_text, all_text, quantifier_clause_text, clauses_text, head_text, rule_text, calculus_text};

use lgc_clauses::{Clause, QClause, Rule};
use lgc_values::{Matrix, Name, Operator, Quantifier, ValueSet};
use std::alloc::{AllocError, Global};

fn is_word(byte: u8) -> bool
    ensures { result ≡ is_word byte }
{
    byte.is_ascii_alphanumeric() || byte == b'_'
}

/// Whether a name has letters, digits and `_` alone.
pub fn has_word_bytes(name: &[u8]) -> bool
    ensures { result ≡ list_all is_word name.now }
{
    name.iter().all(|b| is_word(*b))
}

/// Whether a name is a lower-case letter, and then letters, digits and `_`.
pub fn is_lower_word(name: &[u8]) -> bool
    ensures { result ≡ is_lower_word name.now }
{
    match name.split_first() {
        Some((first, rest)) => first.is_ascii_lowercase() && has_word_bytes(rest),
        None => false,
    }
}

// The outcome of what was put behind the first `before` bytes. Where it failed, what was put is taken away.
fn all_or_nothing(
    outcome: Result<(), AllocError>,
    before: usize,
    into: &mut Vec<u8>,
) -> Result<(), AllocError>
    ensures same { result ≡ outcome }
    ensures put { OnOk result (into.new.items ≡ into.old.items) }
    ensures failed { OnErr result (into.new.items ≡ take before into.old.items) }
{
    if outcome.is_err() {
        into.truncate(before);
    }
    outcome
}

fn put_quoted(name: &[u8], into: &mut Vec<u8>) -> Result<(), AllocError>
    ensures put { OnOk result (into.new.items ≡ into.old.items ++ quoted name.now) }
    ensures behind { take (length into.old.items) into.new.items ≡ into.old.items }
{
    into.push(b'\'')?;
    into.extend_from_slice(name)?;
    into.push(b'\'')?;
    Ok(())
}

/// Puts the name of a truth value. Where memory runs out, `into` is as it was.
pub fn put_value(name: &[u8], into: &mut Vec<u8>) -> Result<(), AllocError>
    ensures put { OnOk result (into.new.items ≡ into.old.items ++ value_text name.now) }
    ensures kept { OnErr result (into.new.items ≡ into.old.items) }
{
    if has_word_bytes(name) {
        return into.extend_from_slice(name);
    }
    let before = into.len();
    let outcome = put_quoted(name, into);
    all_or_nothing(outcome, before, into)
}

pub(crate) fn put_symbol(name: &[u8], into: &mut Vec<u8>) -> Result<(), AllocError>
    ensures { OnOk result (into.new.items ≡ into.old.items ++ symbol_text name.now) }
{
    if is_lower_word(name) {
        into.extend_from_slice(name)
    } else {
        put_quoted(name, into)
    }
}

/// Puts a number in decimal digits. Where memory runs out, `into` is as it was.
pub fn put_number(alloc: Global, number: u32, into: &mut Vec<u8>) -> Result<(), AllocError>
    ensures put { OnOk result (into.new.items ≡ into.old.items ++ decimal number) }
    ensures kept { OnErr result (into.new.items ≡ into.old.items) }
{
    let digits = format!(in alloc; "{number}")?;
    into.extend_from_slice(digits.as_bytes())
}

// Puts a set of truth values. Where memory runs out, a first part of it may have been put.
#[tactic(auto, using(std::proofs::lemmas::Grind::common_steps, crate::proofs::TextLaws::members_kept, crate::proofs::TextLaws::members_passed, crate::proofs::TextLaws::joined_more, crate::proofs::TextLaws::between_more))]
fn put_members<const N: usize>(
    names: &[Name],
    set: ValueSet<N>,
    into: &mut Vec<u8>,
) -> Result<(), AllocError>
    requires { length names.now ≡ N }
    ensures put { OnOk result (into.new.items ≡ into.old.items ++ set_text names.now set.entry) }
    ensures behind { take (length into.old.items) into.new.items ≡ into.old.items }
{
    let mask = set.mask();
    let mut separator: &[u8] = b"";
    into.push(b'{')?;
    for v in 0..N as u8 {
        if mask >> v & 1 == 1 {
            into.extend_from_slice(separator)?;
            put_value(names[v as usize].bytes(), into)?;
            separator = b",";
        }
    }
    into.push(b'}')?;
    Ok(())
}

/// Puts a set of truth values, whose names are these. Where memory runs out, `into` is as it was.
pub fn put_set<const N: usize>(
    names: &[Name],
    set: ValueSet<N>,
    into: &mut Vec<u8>,
) -> Result<(), AllocError>
    requires { length names.now ≡ N }
    ensures put { OnOk result (into.new.items ≡ into.old.items ++ set_text names.now set.entry) }
    ensures kept { OnErr result (into.new.items ≡ into.old.items) }
{
    let before = into.len();
    let outcome = put_members(names, set, into);
    all_or_nothing(outcome, before, into)
}

#[tactic(auto, unfolding(crate::specs::Text::literal_text))]
fn put_literal<const N: usize>(
    alloc: Global,
    names: &[Name],
    number: u32,
    set: ValueSet<N>,
    into: &mut Vec<u8>,
) -> Result<(), AllocError>
    requires { length names.now ≡ N }
    ensures { OnOk result (into.new.items ≡ into.old.items ++ literal_text names.now number set.entry) }
{
    put_number(alloc, number, into)?;
    into.push(b'^')?;
    put_set(names, set, into)
}

#[tactic(auto, unfolding(crate::specs::Text::operator_clause_text))]
fn put_operator_clause<const N: usize>(
    alloc: Global,
    names: &[Name],
    sets: &[ValueSet<N>],
    into: &mut Vec<u8>,
) -> Result<(), AllocError>
    requires names { length names.now ≡ N }
    requires few { length sets.now ≤ MOST_ARGUMENTS }
    ensures { OnOk result (into.new.items ≡ into.old.items ++ operator_clause_text names.now sets.now) }
{
    let mut separator: &[u8] = b"";
    for (j, set) in sets.iter().enumerate() {
        if !set.is_empty() {
            into.extend_from_slice(separator)?;
            put_literal(alloc, names, j as u32 + 1, *set, into)?;
            separator = b", ";
        }
    }
    if separator.is_empty() {
        into.push(b'0')?;
    }
    Ok(())
}

#[tactic(auto, unfolding(crate::specs::Text::all_text), using(std::proofs::lemmas::Grind::common_steps, crate::proofs::TextLaws::joined_more, crate::proofs::TextLaws::between_more))]
fn put_all_sets<const N: usize>(
    names: &[Name],
    sets: &[ValueSet<N>],
    into: &mut Vec<u8>,
) -> Result<(), AllocError>
    requires { length names.now ≡ N }
    ensures { OnOk result (into.new.items ≡ into.old.items ++ joined (codes ", ") (map (all_text names.now) sets.now)) }
{
    let mut separator: &[u8] = b"";
    for set in sets {
        into.extend_from_slice(separator)?;
        into.extend_from_slice(b"all")?;
        put_set(names, *set, into)?;
        separator = b", ";
    }
    Ok(())
}

#[tactic(auto, unfolding(crate::specs::Text::quantifier_clause_text), using(std::proofs::lemmas::Grind::common_steps, crate::proofs::TextLaws::some_last))]
fn put_quantifier_clause<const N: usize>(
    names: &[Name],
    clause: &QClause<N>,
    into: &mut Vec<u8>,
) -> Result<(), AllocError>
    requires { length names.now ≡ N }
    ensures { OnOk result (into.new.items ≡ into.old.items ++ quantifier_clause_text names.now clause.now) }
{
    let (all, some) = (clause.all.items(), clause.some);
    match (all.is_empty(), some.is_empty()) {
        (true, true) => into.push(b'0')?,
        (false, true) => put_all_sets(names, all, into)?,
        (true, false) => put_some_set(names, some, into)?,
        (false, false) => {
            put_all_sets(names, all, into)?;
            into.extend_from_slice(b", ")?;
            put_some_set(names, some, into)?
        }
    }
    Ok(())
}

fn put_some_set<const N: usize>(
    names: &[Name],
    set: ValueSet<N>,
    into: &mut Vec<u8>,
) -> Result<(), AllocError>
    requires { length names.now ≡ N }
    ensures { OnOk result (into.new.items ≡ into.old.items ++ (codes "some" ++ set_text names.now set.entry)) }
{
    into.extend_from_slice(b"some")?;
    put_set(names, set, into)
}

#[tactic(auto, using(std::proofs::lemmas::Grind::common_steps, crate::proofs::TextLaws::joined_more, crate::proofs::TextLaws::between_more))]
fn put_operator_clauses<const N: usize>(
    alloc: Global,
    names: &[Name],
    clauses: &[Clause<N>],
    into: &mut Vec<u8>,
) -> Result<(), AllocError>
    requires names { length names.now ≡ N }
    requires few { All (λ sets. length sets ≤ MOST_ARGUMENTS) clauses.now }
    ensures { OnOk result (into.new.items ≡ into.old.items ++ joined (codes "; ") (map (operator_clause_text names.now) clauses.now)) }
{
    let mut separator: &[u8] = b"";
    for clause in clauses {
        into.extend_from_slice(separator)?;
        put_operator_clause(alloc, names, clause.sets.items(), into)?;
        separator = b"; ";
    }
    Ok(())
}

#[tactic(auto, using(std::proofs::lemmas::Grind::common_steps, crate::proofs::TextLaws::joined_more, crate::proofs::TextLaws::between_more))]
fn put_quantifier_clauses<const N: usize>(
    names: &[Name],
    clauses: &[QClause<N>],
    into: &mut Vec<u8>,
) -> Result<(), AllocError>
    requires { length names.now ≡ N }
    ensures { OnOk result (into.new.items ≡ into.old.items ++ joined (codes "; ") (map (quantifier_clause_text names.now) clauses.now)) }
{
    let mut separator: &[u8] = b"";
    for clause in clauses {
        into.extend_from_slice(separator)?;
        put_quantifier_clause(names, clause, into)?;
        separator = b"; ";
    }
    Ok(())
}

#[tactic(auto, unfolding(crate::specs::Text::clauses_text))]
fn put_clauses<const N: usize>(
    alloc: Global,
    m: &Matrix<N>,
    rule: &Rule<N>,
    into: &mut Vec<u8>,
) -> Result<(), AllocError>
    requires { Fits m.now (plain_rule rule.now) }
    ensures { OnOk result (into.new.items ≡ into.old.items ++ clauses_text m.now.names (plain_rule rule.now).head (plain_rule rule.now).clauses) }
{
    let names = m.names();
    into.push(b'[')?;
    match rule {
        Rule::Operator(rule) => put_operator_clauses(alloc, names, rule.clauses.items(), into)?,
        Rule::Quantifier(rule) => put_quantifier_clauses(names, rule.clauses.items(), into)?,
    }
    into.push(b']')?;
    Ok(())
}

fn put_operator(alloc: Global, operator: &Operator, into: &mut Vec<u8>) -> Result<(), AllocError>
    ensures { OnOk result (into.new.items ≡ into.old.items ++ (codes "operator " ++ symbol_text operator.now.name ++ codes "/" ++ decimal operator.now.arity)) }
{
    into.extend_from_slice(b"operator ")?;
    put_symbol(operator.name.bytes(), into)?;
    into.push(b'/')?;
    put_number(alloc, u32::from(operator.arity), into)
}

fn put_quantifier(name: &[u8], into: &mut Vec<u8>) -> Result<(), AllocError>
    ensures { OnOk result (into.new.items ≡ into.old.items ++ (codes "quantifier " ++ symbol_text name.now)) }
{
    into.extend_from_slice(b"quantifier ")?;
    put_symbol(name, into)
}

#[tactic(auto, unfolding(crate::specs::Text::head_text))]
fn put_head<const N: usize>(
    alloc: Global,
    m: &Matrix<N>,
    rule: &Rule<N>,
    into: &mut Vec<u8>,
) -> Result<(), AllocError>
    requires { Fits m.now (plain_rule rule.now) }
    ensures { OnOk result (into.new.items ≡ into.old.items ++ head_text m.now (plain_rule rule.now).head) }
{
    match rule {
        Rule::Operator(rule) => put_operator(alloc, &m.operators()[rule.op as usize], into),
        Rule::Quantifier(rule) => put_quantifier(
            m.quantifiers()[rule.quant as usize].name.bytes(),
            into,
        ),
    }
}

fn sign_of<const N: usize>(rule: &Rule<N>) -> ValueSet<N>
    ensures { result ≡ (plain_rule rule.now).sign }
{
    match rule {
        Rule::Operator(rule) => rule.sign,
        Rule::Quantifier(rule) => rule.sign,
    }
}

#[tactic(auto, unfolding(crate::specs::Text::rule_text))]
fn put_rule<const N: usize>(
    alloc: Global,
    m: &Matrix<N>,
    number: u32,
    rule: &Rule<N>,
    into: &mut Vec<u8>,
) -> Result<(), AllocError>
    requires { Fits m.now (plain_rule rule.now) }
    ensures { OnOk result (into.new.items ≡ into.old.items ++ rule_text m.now number (plain_rule rule.now)) }
{
    into.extend_from_slice(b"rule ")?;
    put_number(alloc, number, into)?;
    into.extend_from_slice(b": ")?;
    put_head(alloc, m, rule, into)?;
    into.extend_from_slice(b" at ")?;
    put_set(m.names(), sign_of(rule), into)?;
    into.extend_from_slice(b": ")?;
    put_clauses(alloc, m, rule, into)?;
    into.extend_from_slice(b".\n")
}

/// Puts the text of a rule with this number behind what `into` holds. Where memory runs out, `into` is as it was.
pub fn write_rule<const N: usize>(
    alloc: Global,
    m: &Matrix<N>,
    number: u32,
    rule: &Rule<N>,
    into: &mut Vec<u8>,
) -> Result<(), AllocError>
    requires { Fits m.now (plain_rule rule.now) }
    ensures put { OnOk result (into.new.items ≡ into.old.items ++ rule_text m.now number (plain_rule rule.now)) }
    ensures kept { OnErr result (into.new.items ≡ into.old.items) }
{
    let mut text = Vec::new(alloc);
    put_rule(alloc, m, number, rule, &mut text)?;
    into.extend_from_slice(&text)
}

/// The text of a calculus: its rules, numbered from 1.
#[tactic(auto, using(std::proofs::lemmas::Grind::common_steps, crate::proofs::TextLaws::rules_more))]
pub fn calculus_text<const N: usize>(
    alloc: Global,
    m: &Matrix<N>,
    rules: &[Rule<N>],
) -> Result<Vec<u8>, AllocError>
    requires fits { All (λ rule. Fits m.now (plain_rule rule)) rules.now }
    requires few { length rules.now < 2 ^ 32 }
    ensures { IfOk result (λ text. text.items ≡ calculus_text m.now (map plain_rule rules.now)) }
{
    let mut text = Vec::new(alloc);
    for (i, rule) in rules.iter().enumerate() {
        put_rule(alloc, m, i as u32 + 1, rule, &mut text)?;
    }
    Ok(text)
}
