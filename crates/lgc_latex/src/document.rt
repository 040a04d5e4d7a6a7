// The document on a list of rules.
ghost use Rattle.std.specs.Prelude.{◌≡◌, ◌++◌, ◌≤◌, length, All, map, OnOk, IfOk, codes};
ghost use Rattle.std.specs.Fmt.{decimal};
ghost use Rattle.std.specs.List.{flat_map, range_with_len};
ghost use Rattle.lgc_clauses.specs.Kinds.{plain_rule};
ghost use Rattle.lgc_clauses.specs.Rules.{Fits};
ghost use Rattle.lgc_print.specs.Text.{joined};
ghost use Rattle.lgc_print.specs.FormulaText.{in_brackets};
ghost use Rattle.lgc_latex.specs.declared.document.Part.TheVariants.{Argument};
ghost use Rattle.lgc_latex.specs.Latex.{escaped_byte, name_text, sign_text, part_text, literal_text, literals_from, operator_premise_text, quantifier_premise_text, premises_text, conclusion_text, rule_text, calculus_latex};

use lgc_clauses::{Clause, QClause, Rule};
use lgc_values::{Matrix, Name, Operator, ValueSet};
use std::alloc::{AllocError, Global};

/// What a set of a clause stands on, by its number from 1.
#[derive(Clone, Copy)]
pub(crate) enum Part {
    /// The argument of an operator.
    Argument,
    /// The instance by an eigenvariable.
    Eigenvariable,
    /// The instance by a term, of which there is one.
    Term,
}

#[tactic(auto, unfolding(crate::specs::Latex::escaped_byte))]
fn put_byte(byte: u8, into: &mut Vec<u8>) -> Result<(), AllocError>
    ensures { OnOk result (into.new.items ≡ into.old.items ++ escaped_byte byte) }
{
    match byte {
        b'_' | b'#' | b'$' | b'&' | b'%' | b'{' | b'}' => into.extend_from_slice(&[b'\\', byte]),
        b'\\' => into.extend_from_slice(b"\\backslash "),
        b'~' => into.extend_from_slice(b"\\sim "),
        b'^' => into.extend_from_slice(b"\\hat{}"),
        _ => into.extend_from_slice(&[byte]),
    }
}

#[tactic(auto, using(std::proofs::lemmas::Grind::common_steps, std::proofs::lemmas::List::flat_map_more))]
fn put_bytes(name: &[u8], into: &mut Vec<u8>) -> Result<(), AllocError>
    ensures { OnOk result (into.new.items ≡ into.old.items ++ flat_map escaped_byte name.now) }
{
    for byte in name {
        put_byte(*byte, into)?;
    }
    Ok(())
}

#[tactic(auto, unfolding(crate::specs::Latex::name_text))]
fn put_name(name: &[u8], into: &mut Vec<u8>) -> Result<(), AllocError>
    ensures { OnOk result (into.new.items ≡ into.old.items ++ name_text name.now) }
{
    into.extend_from_slice(b"\\mathrm{")?;
    put_bytes(name, into)?;
    into.extend_from_slice(b"}")
}

#[tactic(auto, unfolding(crate::specs::Latex::sign_text), using(std::proofs::lemmas::Grind::common_steps, lgc_print::proofs::TextLaws::members_kept, lgc_print::proofs::TextLaws::members_passed, lgc_print::proofs::TextLaws::joined_more, lgc_print::proofs::TextLaws::between_more))]
fn put_sign<const N: usize>(
    names: &[Name],
    set: ValueSet<N>,
    into: &mut Vec<u8>,
) -> Result<(), AllocError>
    requires { length names.now ≡ N }
    ensures { OnOk result (into.new.items ≡ into.old.items ++ sign_text names.now set.entry) }
{
    let mask = set.mask();
    let mut separator: &[u8] = b"";
    into.extend_from_slice(b"^{\\{")?;
    for v in 0..N as u8 {
        if mask >> v & 1 == 1 {
            into.extend_from_slice(separator)?;
            put_name(names[v as usize].bytes(), into)?;
            separator = b",";
        }
    }
    into.extend_from_slice(b"\\}}")
}

fn put_number(alloc: Global, number: usize, into: &mut Vec<u8>) -> Result<(), AllocError>
    ensures { OnOk result (into.new.items ≡ into.old.items ++ decimal number) }
{
    let digits = format!(in alloc; "{number}")?;
    into.extend_from_slice(digits.as_bytes())
}

#[tactic(auto, unfolding(crate::specs::Latex::part_text))]
fn put_part(alloc: Global, part: Part, number: usize, into: &mut Vec<u8>) -> Result<(), AllocError>
    ensures { OnOk result (into.new.items ≡ into.old.items ++ part_text part number) }
{
    match part {
        Part::Argument => {
            into.extend_from_slice(b"A_{")?;
            put_number(alloc, number, into)?;
            into.extend_from_slice(b"}")
        }
        Part::Eigenvariable => {
            into.extend_from_slice(b"A(\\alpha_{")?;
            put_number(alloc, number, into)?;
            into.extend_from_slice(b"})")
        }
        Part::Term => into.extend_from_slice(b"A(\\tau)"),
    }
}

#[tactic(auto, unfolding(crate::specs::Latex::literal_text), using(std::proofs::lemmas::Grind::common_steps, crate::proofs::LatexLaws::literal_some))]
fn put_literal<const N: usize>(
    alloc: Global,
    names: &[Name],
    part: Part,
    number: usize,
    set: ValueSet<N>,
    into: &mut Vec<u8>,
) -> Result<(), AllocError>
    requires { length names.now ≡ N }
    ensures { OnOk result (into.new.items ≡ into.old.items ++ literal_text names.now part number set.entry) }
{
    if set.is_empty() {
        return Ok(());
    }
    into.extend_from_slice(b", ")?;
    put_part(alloc, part, number, into)?;
    put_sign(names, set, into)
}

#[tactic(auto, using(std::proofs::lemmas::Grind::common_steps, crate::proofs::LatexLaws::literals_more))]
fn put_literals<const N: usize>(
    alloc: Global,
    names: &[Name],
    part: Part,
    sets: &[ValueSet<N>],
    into: &mut Vec<u8>,
) -> Result<(), AllocError>
    requires { length names.now ≡ N }
    ensures { OnOk result (into.new.items ≡ into.old.items ++ literals_from names.now part 1 sets.now) }
{
    for (j, set) in sets.iter().enumerate() {
        put_literal(alloc, names, part, j + 1, *set, into)?;
    }
    Ok(())
}

#[tactic(auto, unfolding(crate::specs::Latex::operator_premise_text))]
fn put_operator_premise<const N: usize>(
    alloc: Global,
    names: &[Name],
    clause: &Clause<N>,
    into: &mut Vec<u8>,
) -> Result<(), AllocError>
    requires { length names.now ≡ N }
    ensures { OnOk result (into.new.items ≡ into.old.items ++ operator_premise_text names.now clause.now) }
{
    into.extend_from_slice(b"\\Gamma")?;
    put_literals(alloc, names, Part::Argument, clause.sets.items(), into)
}

#[tactic(auto, unfolding(crate::specs::Latex::quantifier_premise_text))]
fn put_quantifier_premise<const N: usize>(
    alloc: Global,
    names: &[Name],
    clause: &QClause<N>,
    into: &mut Vec<u8>,
) -> Result<(), AllocError>
    requires { length names.now ≡ N }
    ensures { OnOk result (into.new.items ≡ into.old.items ++ quantifier_premise_text names.now clause.now) }
{
    into.extend_from_slice(b"\\Gamma")?;
    put_literals(alloc, names, Part::Eigenvariable, clause.all.items(), into)?;
    put_literal(alloc, names, Part::Term, 1, clause.some, into)
}

#[tactic(auto, using(std::proofs::lemmas::Grind::common_steps, lgc_print::proofs::TextLaws::joined_more, lgc_print::proofs::TextLaws::between_more))]
fn put_operator_premises<const N: usize>(
    alloc: Global,
    names: &[Name],
    clauses: &[Clause<N>],
    into: &mut Vec<u8>,
) -> Result<(), AllocError>
    requires { length names.now ≡ N }
    ensures { OnOk result (into.new.items ≡ into.old.items ++ joined (codes " \\qquad ") (map (operator_premise_text names.now) clauses.now)) }
{
    let mut separator: &[u8] = b"";
    for clause in clauses {
        into.extend_from_slice(separator)?;
        put_operator_premise(alloc, names, clause, into)?;
        separator = b" \\qquad ";
    }
    Ok(())
}

#[tactic(auto, using(std::proofs::lemmas::Grind::common_steps, lgc_print::proofs::TextLaws::joined_more, lgc_print::proofs::TextLaws::between_more))]
fn put_quantifier_premises<const N: usize>(
    alloc: Global,
    names: &[Name],
    clauses: &[QClause<N>],
    into: &mut Vec<u8>,
) -> Result<(), AllocError>
    requires { length names.now ≡ N }
    ensures { OnOk result (into.new.items ≡ into.old.items ++ joined (codes " \\qquad ") (map (quantifier_premise_text names.now) clauses.now)) }
{
    let mut separator: &[u8] = b"";
    for clause in clauses {
        into.extend_from_slice(separator)?;
        put_quantifier_premise(alloc, names, clause, into)?;
        separator = b" \\qquad ";
    }
    Ok(())
}

#[tactic(auto, unfolding(crate::specs::Latex::premises_text))]
fn put_premises<const N: usize>(
    alloc: Global,
    m: &Matrix<N>,
    rule: &Rule<N>,
    into: &mut Vec<u8>,
) -> Result<(), AllocError>
    ensures { OnOk result (into.new.items ≡ into.old.items ++ premises_text m.now.names (plain_rule rule.now).head (plain_rule rule.now).clauses) }
{
    let names = m.names();
    match rule {
        Rule::Operator(rule) => put_operator_premises(alloc, names, rule.clauses.items(), into),
        Rule::Quantifier(rule) => put_quantifier_premises(alloc, names, rule.clauses.items(), into),
    }
}

#[tactic(auto, using(std::proofs::lemmas::Grind::common_steps, lgc_print::proofs::TextLaws::joined_more, lgc_print::proofs::TextLaws::between_more, crate::proofs::LatexLaws::arguments_more))]
fn put_each_argument(alloc: Global, arity: u8, into: &mut Vec<u8>) -> Result<(), AllocError>
    ensures { OnOk result (into.new.items ≡ into.old.items ++ joined (codes ",") (map (part_text Argument) (range_with_len 1 arity))) }
{
    let mut separator: &[u8] = b"";
    for j in 0..arity {
        into.extend_from_slice(separator)?;
        put_part(alloc, Part::Argument, j as usize + 1, into)?;
        separator = b",";
    }
    Ok(())
}

#[tactic(auto, using(std::proofs::lemmas::Grind::common_steps, crate::proofs::LatexLaws::arguments_some))]
fn put_arguments(alloc: Global, arity: u8, into: &mut Vec<u8>) -> Result<(), AllocError>
    ensures { OnOk result (into.new.items ≡ into.old.items ++ in_brackets (map (part_text Argument) (range_with_len 1 arity))) }
{
    if arity == 0 {
        return Ok(());
    }
    into.push(b'(')?;
    put_each_argument(alloc, arity, into)?;
    into.push(b')')?;
    Ok(())
}

fn put_operation(alloc: Global, operator: &Operator, into: &mut Vec<u8>) -> Result<(), AllocError>
    ensures { OnOk result (into.new.items ≡ into.old.items ++ (name_text operator.now.name ++ in_brackets (map (part_text Argument) (range_with_len 1 operator.now.arity)))) }
{
    put_name(operator.name.bytes(), into)?;
    put_arguments(alloc, operator.arity, into)
}

fn put_quantified(name: &[u8], into: &mut Vec<u8>) -> Result<(), AllocError>
    ensures { OnOk result (into.new.items ≡ into.old.items ++ (codes "(" ++ name_text name.now ++ codes "\\,x)A(x)")) }
{
    into.push(b'(')?;
    put_name(name, into)?;
    into.extend_from_slice(b"\\,x)A(x)")
}

#[tactic(auto, unfolding(crate::specs::Latex::conclusion_text))]
fn put_conclusion<const N: usize>(
    alloc: Global,
    m: &Matrix<N>,
    rule: &Rule<N>,
    into: &mut Vec<u8>,
) -> Result<(), AllocError>
    requires { Fits m.now (plain_rule rule.now) }
    ensures { OnOk result (into.new.items ≡ into.old.items ++ conclusion_text m.now (plain_rule rule.now).head) }
{
    match rule {
        Rule::Operator(rule) => put_operation(alloc, &m.operators()[rule.op as usize], into),
        Rule::Quantifier(rule) => put_quantified(
            m.quantifiers()[rule.quant as usize].name.bytes(),
            into,
        ),
    }
}

fn sign_of<const N: usize>(rule: &Rule<N>) -> ValueSet<N>
    ensures { result ≡ (plain_rule rule.now).sign }
{
    match rule {
        Rule::Operator(rule) => rule.sign,
        Rule::Quantifier(rule) => rule.sign,
    }
}

#[tactic(auto, unfolding(crate::specs::Latex::rule_text))]
fn put_rule<const N: usize>(
    alloc: Global,
    m: &Matrix<N>,
    rule: &Rule<N>,
    into: &mut Vec<u8>,
) -> Result<(), AllocError>
    requires { Fits m.now (plain_rule rule.now) }
    ensures { OnOk result (into.new.items ≡ into.old.items ++ rule_text m.now (plain_rule rule.now)) }
{
    into.extend_from_slice(b"\\[\\frac{")?;
    put_premises(alloc, m, rule, into)?;
    into.extend_from_slice(b"}{\\Gamma, ")?;
    put_conclusion(alloc, m, rule, into)?;
    put_sign(m.names(), sign_of(rule), into)?;
    into.extend_from_slice(b"}\\]\n")
}

#[tactic(auto, using(std::proofs::lemmas::Grind::common_steps, std::proofs::lemmas::List::flat_map_more))]
fn put_rules<const N: usize>(
    alloc: Global,
    m: &Matrix<N>,
    rules: &[Rule<N>],
    into: &mut Vec<u8>,
) -> Result<(), AllocError>
    requires { All (λ rule. Fits m.now (plain_rule rule)) rules.now }
    ensures { OnOk result (into.new.items ≡ into.old.items ++ flat_map (rule_text m.now) (map plain_rule rules.now)) }
{
    for rule in rules {
        put_rule(alloc, m, rule, into)?;
    }
    Ok(())
}

/// The document for LaTeX on the rules of a logic, whose name is its heading. The name stands there byte for byte, also where it has
/// signs that LaTeX reads as its own; it may be empty. Those in the names of operators, quantifiers and truth values are escaped. The only
/// error is want of memory.
pub fn calculus_latex<const N: usize>(
    alloc: Global,
    m: &Matrix<N>,
    name: &Name,
    rules: &[Rule<N>],
) -> Result<Vec<u8>, AllocError>
    requires { All (λ rule. Fits m.now (plain_rule rule)) rules.now }
    ensures { IfOk result (λ text. text.items ≡ calculus_latex m.now name.now (map plain_rule rules.now)) }
{
    let mut text = Vec::new(alloc);
    text.extend_from_slice(b"\\documentclass{article}\n\\begin{document}\n\\section*{")?;
    text.extend_from_slice(name.bytes())?;
    text.extend_from_slice(b"}\n")?;
    put_rules(alloc, m, rules, &mut text)?;
    text.extend_from_slice(b"\\end{document}\n")?;
    Ok(text)
}
