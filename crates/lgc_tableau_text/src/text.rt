// The printed form of tableaux.
ghost use Rattle.std.specs.Prelude.{◌≡◌, ◌++◌, ◌<◌, ◌^◌, ◌+◌, All, codes, OnOk, OnErr, IfOk};
ghost use Rattle.std.specs.Fmt.{decimal};
ghost use Rattle.lgc_syntax.specs.Sizes.{depth};
ghost use Rattle.lgc_tableau_text.specs.TableauText.{formulas_of, items_text, with_values, closed_text, split_text, case_text, entries_text, node_text, tableau_text};
ghost use Rattle.lgc_tableau_text.specs.Work.{cases_text, IsShallow, IsShallowCase, AreShallow};

use itoa::Buffer;
use lgc_print::{put_formula, put_set};
use lgc_report::{put_item, put_sequent};
use lgc_sequents::Signed;
use lgc_syntax::Formula;
use lgc_tableau::{Case, Tableau};
use lgc_values::{List, Matrix};
use std::alloc::{AllocError, Global};

/// Puts the formulas of a goal with their signs, or `nothing` where there are none. The formulas are less than `2^32` deep. Where memory runs out,
/// `into` may have a part of it.
#[tactic(auto, using(std::proofs::lemmas::Grind::common_steps, crate::proofs::TableauLaws::items_none, crate::proofs::TableauLaws::items_some))]
pub fn put_items<const N: usize>(
    alloc: Global,
    m: &Matrix<N>,
    items: &[Signed<N>],
    into: &mut Vec<u8>,
) -> Result<(), AllocError>
    requires { All (λ item. depth item.formula < 2 ^ 32) items.now }
    ensures { OnOk result (into.new.items ≡ into.old.items ++ items_text m.now items.now) }
{
    if items.is_empty() {
        return into.extend_from_slice(b"nothing");
    }
    put_sequent(alloc, m, items, into)
}

#[tactic(auto, unfolding(crate::specs::TableauText::closed_text))]
fn put_closed<const N: usize>(
    alloc: Global,
    m: &Matrix<N>,
    by: &Formula,
    into: &mut Vec<u8>,
) -> Result<(), AllocError>
    requires { depth by.now < 2 ^ 32 }
    ensures { OnOk result (into.new.items ≡ into.old.items ++ closed_text m.now by.now) }
{
    into.extend_from_slice(b"closed by ")?;
    put_formula(alloc, m, by, 0, into)?;
    into.extend_from_slice(b"\n")
}

#[tactic(auto, unfolding(crate::specs::TableauText::split_text))]
fn put_split<const N: usize>(
    alloc: Global,
    m: &Matrix<N>,
    on: &Signed<N>,
    into: &mut Vec<u8>,
) -> Result<(), AllocError>
    requires { depth on.now.formula < 2 ^ 32 }
    ensures { OnOk result (into.new.items ≡ into.old.items ++ split_text m.now on.now) }
{
    into.extend_from_slice(b"split ")?;
    put_formula(alloc, m, &on.formula, 0, into)?;
    into.extend_from_slice(b" at ")?;
    put_set(m.names(), on.sign, into)?;
    into.extend_from_slice(b"\n")
}

fn put_number(number: usize, into: &mut Vec<u8>) -> Result<(), AllocError>
    ensures { OnOk result (into.new.items ≡ into.old.items ++ decimal number) }
{
    let mut buffer = Buffer::new();
    into.extend_from_slice(buffer.format(number).as_bytes())
}

// The items of a case whose signs have members, or `nothing` where there are none.
fn put_added<const N: usize>(
    alloc: Global,
    m: &Matrix<N>,
    added: &[Signed<N>],
    into: &mut Vec<u8>,
) -> Result<(), AllocError>
    requires { All (λ item. depth item.formula < 2 ^ 32) added.now }
    ensures { OnOk result (into.new.items ≡ into.old.items ++ items_text m.now (with_values added.now)) }
{
    let mut separator: &[u8] = b"";
    for item in added {
        if !item.sign.is_empty() {
            into.extend_from_slice(separator)?;
            put_item(alloc, m, item, into)?;
            separator = b", ";
        }
    }
    if separator.is_empty() {
        into.extend_from_slice(b"nothing")?;
    }
    Ok(())
}

// The line of a case, behind two blanks more than its split.
#[tactic(auto, unfolding(crate::specs::TableauText::case_text))]
fn put_case<const N: usize>(
    alloc: Global,
    m: &Matrix<N>,
    blanks: &[u8],
    number: usize,
    added: &[Signed<N>],
    into: &mut Vec<u8>,
) -> Result<(), AllocError>
    requires { All (λ item. depth item.formula < 2 ^ 32) added.now }
    ensures { OnOk result (into.new.items ≡ into.old.items ++ case_text m.now blanks.now number added.now) }
{
    into.extend_from_slice(blanks)?;
    into.extend_from_slice(b"  case ")?;
    put_number(number, into)?;
    into.extend_from_slice(b": ")?;
    put_added(alloc, m, added, into)?;
    into.extend_from_slice(b"\n")
}

// What stands before the nodes below the cases of a split.
fn deeper(alloc: Global, blanks: &[u8]) -> Result<Vec<u8>, AllocError>
    ensures { IfOk result (λ below. below.items ≡ blanks.now ++ codes "    ") }
{
    let mut below = Vec::from_slice(alloc, blanks)?;
    below.extend_from_slice(b"    ")?;
    Ok(below)
}

// The cases of a split.
fn cases_of<const N: usize>(cases: &List<Case<Signed<N>>>) -> &[Case<Signed<N>>]
    requires { AreShallow cases.now }
    ensures items { result.now ≡ cases.now }
    ensures shallow { AreShallow result.now }
{
    cases.items()
}

// The node below a case.
fn below_of<const N: usize>(case: &Case<Signed<N>>) -> &Tableau<Signed<N>>
    requires { IsShallowCase case.now }
    ensures below { result.now ≡ case.now.below }
    ensures shallow { IsShallow result.now }
{
    case.below.get()
}

#[cycle(put_node)]
fn put_node<const N: usize>(
    alloc: Global,
    m: &Matrix<N>,
    t: &Tableau<Signed<N>>,
    blanks: &[u8],
    into: &mut Vec<u8>,
) -> Result<(), AllocError>
    requires { IsShallow t.now }
    ensures { OnOk result (into.new.items ≡ into.old.items ++ node_text m.now t.now blanks.now) }
{
    into.extend_from_slice(blanks)?;
    match t {
        Tableau::Closed { by } => put_closed(alloc, m, by, into),
        Tableau::Split { on, cases } => {
            put_split(alloc, m, on, into)?;
            put_cases(alloc, m, cases_of(cases), blanks, into)
        }
    }
}

#[cycle(put_node)]
fn put_cases<const N: usize>(
    alloc: Global,
    m: &Matrix<N>,
    cases: &[Case<Signed<N>>],
    blanks: &[u8],
    into: &mut Vec<u8>,
) -> Result<(), AllocError>
    requires { AreShallow cases.now }
    ensures { OnOk result (into.new.items ≡ into.old.items ++ cases_text m.now blanks.now 1 cases.now) }
{
    let below = deeper(alloc, blanks)?;
    for (j, case) in cases.iter().enumerate() {
        put_case(alloc, m, blanks, j + 1, case.added.items(), into)?;
        put_node(alloc, m, below_of(case), &below, into)?;
    }
    Ok(())
}

/// Puts the values of atoms, in brackets. The atoms are less than `2^32` deep, and the values are truth values. Where memory runs out, `into`
/// may have a part of it.
pub fn put_entries<const N: usize>(
    alloc: Global,
    m: &Matrix<N>,
    entries: &[(Formula, u8)],
    into: &mut Vec<u8>,
) -> Result<(), AllocError>
    requires shallow { All (λ entry. depth entry.0 < 2 ^ 32) entries.now }
    requires below { All (λ entry. entry.1 < N) entries.now }
    ensures { OnOk result (into.new.items ≡ into.old.items ++ entries_text m.now entries.now) }
{
    into.push(b'{')?;
    lgc_report::put_entries(alloc, m, entries, into)?;
    into.push(b'}')?;
    Ok(())
}

/// Puts the text of a tableau, on lines of its own. Its formulas are less than `2^32` deep. Where memory runs out, `into` may have a part of
/// it.
pub fn put_tableau<const N: usize>(
    alloc: Global,
    m: &Matrix<N>,
    t: &Tableau<Signed<N>>,
    into: &mut Vec<u8>,
) -> Result<(), AllocError>
    requires { All (λ f. depth f < 2 ^ 32) (formulas_of t.now) }
    ensures { OnOk result (into.new.items ≡ into.old.items ++ tableau_text m.now t.now) }
{
    put_node(alloc, m, t, b"  ", into)
}

/// Puts the text of a tableau, on lines of its own, behind what `into` holds. Its formulas are less than `2^32` deep. Where memory runs out,
/// `into` is as it was.
pub fn write_tableau<const N: usize>(
    alloc: Global,
    m: &Matrix<N>,
    t: &Tableau<Signed<N>>,
    into: &mut Vec<u8>,
) -> Result<(), AllocError>
    requires { All (λ f. depth f < 2 ^ 32) (formulas_of t.now) }
    ensures put { OnOk result (into.new.items ≡ into.old.items ++ tableau_text m.now t.now) }
    ensures kept { OnErr result (into.new.items ≡ into.old.items) }
{
    let mut text = Vec::new(alloc);
    put_tableau(alloc, m, t, &mut text)?;
    into.extend_from_slice(&text)
}
