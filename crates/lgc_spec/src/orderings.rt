// Orderings: names, and links between values.
ghost use Rattle.std.specs.Prelude.{◌≡◌, ◌<◌, ◌≤◌, ◌+◌, ◌^◌, ◌++◌, ℕ, List, length, map, position, All, IfSome, IfOk, OnOk};
ghost use Rattle.std.specs.List.{flat_map};
ghost use Rattle.std.specs.Str.{bytes_eq};
ghost use Rattle.lgc_values.specs.declared.TheConstants.{MOST_VALUES};
ghost use Rattle.lgc_values.specs.Values.{members_of};
ghost use Rattle.lgc_orders.specs.Order.{IsOfLinks};
ghost use Rattle.lgc_parser.specs.TreeWords.{StatementHas};
ghost use Rattle.lgc_spec.specs.Faults.{Answers};
ghost use Rattle.lgc_spec.specs.Words.{LiesIn, text_of, unknown_word};
ghost use Rattle.lgc_spec.specs.OrderTexts.{StandsIn, TextHas, TextGives, Reads};
ghost use Rattle.lgc_spec.specs.KeptOrders.{IsKept, AreKept};
ghost use Rattle.lgc_spec.specs.Orderings.{ordering_in, pairs_of, chain_links, links_of, Orders, OrderingsGive};

use crate::fault::{
    CYCLE, DUPLICATE_NAME, SpecFault, UNEXPECTED, UNKNOWN_VALUE, fault_at, keeping,
};
use crate::sets::has;
use crate::texts::tokens_given;
use crate::values::mask_named;
use crate::words::{is_among, pair_names, text_of};
use lgc_orders::{Order, OrderFault};
use lgc_parser::{Statement, SyntaxFault, Word, parse_order};
use lgc_values::{List, Name};
use std::alloc::{AllocError, Global};
use std::collections::BTreeSet;

/// An ordering of the truth values, with its name.
#[derive(Debug, Drop)]
pub(crate) struct NamedOrder {
    pub(crate) name: Word,
    pub(crate) order: Order,
}

/// The place of the ordering with this name.
pub(crate) fn find_order(bytes: &[u8], orders: &[NamedOrder], name: &[u8]) -> Option<usize>
    requires { All (λ o. LiesIn (length bytes.now) o.name) orders.now }
    ensures place { result ≡ position (λ o. bytes_eq (text_of bytes.now o.name) name.now) orders.now }
    ensures below { IfSome result (λ place. place < length orders.now) }
{
    orders
        .iter()
        .position(|order| text_of(bytes, &order.name) == name)
}

// The first word of a node that names no value.
fn unknown_in_node(text: &[u8], names: &[Name], node: &[Word]) -> Option<Word>
    requires { All (LiesIn (length text.now)) node.now }
    ensures { result ≡ unknown_word text.now names.now node.now }
{
    node.iter()
        .copied()
        .find(|word| !is_among(names, text_of(text, word)))
}

// The first word of a chain that names no value.
fn unknown_in_chain(text: &[u8], names: &[Name], chain: &[List<Word>]) -> Option<Word>
    requires { All (All (LiesIn (length text.now))) chain.now }
    ensures { result ≡ unknown_word text.now names.now (flat_map (λ node. node) chain.now) }
{
    for node in chain {
        if let Some(word) = unknown_in_node(text, names, node.items()) {
            return Some(word);
        }
    }
    None
}

// The first word of an order text that names no value.
fn unknown_word(text: &[u8], names: &[Name], chains: &[List<List<Word>>]) -> Option<Word>
    requires { All (All (All (LiesIn (length text.now)))) chains.now }
    ensures { result ≡ unknown_word text.now names.now (flat_map (flat_map (λ node. node)) chains.now) }
{
    for chain in chains {
        if let Some(word) = unknown_in_chain(text, names, chain.items()) {
            return Some(word);
        }
    }
    None
}

// Adds the links from a value to each of the right set, which is given by its mask.
fn add_from(links: &mut Vec<(u8, u8)>, n: u8, a: u8, right: u16) -> Result<(), AllocError>
    requires { n ≤ MOST_VALUES }
    ensures { OnOk result (links.new.items ≡ links.old.items ++ map (λ b. (a, b)) (members_of n right)) }
{
    for b in 0..n {
        if has(right, b) {
            links.push((a, b))?;
        }
    }
    Ok(())
}

// Adds the links from each value of the left set to each of the right one. The sets are given by their masks.
fn add_pairs(links: &mut Vec<(u8, u8)>, n: u8, left: u16, right: u16) -> Result<(), AllocError>
    requires { n ≤ MOST_VALUES }
    ensures { OnOk result (links.new.items ≡ links.old.items ++ pairs_of (members_of n left) (members_of n right)) }
{
    for a in 0..n {
        if has(left, a) {
            add_from(links, n, a, right)?;
        }
    }
    Ok(())
}

// Adds the links between the neighbouring nodes of a chain.
fn add_chain(
    links: &mut Vec<(u8, u8)>,
    text: &[u8],
    names: &[Name],
    chain: &[List<Word>],
) -> Result<(), AllocError>
    requires words { All (All (LiesIn (length text.now))) chain.now }
    requires some { 0 < length names.now }
    requires few { length names.now ≤ MOST_VALUES }
    ensures { OnOk result (links.new.items ≡ links.old.items ++ chain_links text.now names.now chain.now) }
{
    for i in 1..chain.len() {
        let left = mask_named(text, names, chain[i - 1].items());
        let right = mask_named(text, names, chain[i].items());
        add_pairs(links, names.len() as u8, left, right)?;
    }
    Ok(())
}

fn links_of(
    alloc: Global,
    text: &[u8],
    names: &[Name],
    chains: &[List<List<Word>>],
) -> Result<Vec<(u8, u8)>, AllocError>
    requires words { All (All (All (LiesIn (length text.now)))) chains.now }
    requires some { 0 < length names.now }
    requires few { length names.now ≤ MOST_VALUES }
    ensures { IfOk result (λ links. links.items ≡ links_of text.now names.now chains.now) }
{
    let mut links = Vec::new(alloc);
    for chain in chains {
        add_chain(&mut links, text, names, chain.items())?;
    }
    Ok(links)
}

// The chains of an order text, whose first byte stands at `start`.
fn chains_given(alloc: Global, start: u32, text: &[u8]) -> Result<List<List<List<Word>>>, SpecFault>
    requires length { start + length text.now < 2 ^ 32 }
    ensures chains { Answers (TextHas start text.now) result }
    ensures words { IfOk result (λ chains. All (All (All (StandsIn (length text.now)))) chains) }
{
    let tokens = tokens_given(alloc, start, text)?;
    match parse_order(alloc, text, &tokens) {
        Ok(chains) => Ok(chains),
        Err(SyntaxFault::Unexpected(offset)) => Err(fault_at(UNEXPECTED, start + offset)),
        Err(SyntaxFault::Memory) => Err(SpecFault::Memory),
    }
}

// The order of the links of chains. The text that writes them is at `at`.
fn order_of(
    alloc: Global,
    text: &[u8],
    names: &[Name],
    chains: &[List<List<Word>>],
    at: u32,
) -> Result<Order, SpecFault>
    requires words { All (All (All (LiesIn (length text.now)))) chains.now }
    requires some { 0 < length names.now }
    requires few { length names.now ≤ MOST_VALUES }
    ensures { (name : List ℕ) → Reads (λ order ordered. (ordered.name ≡ name) × IsOfLinks (length names.now) ordered.links order) (Orders names.now name at (links_of text.now names.now chains.now)) result }
{
    let links = links_of(alloc, text, names, chains)?;
    match Order::of_links(alloc, names.len() as u8, &links) {
        Ok(order) => Ok(order),
        Err(OrderFault::Cycle(a, b)) => Err(keeping(CYCLE, at, pair_names(alloc, names, a, b)?)),
        Err(OrderFault::Memory) => Err(SpecFault::Memory),
    }
}

// The ordering with this name and the order that this text writes.
fn order_given(
    alloc: Global,
    bytes: &[u8],
    names: &[Name],
    name: &Word,
    word: &Word,
) -> Result<NamedOrder, SpecFault>
    requires length { length bytes.now < 2 ^ 32 }
    requires word { LiesIn (length bytes.now) word.now }
    requires some { 0 < length names.now }
    requires few { length names.now ≤ MOST_VALUES }
    ensures order { Reads (IsKept bytes.now (length names.now)) (TextGives bytes.now names.now name.now word.now) result }
    ensures name { IfOk result (λ order. order.name ≡ name.now) }
{
    let text = text_of(bytes, word);
    let chains = chains_given(alloc, word.start, text)?;
    if let Some(unknown) = unknown_word(text, names, chains.items()) {
        return Err(fault_at(UNKNOWN_VALUE, word.start + unknown.at));
    }
    let order = order_of(alloc, text, names, chains.items(), word.at)?;
    Ok(NamedOrder { name: *name, order })
}

fn ordering_in(statement: &Statement) -> Option<(Word, Word)>
    ensures { result ≡ ordering_in statement.now }
{
    match statement {
        Statement::Ordering { name, text } => Some((*name, *text)),
        _ => None,
    }
}

/// The orderings of a file.
pub(crate) fn orderings_given(
    alloc: Global,
    bytes: &[u8],
    names: &[Name],
    statements: &[Statement],
) -> Result<Vec<NamedOrder>, SpecFault>
    requires length { length bytes.now < 2 ^ 32 }
    requires words { All (StatementHas (LiesIn (length bytes.now))) statements.now }
    requires some { 0 < length names.now }
    requires few { length names.now ≤ MOST_VALUES }
    ensures orders { Reads (λ orders ordered. AreKept bytes.now (length names.now) orders.items ordered) (OrderingsGive bytes.now names.now statements.now) result }
    ensures words { IfOk result (λ orders. All (λ o. LiesIn (length bytes.now) o.name) orders.items) }
    ensures sizes { IfOk result (λ orders. All (λ o. o.order.size ≡ length names.now) orders.items) }
{
    let mut orders = Vec::new(alloc);
    // The names so far. There may be many.
    let mut taken = BTreeSet::new(alloc);
    for statement in statements {
        if let Some((name, text)) = ordering_in(statement) {
            let is_new = taken.insert(text_of(bytes, &name))?;
            if !is_new {
                return Err(fault_at(DUPLICATE_NAME, name.at));
            }
            let order = order_given(alloc, bytes, names, &name, &text)?;
            orders.push(order)?;
        }
    }
    Ok(orders)
}
