// The table of a relation between the values below `n`: for each pair of values, whether a chain of links leads from
// the first to the second. Its rows stand one after another, so pairs stand in their order.
ghost use Rattle.std.specs.Prelude.{◌≡◌, ◌*◌, ◌<◌, ◌||◌, ◌&&◌, [], ℕ, IsTrue, length, IfOk, MatchOption};
ghost use Rattle.lgc_orders.specs.Order.{cell, LinksValues, TellsLinks, IsAntisymmetric, IsFirstCycle};

use std::alloc::{AllocError, Global};

/// Whether the table has the pair of `a` and `b`.
pub fn has_pair(table: &[bool], n: usize, a: usize, b: usize) -> bool
    requires whole { length table.now ≡ n * n }
    requires a { a < n }
    requires b { b < n }
    ensures { result ≡ cell table.now n a b }
{
    table[a * n + b]
}

/// The table of the links, which grows link by link.
pub fn table_of(alloc: Global, n: u8, links: &[(u8, u8)]) -> Result<Vec<bool>, AllocError>
    requires { LinksValues n links.now }
    ensures { IfOk result (λ table. TellsLinks n links.now table.items) }
{
    let n = usize::from(n);
    let mut table = equality(alloc, n)?;
    for &(low, high) in links {
        let (low, high) = (usize::from(low), usize::from(high));
        if !has_pair(&table, n, low, high) {
            add_link(&mut table, n, low, high);
        }
    }
    Ok(table)
}

// The table without links: each value is related to itself alone.
fn equality(alloc: Global, n: usize) -> Result<Vec<bool>, AllocError>
    requires { n < 256 }
    ensures { IfOk result (λ table. TellsLinks n [] table.items) }
{
    let mut table = Vec::new(alloc);
    for place in 0..n * n {
        table.push(place / n == place % n)?;
    }
    Ok(table)
}

// Adds a link: whatever leads to its lower end now leads to whatever its upper end leads to.
fn add_link(table: &mut [bool], n: usize, low: usize, high: usize)
    requires whole { length table.old ≡ n * n }
    requires low { low < n }
    requires high { high < n }
    ensures { (a b : ℕ) → a < n → b < n → cell table.new n a b
        ≡ (cell table.old n a b || (cell table.old n a low && cell table.old n high b)) }
{
    for place in 0..table.len() {
        if has_pair(table, n, place / n, low) && has_pair(table, n, high, place % n) {
            table[place] = true;
        }
    }
}

/// The first pair of values `a < b` that the table has both ways.
pub fn first_cycle(table: &[bool], n: u8) -> Option<(u8, u8)>
    requires { length table.now ≡ n * n }
    ensures { MatchOption result
        (IsAntisymmetric n (λ a b. IsTrue (cell table.now n a b)))
        (λ pair. IsFirstCycle n (λ a b. IsTrue (cell table.now n a b)) pair.0 pair.1) }
{
    let n = usize::from(n);
    for place in 0..table.len() {
        let (a, b) = (place / n, place % n);
        if a < b && table[place] && has_pair(table, n, b, a) {
            return Some((a as u8, b as u8));
        }
    }
    None
}
