// What is built for a goal.
use lgc_meaning::Valuation;
use lgc_sequents::Signed;
use lgc_tableau::Tableau;

/// What is built for a goal: a tableau that is closed for it, or a valuation of its atoms under which it is false.
#[derive(Drop)]
pub enum Built<const N: usize> {
    Closed(Tableau<Signed<N>>),
    Unclosed(Valuation),
}
