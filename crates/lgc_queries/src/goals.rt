// How many goals a query has.
ghost use Rattle.std.specs.Prelude.{◌≡◌, ◌+◌, ◌^◌, nat_lt};
ghost use Rattle.lgc_values.specs.Values.{IsSize};
ghost use Rattle.lgc_goals.specs.declared.TheConstants.{MOST_GOALS};
ghost use Rattle.lgc_queries.specs.Goals.{has_too_many_goals};

use lgc_goals::MOST_GOALS;
use lgc_meaning::Query;
use lgc_values::Matrix;

// Whether the number of truth values to the power of `exponent` and 1 is above `MOST_GOALS`. It isn't multiplied on once it is.
fn is_large_power(n: u32, exponent: usize) -> bool
    requires { IsSize n }
    ensures { result ≡ nat_lt MOST_GOALS (n ^ (exponent + 1)) }
{
    let mut power = n;
    let mut left = exponent;
    while left > 0 {
        power *= n;
        if power > MOST_GOALS {
            return true;
        }
        left -= 1;
    }
    false
}

/// Whether a query has more goals than queries that are read may have.
pub fn has_too_many_goals<const N: usize>(m: &Matrix<N>, query: &Query) -> bool
    ensures { result ≡ has_too_many_goals m.now.size query.now }
{
    let _names = m.names();
    match query {
        Query::Mixed { .. } => false,
        Query::Equation(_) => N as u32 > MOST_GOALS,
        Query::Quasi { premises, .. } => is_large_power(N as u32, premises.len()),
    }
}
