// Rows of arguments and their indices.
ghost use Rattle.std.specs.Prelude.{◌≡◌, ◌<◌, ◌≤◌, ◌^◌, ◌-◌, ◌/◌, ◌%◌, slice_get};
ghost use Rattle.lgc_values.specs.Values.{IsSize};
ghost use Rattle.lgc_values.specs.Logic.{arguments_at};
ghost use Rattle.lgc_values.specs.declared.TheConstants.{MOST_ROWS};

/// Argument `j`, counted from 0, of the row of `arity` arguments with the index `row`.
///
/// The first argument is the most significant digit of the index in the base `size`.
#[tactic(auto, using(crate::proofs::Digits::power_below, crate::proofs::Digits::power_positive))]
pub fn argument_at(size: u32, arity: u32, row: u32, j: u32) -> u8
    requires size { IsSize size }
    requires rows { size ^ arity ≤ MOST_ROWS }
    requires within { j < arity }
    ensures argument { slice_get (arguments_at size arity row) j ≡ Some result }
    ensures digit { result ≡ row / size ^ (arity - 1 - j) % size }
    ensures below { result < size }
{
    (row / size.pow(arity - 1 - j) % size) as u8
}
