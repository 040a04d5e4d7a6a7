// Names of variables, predicates and functions, compared and copied.
ghost use Rattle.std.specs.Prelude.{◌≡◌, ◌↔◌, IfOk, IsTrue};
ghost use Rattle.std.specs.Str.{bytes_eq};

use lgc_values::Name;
use std::alloc::{AllocError, Global};

/// Whether two names have the same bytes.
pub fn same_name(a: &Name, b: &Name) -> bool
    ensures means { IsTrue result ↔ (a.now ≡ b.now) }
    ensures test { result ≡ bytes_eq a.now b.now }
{
    a.bytes() == b.bytes()
}

/// A copy of a name.
pub fn copy_name(alloc: Global, name: &Name) -> Result<Name, AllocError>
    ensures { IfOk result (λ copy. copy ≡ name.now) }
{
    Name::of_bytes(alloc, name.bytes())
}
