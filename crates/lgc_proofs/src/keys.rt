// Keys of sequents over numbers.
ghost use Rattle.std.specs.Prelude.{◌≡◌, ◌++◌, IfOk, OnOk};
ghost use Rattle.lgc_packed.specs.Packed.{IsPacked};
ghost use Rattle.lgc_proofs.specs.Store.{key_of_pair, key_of};

use lgc_packed::Packed;
use lgc_values::{List, ValueSet};
use std::alloc::{AllocError, Global};

// The key of a sequent over numbers.
pub(crate) fn key_of_packed<const N: usize>(
    alloc: Global,
    packed: &Packed<N>,
) -> Result<Vec<u64>, AllocError>
    ensures key { IfOk result (λ key. key.items ≡ key_of packed.now) }
    ensures packed { IsPacked N packed.now }
{
    let mut key = List::new(alloc);
    for pair in packed.pairs() {
        put_pair(pair, &mut key)?;
    }
    Ok(key.into_vec())
}

fn put_pair<const N: usize>(
    pair: &(u64, ValueSet<N>),
    key: &mut List<u64>,
) -> Result<(), AllocError>
    ensures { OnOk result (key.new ≡ key.old ++ key_of_pair pair.now) }
{
    let (number, sign) = *pair;
    key.push(number)?;
    key.push(u64::from(sign.mask()))
}
