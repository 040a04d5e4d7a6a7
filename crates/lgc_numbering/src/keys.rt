// Keys of atoms and of compounds.
ghost use Rattle.std.specs.Prelude.{◌≡◌, ◌+◌, ◌∷◌, ◌++◌, length, IfOk, OnOk};
ghost use Rattle.std.specs.List.{flat_map};
ghost use Rattle.lgc_numbering.specs.Keys.{name_key, term_key, atom_key};

use lgc_syntax::{Formula, Term};
use lgc_values::{List, Name};
use std::alloc::{AllocError, Global};

// The key of an atom's node.
pub(crate) fn key_of_atom(alloc: Global, atom: &Formula) -> Result<Vec<u64>, AllocError>
    ensures { IfOk result (λ key. key.items ≡ 0 ∷ atom_key atom.now) }
{
    let mut key = List::new(alloc);
    key.push(0)?;
    put_atom(atom, &mut key)?;
    Ok(key.into_vec())
}

// The key of a compound's node.
pub(crate) fn key_of_compound(alloc: Global, op: u16, args: &[u64]) -> Result<Vec<u64>, AllocError>
    ensures { IfOk result (λ key. key.items ≡ (op + 1) ∷ args.now) }
{
    let mut key = List::new(alloc);
    key.push(u64::from(op) + 1)?;
    for arg in args {
        key.push(*arg)?;
    }
    Ok(key.into_vec())
}

#[tactic(auto, using(crate::proofs::KeyLaws::key_rules))]
fn put_atom(atom: &Formula, key: &mut List<u64>) -> Result<(), AllocError>
    ensures { OnOk result (key.new ≡ key.old ++ atom_key atom.now) }
{
    match atom {
        Formula::Atom(name, args) => {
            put_name(name, key)?;
            put_terms(args.items(), key)
        }
        Formula::Op(_, _) => Ok(()),
        Formula::Quant(_, _) => Ok(()),
    }
}

fn put_name(name: &Name, key: &mut List<u64>) -> Result<(), AllocError>
    ensures { OnOk result (key.new ≡ key.old ++ name_key name.now) }
{
    let bytes = name.bytes();
    key.push(bytes.len() as u64)?;
    for byte in bytes {
        key.push(u64::from(*byte))?;
    }
    Ok(())
}

#[cycle(put_term)]
#[tactic(auto, using(crate::proofs::KeyLaws::key_rules))]
fn put_term(term: &Term, key: &mut List<u64>) -> Result<(), AllocError>
    ensures { OnOk result (key.new ≡ key.old ++ term_key term.now) }
{
    match term {
        Term::Bound(i) => {
            key.push(0)?;
            key.push(u64::from(*i))
        }
        Term::Free(name) => {
            key.push(1)?;
            put_name(name, key)
        }
        Term::Apply(name, args) => {
            key.push(2)?;
            put_name(name, key)?;
            put_terms(args.items(), key)
        }
    }
}

#[cycle(put_term)]
#[tactic(auto, using(crate::proofs::KeyLaws::key_rules))]
fn put_terms(terms: &[Term], key: &mut List<u64>) -> Result<(), AllocError>
    ensures { OnOk result (key.new ≡ key.old ++ length terms.now ∷ flat_map term_key terms.now) }
{
    key.push(terms.len() as u64)?;
    for term in terms {
        put_term(term, key)?;
    }
    Ok(())
}
