// The lines of faults.
ghost use Rattle.std.specs.Prelude.{◌≡◌, ◌++◌, OnOk, IfOk};
ghost use Rattle.lgc_top.specs.FaultLine.{names_text, row_text, law_text, kept_text, fault_line, input_line, read_line};

use lgc_print::{put_number, put_value};
use lgc_spec::{Kept, Law};
use lgc_values::Name;
use std::alloc::{AllocError, Global};

#[tactic(auto, using(std::proofs::lemmas::Grind::common_steps, lgc_print::proofs::TextLaws::joined_more, lgc_print::proofs::TextLaws::between_more))]
fn put_names(names: &[Name], into: &mut Vec<u8>) -> Result<(), AllocError>
    ensures { OnOk result (into.new.items ≡ into.old.items ++ names_text names.now) }
{
    let mut separator: &[u8] = b"";
    for name in names {
        into.extend_from_slice(separator)?;
        put_value(name.bytes(), into)?;
        separator = b",";
    }
    Ok(())
}

fn put_row(names: &[Name], into: &mut Vec<u8>) -> Result<(), AllocError>
    ensures { OnOk result (into.new.items ≡ into.old.items ++ row_text names.now) }
{
    into.push(b'(')?;
    put_names(names, into)?;
    into.push(b')')?;
    Ok(())
}

fn law_text(law: Law) -> &'static [u8]
    ensures { result.now ≡ law_text law }
{
    match law {
        Law::Idempotent => b"idempotent",
        Law::Commutative => b"commutative",
        Law::Associative => b"associative",
    }
}

fn put_kept(kept: &Kept, into: &mut Vec<u8>) -> Result<(), AllocError>
    ensures { OnOk result (into.new.items ≡ into.old.items ++ kept_text kept.now) }
{
    match kept {
        Kept::Nothing => {}
        Kept::Values(names) => {
            into.extend_from_slice(b": ")?;
            put_row(names.items(), into)?;
        }
        Kept::Broken(law, names) => {
            into.extend_from_slice(b": ")?;
            into.extend_from_slice(law_text(*law))?;
            into.push(b' ')?;
            put_row(names.items(), into)?;
        }
        Kept::Set(names) => {
            into.extend_from_slice(b": {")?;
            put_names(names.items(), into)?;
            into.push(b'}')?;
        }
    }
    Ok(())
}

/// The line of a fault with this number, at this offset, which keeps these names.
#[tactic(auto, unfolding(crate::specs::FaultLine::fault_line))]
pub(crate) fn fault_line(
    alloc: Global,
    number: u8,
    offset: u32,
    kept: &Kept,
) -> Result<Vec<u8>, AllocError>
    ensures { IfOk result (λ line. line.items ≡ fault_line number offset kept.now) }
{
    let mut line = Vec::new(alloc);
    line.extend_from_slice(b"spec fault ")?;
    put_number(alloc, u32::from(number), &mut line)?;
    line.extend_from_slice(b" at ")?;
    put_number(alloc, offset, &mut line)?;
    put_kept(kept, &mut line)?;
    line.push(b'\n')?;
    Ok(line)
}

/// The line of an input fault with this number, at this offset.
#[tactic(auto, unfolding(crate::specs::FaultLine::input_line))]
pub(crate) fn input_line(alloc: Global, number: u8, offset: u32) -> Result<Vec<u8>, AllocError>
    ensures { IfOk result (λ line. line.items ≡ input_line number offset) }
{
    let mut line = Vec::new(alloc);
    line.extend_from_slice(b"input fault ")?;
    put_number(alloc, u32::from(number), &mut line)?;
    line.extend_from_slice(b" at ")?;
    put_number(alloc, offset, &mut line)?;
    line.push(b'\n')?;
    Ok(line)
}

/// The line that says that the file of this name couldn't be read.
pub(crate) fn read_line(alloc: Global, name: &str) -> Result<Vec<u8>, AllocError>
    ensures { IfOk result (λ line. line.items ≡ read_line name.now) }
{
    let mut line = Vec::new(alloc);
    line.extend_from_slice(b"read fault: ")?;
    line.extend_from_slice(name.as_bytes())?;
    line.push(b'\n')?;
    Ok(line)
}
