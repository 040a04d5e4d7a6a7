// Which lines rest on pending ones.
ghost use Rattle.std.specs.Prelude.{◌≡◌, IfOk};
ghost use Rattle.std.specs.List.{list_any};
ghost use Rattle.lgc_check.specs.Marks.{is_marked, gets_mark, AreMarks};

use lgc_sequents::{Cited, Line, Reason};
use std::alloc::{AllocError, Global};

// Whether the line at a position, counted from 1, has a mark.
pub(crate) fn is_marked(marks: &[bool], position: u64) -> bool
    ensures { result ≡ is_marked marks.now position }
{
    if position == 0 || position > marks.len() as u64 {
        return false;
    }
    marks[position as usize - 1]
}

// Whether one of some lines has a mark.
pub(crate) fn is_some_marked(marks: &[bool], positions: &[u64]) -> bool
    ensures { result ≡ list_any (is_marked marks.now) positions.now }
{
    for position in positions {
        if is_marked(marks, *position) {
            return true;
        }
    }
    false
}

fn is_some_premise_marked(marks: &[bool], premises: &[Cited]) -> bool
    ensures { result ≡ list_any (λ cited. is_marked marks.now cited.line) premises.now }
{
    for cited in premises {
        if is_marked(marks, cited.line) {
            return true;
        }
    }
    false
}

// Whether a line with this reason gets a mark, where those before have these.
fn gets_mark(marks: &[bool], reason: &Reason) -> bool
    ensures { result ≡ gets_mark marks.now reason.now }
{
    match reason {
        Reason::Axiom => false,
        Reason::Pending => true,
        Reason::ByRule { premises, .. } => is_some_premise_marked(marks, premises.items()),
        Reason::Resolve { left, right, .. } => is_marked(marks, *left) || is_marked(marks, *right),
    }
}

// A mark for each line that rests on a pending one.
pub(crate) fn pending_marks<const N: usize>(
    alloc: Global,
    lines: &[Line<N>],
) -> Result<Vec<bool>, AllocError>
    ensures { IfOk result (λ marks. AreMarks lines.now marks.items) }
{
    let mut marks = Vec::new(alloc);
    for line in lines {
        let mark = gets_mark(marks.as_slice(), &line.reason);
        marks.push(mark)?;
    }
    Ok(marks)
}
