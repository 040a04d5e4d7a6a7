// Reading specifications: the steps, one after another.
ghost use Rattle.std.specs.Prelude.{◌≡◌, All, IfSome, ◌<◌, ◌≤◌, ◌^◌, length, IfOk, Result};
ghost use Rattle.lgc_values.specs.declared.TheConstants.{MOST_VALUES};
ghost use Rattle.lgc_values.specs.Values.{members_of};
ghost use Rattle.lgc_values.specs.Logic.{IsLogic};
ghost use Rattle.lgc_parser.specs.TreeWords.{StatementDeclares, StatementHas};
ghost use Rattle.lgc_spec.specs.declared.spec.Spec.{Spec};
ghost use Rattle.lgc_spec.specs.declared.fault.SpecFault.{SpecFault};
ghost use Rattle.lgc_spec.specs.Faults.{Answers, Gives};
ghost use Rattle.lgc_spec.specs.Logics.{logic_of};
ghost use Rattle.lgc_spec.specs.Words.{LiesIn, SaysPlainName};
ghost use Rattle.lgc_spec.specs.Stands.{AnswersFor, TreeGives};
ghost use Rattle.lgc_spec.specs.Specification.{BytesGive, StatementsGive, values_given, logic_name};

use crate::fault::{FILE_TOO_LONG, MISSING_STATEMENT, SpecFault, UNEXPECTED, fault_at};
use crate::operators::operators_given;
use crate::orderings::orderings_given;
use crate::quantifiers::quantifiers_given;
use crate::spec::Spec;
use crate::statements::{check_single, designated_values, logic_name, truth_values};
use crate::texts::tokens_given;
use crate::values::{designated_given, names_given};
use crate::words::text_of;
use lgc_parser::{SpecTree, Statement, SyntaxFault, Word, parse_spec};
use lgc_values::{List, Name};
use std::alloc::{AllocError, Global};

/// The greatest length of a specification file, in bytes.
pub const LONGEST_FILE: usize = 1_048_576;

// The statements of a file.
fn tree_given(alloc: Global, bytes: &[u8]) -> Result<SpecTree, SpecFault>
    requires { length bytes.now < 2 ^ 32 }
    ensures tree { AnswersFor (λ tree statements. tree.statements ≡ statements) (TreeGives bytes.now) result }
    ensures words { IfOk result (λ tree. All (StatementHas (LiesIn (length bytes.now))) tree.statements) }
    ensures plain { IfOk result (λ tree. All (StatementDeclares (SaysPlainName bytes.now) (SaysPlainName bytes.now)) tree.statements) }
{
    let tokens = tokens_given(alloc, 0, bytes)?;
    match parse_spec(alloc, bytes, &tokens) {
        Ok(tree) => Ok(tree),
        Err(SyntaxFault::Unexpected(offset)) => Err(fault_at(UNEXPECTED, offset)),
        Err(SyntaxFault::Memory) => Err(SpecFault::Memory),
    }
}

// The names of the truth values, and the mask of the designated ones.
fn values_given(
    alloc: Global,
    bytes: &[u8],
    statements: &[Statement],
) -> Result<(List<Name>, u16), SpecFault>
    requires length { length bytes.now < 2 ^ 32 }
    requires words { All (StatementHas (LiesIn (length bytes.now))) statements.now }
    ensures values { Gives (λ values. (values.0, members_of (length values.0) values.1)) result (values_given bytes.now statements.now) }
    ensures some { IfOk result (λ values. 2 ≤ length values.0) }
    ensures few { IfOk result (λ values. length values.0 ≤ MOST_VALUES) }
    ensures below { IfOk result (λ values. values.1 < 2 ^ length values.0) }
{
    check_single(statements)?;
    let end = bytes.len() as u32;
    let Some((at, values)) = truth_values(statements) else {
        return Err(fault_at(MISSING_STATEMENT, end));
    };
    let Some(designated) = designated_values(statements) else {
        return Err(fault_at(MISSING_STATEMENT, end));
    };
    let names = names_given(alloc, bytes, at, values)?;
    let mask = designated_given(bytes, names.items(), designated)?;
    Ok((names, mask))
}

fn name_of(alloc: Global, bytes: &[u8], word: Option<Word>) -> Result<Name, AllocError>
    requires { IfSome word (LiesIn (length bytes.now)) }
    ensures { IfOk result (λ name. name ≡ logic_name bytes.now word) }
{
    match word {
        Some(word) => Name::of_bytes(alloc, text_of(bytes, &word)),
        None => Ok(Name::new(alloc)),
    }
}

// The logic of the statements of a file.
fn logic_given(alloc: Global, bytes: &[u8], statements: &[Statement]) -> Result<Spec, SpecFault>
    requires length { length bytes.now < 2 ^ 32 }
    requires words { All (StatementHas (LiesIn (length bytes.now))) statements.now }
    ensures answer { Answers (StatementsGive bytes.now statements.now) result }
    ensures below { IfOk result (λ spec. spec.designated < 2 ^ length spec.values) }
{
    let (values, designated) = values_given(alloc, bytes, statements)?;
    let names = values.items();
    let orders = orderings_given(alloc, bytes, names, statements)?;
    let operators = operators_given(alloc, bytes, names, &orders, statements)?;
    let quantifiers = quantifiers_given(
        alloc,
        bytes,
        names,
        &orders,
        operators.items(),
        statements,
    )?;
    Ok(Spec {
        name: name_of(alloc, bytes, logic_name(statements))?,
        values,
        designated,
        operators,
        quantifiers,
    })
}

/// The logic of the bytes, or their first fault. `Memory` may come at any bytes.
pub fn read_spec(alloc: Global, bytes: &[u8]) -> Result<Spec, SpecFault>
    ensures answer { Answers (BytesGive bytes.now) result }
    // What the bytes give is answered, and nothing else.
    ensures complete { (told : Result Spec SpecFault) → BytesGive bytes.now told → Gives (λ spec. spec) result told }
    ensures below { IfOk result (λ spec. spec.designated < 2 ^ length spec.values) }
    // It is a logic.
    ensures logic { IfOk result (λ spec. IsLogic (logic_of spec)) }
{
    if bytes.len() > LONGEST_FILE {
        return Err(fault_at(FILE_TOO_LONG, LONGEST_FILE as u32));
    }
    let tree = tree_given(alloc, bytes)?;
    logic_given(alloc, bytes, tree.statements.items())
}
