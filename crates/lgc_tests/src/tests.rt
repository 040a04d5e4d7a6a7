// What the tables can't say: the machine's files, and calls that the program doesn't make.
ghost use Rattle.std.specs.Prelude.{All};
ghost use Rattle.lgc_clauses.specs.Kinds.{plain_rule};
ghost use Rattle.lgc_clauses.specs.Rules.{Fits};

use lgc_clauses::Rule;
use lgc_io::{FileFault, Files, HostFiles, Reading, Sink, SinkFault, StreamSink};
use lgc_lexer::lex;
use lgc_print::write_rule;
use lgc_round_trip::{have_signs, text_of_rules};
use lgc_rules::{read_rules, rule_at};
use lgc_spec::{matrix_of, read_spec};
use lgc_syntax::InputFault;
use lgc_values::Matrix;
use std::alloc::{AllocError, Global};
use std::test::Fail;
use std::{env, fs, process};

// The file is longer than what the host's reader takes at once.
#[test]
fn writes_and_reads_on_the_machine(rt: HostRuntime) -> Result<(), Fail> {
    let mut path = env::temp_dir(&rt)?;
    path.push(format!(in rt.alloc(); "lgc_tests_{}", process::id(rt.process()))?.as_str())?;
    let mut sink = StreamSink::new(fs::create(&rt, path.as_path())?);
    for _ in 0..500 {
        assert!(rt; sink.put(b"0123456789") == Ok(()));
    }
    let mut into = Vec::new(rt.alloc());
    let mut files = HostFiles::new(rt.alloc(), rt);
    let long = files.read_file(path.as_str(), 4999, &mut into);
    let whole = files.read_file(path.as_str(), 5000, &mut into);
    fs::remove_file(&rt, path.as_path())?;
    let gone = files.read_file(path.as_str(), 5000, &mut into);
    let answers = (long, whole, gone);
    assert!(rt;
        answers
            == (
                Ok(Reading::TooLong),
                Ok(Reading::Whole),
                Err(FileFault::Failed)
            )
    );
    assert!(rt; into.len() == 5000);
    Ok(())
}

// A writer with room for two bytes: the third put is taken in part.
#[test]
fn writes_until_the_room_ends(rt: HostRuntime) {
    let mut room = [0u8; 2];
    let mut sink = StreamSink::new(room.as_mut_slice());
    let answers = (sink.put(b""), sink.put(b"a"), sink.put(b"bc"));
    assert!(rt; answers == (Ok(()), Ok(()), Err(SinkFault::Failed)) && room == *b"ab");
}

const QUOTED: &str = "truth_values {0x,'1/2'}. designated_truth_values {'1/2'}.
operator(&/2, mapping {(0x,0x):0x, (0x,'1/2'):0x, ('1/2',0x):0x, ('1/2','1/2'):'1/2'}).
quantifier('For all', induced_by &/2).";

const RULES: &[u8] = b"rule 1: operator '&'/2 at {'1/2'}: [2^{'1/2'}; 1^{0x,'1/2'}, 2^{0x}; 0].
rule 2: quantifier 'For all' at {0x,'1/2'}: [all{'1/2'}, all{0x,'1/2'}, some{0x}; all{'1/2'}; some{0x,'1/2'}; 0].
";

// The matrix of a text, if it gives a logic with two truth values.
fn matrix(alloc: Global, text: &str) -> Result<Option<Matrix<2>>, AllocError> {
    let Ok(spec) = read_spec(alloc, text.as_bytes()) else {
        return Ok(None);
    };
    if spec.values.len() != 2 {
        return Ok(None);
    }
    Ok(Some(matrix_of(alloc, &spec)?))
}

// What is printed of some rules, if their signs have members.
fn printed(alloc: Global, m: &Matrix<2>, rules: &[Rule<2>]) -> Result<Option<Vec<u8>>, AllocError>
    requires { All (λ rule. Fits m.now (plain_rule rule)) rules.now }
{
    if have_signs(rules) && rules.len() < 100 {
        Ok(Some(text_of_rules(alloc, m, rules)?))
    } else {
        Ok(None)
    }
}

#[test]
fn reads_back_what_is_printed(rt: HostRuntime) -> Result<(), Fail> {
    let m = matrix(rt.alloc(), QUOTED)?.ok_or("a logic")?;
    let rules = read_rules(rt.alloc(), &m, RULES)?;
    let text = printed(rt.alloc(), &m, rules.items())?.ok_or("signs")?;
    assert!(rt; text.as_slice() == RULES);
    Ok(())
}

// The text of the rule that begins with the token at this place, and the place of the token behind it; or its fault.
fn read_at(alloc: Global, m: &Matrix<2>, at: usize) -> Result<(Vec<u8>, usize), InputFault> {
    let bytes = b"end rule 7: operator '&'/2 at {0x}: [1^{0x}; 2^{0x}]. rule 1: operator '&'/1";
    match lex(alloc, bytes) {
        Ok(tokens) if at <= tokens.len() => {
            let (found, behind) = rule_at(alloc, m, bytes, &tokens, at)?;
            let mut text = Vec::new(alloc);
            write_rule(alloc, m, found.number, &found.rule, &mut text)?;
            Ok((text, behind))
        }
        _ => Err(InputFault::Memory),
    }
}

fn fault_at(number: u8, offset: u32) -> Option<InputFault> {
    Some(InputFault::Fault { number, offset })
}

#[test]
fn reads_rules_among_tokens(rt: HostRuntime) -> Result<(), Fail> {
    let m = matrix(rt.alloc(), QUOTED)?.ok_or("a logic")?;
    let (text, behind) = read_at(rt.alloc(), &m, 1)?;
    let expected = b"rule 7: operator '&'/2 at {0x}: [1^{0x}; 2^{0x}].\n".as_slice();
    assert!(rt; text.as_slice() == expected && behind == 27);
    let faults = [
        read_at(rt.alloc(), &m, 0).err(),
        read_at(rt.alloc(), &m, 27).err(),
        read_at(rt.alloc(), &m, 34).err(),
    ];
    assert!(rt; faults == [fault_at(4, 0), fault_at(6, 75), fault_at(4, 76)]);
    Ok(())
}
