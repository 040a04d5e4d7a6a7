// One table of runs: what its sections tell, and whether a run ends as they say.
ghost use Rattle.std.specs.Prelude.{◌≡◌, IfOk, [], ◌∷◌, codes};

use crate::asked::{Asked, asked_of, formula_of, matrix, written};
use lgc_io::{MemoryFiles, MemorySink};
use lgc_syntax::{Formula, InputFault};
use lgc_top::{exit_number, run_multlog};
use lgc_values::{List, Name};
use std::alloc::{AllocError, Global};
use std::str;

/// What a table has told so far: the bytes of the files `l.lgc` and `r.txt`, the formulas that have numbers, and the next run.
#[derive(Drop)]
pub(crate) struct Table {
    alloc: Global,
    spec: Vec<u8>,
    input: Vec<u8>,
    lets: List<Formula>,
    words: Vec<String>,
    failing: Option<u64>,
    room: Option<usize>,
    pub runs: u64,
}

impl Table {
    pub(crate) fn new(alloc: Global) -> Table {
        Table {
            alloc,
            spec: Vec::new(alloc),
            input: Vec::new(alloc),
            lets: List::new(alloc),
            words: Vec::new(alloc),
            failing: None,
            room: None,
            runs: 0,
        }
    }

    /// Reads one section: its line, and the lines behind it. Whether it is one, and the run that it ends, if any, ends so.
    pub(crate) fn read(&mut self, line: &str, lines: &str) -> Result<bool, AllocError> {
        let (kind, rest) = line.split_once(' ').unwrap_or((line, ""));
        match kind {
            "note" => Ok(true),
            "file" => self.set_file(rest, lines),
            "padded" => self.pad_file(rest),
            "failing" => {
                self.failing = rest.parse().ok();
                Ok(true)
            }
            "room" => {
                self.room = rest.parse().ok();
                Ok(true)
            }
            "run" => self.set_words(line.strip_prefix("run ")),
            "out" => self.ends(rest, lines, ""),
            "err" => self.ends(rest, "", lines),
            "claims" => self.claims(rest, lines),
            "lets" => self.set_lets(lines),
            _ => match asked_of(kind) {
                Some(asked) => self.answers(asked, lines),
                None => Ok(false),
            },
        }
    }

    fn set_file(&mut self, name: &str, content: &str) -> Result<bool, AllocError> {
        let content = Vec::from_slice(self.alloc, content.as_bytes())?;
        match name {
            "l.lgc" => self.spec = content,
            "r.txt" => self.input = content,
            _ => return Ok(false),
        }
        Ok(true)
    }

    // Puts blanks behind a file, up to a length.
    fn pad_file(&mut self, name_and_length: &str) -> Result<bool, AllocError> {
        let (name, length) = name_and_length.split_once(' ').unwrap_or(("", ""));
        let length: usize = length.parse().unwrap_or(0);
        match name {
            "l.lgc" => self.spec.resize(length, b' ')?,
            "r.txt" => self.input.resize(length, b' ')?,
            _ => return Ok(false),
        }
        Ok(true)
    }

    fn set_words(&mut self, words: Option<&str>) -> Result<bool, AllocError> {
        self.words = Vec::new(self.alloc);
        if let Some(words) = words {
            for word in words.split(' ') {
                self.words.push(String::from_str(self.alloc, word)?)?;
            }
        }
        Ok(true)
    }

    // Numbers the formulas of these lines.
    fn set_lets(&mut self, lines: &str) -> Result<bool, AllocError> {
        self.lets = List::new(self.alloc);
        let Some(m) = matrix(self.alloc, &self.spec)? else {
            return Ok(false);
        };
        for line in lines.lines() {
            match formula_of(self.alloc, &m, self.lets.items(), line.as_bytes()) {
                Ok(parsed) => self.lets.push(parsed.formula)?,
                Err(InputFault::Memory) => return Err(AllocError),
                Err(_) => return Ok(false),
            }
        }
        Ok(true)
    }

    // Whether each line has a text and its answer.
    fn answers(&mut self, asked: Asked, lines: &str) -> Result<bool, AllocError> {
        let Some(m) = matrix(self.alloc, &self.spec)? else {
            return Ok(false);
        };
        for line in lines.lines() {
            self.runs = self.runs.saturating_add(1);
            let (text, answer) = line.split_once(" => ").unwrap_or((line, ""));
            let bytes = bytes_of_row(text, &self.input);
            let found = match written(self.alloc, &m, self.lets.items(), asked, bytes) {
                Ok(found) => found,
                Err(InputFault::Fault { number, offset }) => {
                    format!(in self.alloc; "fault {number} at {offset}")?.into_bytes()
                }
                Err(InputFault::Memory) => return Err(AllocError),
            };
            if found.as_slice() != answer.as_bytes() {
                return Ok(false);
            }
        }
        Ok(true)
    }

    // Makes the run.
    fn make(&mut self) -> Result<Ended, AllocError> {
        let alloc = self.alloc;
        self.runs = self.runs.saturating_add(1);
        let contents = contents_of(alloc, &self.spec, &self.input)?;
        let mut files = MemoryFiles::new(alloc, contents, listed(alloc, self.failing)?);
        let mut output = MemorySink::new(alloc, puts_failing(alloc, self.room)?);
        let mut error = MemorySink::new(alloc, puts_failing(alloc, self.room)?);
        let status = run_multlog(alloc, &self.words, &mut files, &mut output, &mut error);
        let whole = self.room.is_none();
        self.failing = None;
        self.room = None;
        Ok(Ended {
            number: exit_number(&status),
            output,
            error,
            whole,
        })
    }

    // Makes the run. Whether it ends with this number, and these lines stand in the two sinks.
    fn ends(&mut self, number: &str, out: &str, err: &str) -> Result<bool, AllocError> {
        let ended = self.make()?;
        Ok(
            number.parse() == Ok(ended.number)
                && is_put(ended.output.bytes(), out, ended.whole)
                && is_put(ended.error.bytes(), err, ended.whole),
        )
    }

    // Makes the run. Whether it ends with this number, and the output is a report with these claims.
    fn claims(&mut self, number: &str, claims: &str) -> Result<bool, AllocError> {
        let ended = self.make()?;
        let Ok(report) = str::from_utf8(ended.output.bytes()) else {
            return Ok(false);
        };
        Ok(
            number.parse() == Ok(ended.number)
                && ended.error.bytes().is_empty()
                && are_claims(report, claims),
        )
    }
}

// How a run ended: the number, what was put to the two sinks, and whether no put was to fail.
#[derive(Drop)]
struct Ended {
    number: u8,
    output: MemorySink,
    error: MemorySink,
    whole: bool,
}

// Whether the claims of a report are these, in order.
fn are_claims(report: &str, claims: &str) -> bool {
    let mut expected = claims.lines();
    for line in report.lines() {
        if line.starts_with("claim ") {
            match expected.next() {
                Some(claim) if is_claim(line, claim) => {}
                _ => return false,
            }
        }
    }
    expected.next().is_none()
}

// Whether a line is a claim, where the claim may leave out the valuation and tell how many lines are cited.
fn is_claim(line: &str, claim: &str) -> bool {
    match claim.split_once(" proved by ") {
        Some((asked, lines)) => match line.split_once(" proved by ") {
            Some((query, cited)) => {
                let (count, _) = lines.split_once(' ').unwrap_or((lines, ""));
                query == asked && count.parse() == Ok(cited.split(',').count())
            }
            None => false,
        },
        None => match line.strip_prefix(claim) {
            Some(rest) => rest.is_empty() || rest.starts_with(" at {"),
            None => false,
        },
    }
}

// The bytes that a row asks about: its text, or those of the second file, if the text is the file's name.
fn bytes_of_row<'a>(text: &'a str, input: &'a [u8]) -> &'a [u8] {
    if text == "r.txt" {
        input
    } else {
        text.as_bytes()
    }
}

fn name_of(alloc: Global, text: &[u8]) -> Result<Name, AllocError>
    ensures { IfOk result (λ name. name ≡ text.now) }
{
    Name::of_bytes(alloc, text)
}

fn bytes_of(alloc: Global, bytes: &[u8]) -> Result<List<u8>, AllocError>
    ensures { IfOk result (λ copy. copy ≡ bytes.now) }
{
    Ok(List::of_vec(Vec::from_slice(alloc, bytes)?))
}

// The two files with their names, which differ.
fn contents_of(
    alloc: Global,
    spec: &[u8],
    input: &[u8],
) -> Result<List<(Name, List<u8>)>, AllocError>
    ensures { IfOk result (λ files. files ≡ (codes "l.lgc", spec.now) ∷ (codes "r.txt", input.now) ∷ []) }
{
    let first = (name_of(alloc, b"l.lgc")?, bytes_of(alloc, spec)?);
    let second = (name_of(alloc, b"r.txt")?, bytes_of(alloc, input)?);
    Ok(List::of_vec(vec![in alloc; first, second]?))
}

fn listed(alloc: Global, number: Option<u64>) -> Result<List<u64>, AllocError> {
    let mut numbers = List::new(alloc);
    if let Some(number) = number {
        numbers.push(number)?;
    }
    Ok(numbers)
}

// The first put is to fail, after so many bytes.
fn puts_failing(alloc: Global, room: Option<usize>) -> Result<List<(u64, usize)>, AllocError> {
    let mut puts = List::new(alloc);
    if let Some(room) = room {
        puts.push((1, room))?;
    }
    Ok(puts)
}

// Whether the bytes are these lines, and end with a line feed where all of them were put.
fn is_put(bytes: &[u8], lines: &str, whole: bool) -> bool {
    match bytes.split_last() {
        Some((last, before)) if whole => *last == b'\n' && before == lines.as_bytes(),
        _ => bytes == lines.as_bytes(),
    }
}
