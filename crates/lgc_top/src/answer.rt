// From the words and the files to the answer.
ghost use Rattle.std.specs.Prelude.{◌≡◌, ◌<◌, ◌^◌, ℕ, List, length, map, string_bytes, IfOk, MatchOption, MatchResult, Some, None};
ghost use Rattle.lgc_values.specs.Logic.{IsLogic};
ghost use Rattle.lgc_io.specs.Files.{FilesState, Holds, IsLonger};
ghost use Rattle.lgc_spec.specs.declared.spec.Spec.{Spec};
ghost use Rattle.lgc_spec.specs.Logics.{logic_of};
ghost use Rattle.lgc_syntax.specs.declared.fault.TheConstants.{FILE_TOO_LONG};
ghost use Rattle.lgc_top.specs.FaultLine.{fault_line, input_line};
ghost use Rattle.lgc_top.specs.Commands as commands;
ghost use Rattle.lgc_top.specs.Commands.{Calculus, Verify, Prove, Check, Clauses, Tableaux, spec_of, input_of, command_of};
ghost use Rattle.lgc_top.specs.Run.{HasSpec, HasInput, HasInputFault};
ghost use Rattle.lgc_top.specs.Steps.{on_both, limit_of, Answered, Stops, ReadStops, Refuses, verdict_status, answer_status};

use crate::command::{Command, Format, Work, command_of};
use crate::fault_line::{fault_line, input_line, read_line};
use crate::status::Status;
use crate::work::{calculus_of, clauses_of, report_of, tableaux_of, verdict_of, verdicts_of};
use lgc_io::{FileFault, Files, Reading};
use lgc_spec::{Kept, Spec, SpecFault, read_spec};
use lgc_syntax::InputFault;
use std::alloc::{AllocError, Global};

/// The bytes of an answer, and the status under which they are put.
#[derive(Drop)]
pub(crate) struct Answer {
    pub status: Status,
    pub bytes: Vec<u8>,
}

/// Why the work of a command isn't done.
#[derive(Drop)]
pub(crate) enum Stop {
    /// A file can't be read or has a fault, and this is the answer.
    Refused(Answer),
    /// Memory ran out.
    Memory,
}

// ---- refusals

fn refused(status: Status, line: Result<Vec<u8>, AllocError>) -> Stop
    ensures { (text : List ℕ) → IfOk line (λ line. line.items ≡ text) → Refuses status text result }
{
    match line {
        Ok(bytes) => Stop::Refused(Answer { status, bytes }),
        Err(_) => Stop::Memory,
    }
}

fn bad_spec(alloc: Global, number: u8, offset: u32, kept: &Kept) -> Stop
    ensures { Refuses Status.BadSpec (fault_line number offset kept.now) result }
{
    refused(Status::BadSpec, fault_line(alloc, number, offset, kept))
}

fn bad_input(alloc: Global, number: u8, offset: u32) -> Stop
    ensures { Refuses Status.BadInput (input_line number offset) result }
{
    refused(Status::BadInput, input_line(alloc, number, offset))
}

// ---- files

// The bytes of the file of this name, unless there are more than `limit`.
fn read<F: Files>(
    alloc: Global,
    files: &mut F,
    name: &str,
    limit: usize,
) -> Result<Option<Vec<u8>>, Stop>
    ensures read { MatchResult result (λ found. MatchOption found (IsLonger (F.state files.old) name.now limit) (λ bytes. Holds (F.state files.old) name.now bytes.items)) (ReadStops (F.state files.old) (F.state files.new) name.now) }
    ensures kept { IfOk result (λ _. F.state files.new ≡ F.state files.old) }
{
    let mut bytes = Vec::new(alloc);
    match files.read_file(name, limit, &mut bytes) {
        Ok(Reading::Whole) => Ok(Some(bytes)),
        Ok(Reading::TooLong) => Ok(None),
        Err(FileFault::Failed) => Err(refused(Status::ReadFault, read_line(alloc, name))),
        Err(FileFault::Memory) => Err(Stop::Memory),
    }
}

// The logic of the bytes of a specification.
fn spec_in(alloc: Global, bytes: &[u8]) -> Result<Spec, Stop>
    ensures spec { (command : commands.Command) (files files_after : FilesState) → files_after ≡ files → Holds files (spec_of command) bytes.now →
        MatchResult result (λ spec. HasSpec command files spec) (Stops (Some command) files files_after) }
    ensures logic { IfOk result (λ spec. IsLogic (logic_of spec)) }
    ensures designated { IfOk result (λ spec. spec.designated < 2 ^ length spec.values) }
{
    match read_spec(alloc, bytes) {
        Ok(spec) => Ok(spec),
        Err(
            SpecFault::Fault {
                number,
                offset,
                kept,
            },
        ) => Err(bad_spec(alloc, number, offset, &kept)),
        Err(SpecFault::Memory) => Err(Stop::Memory),
    }
}

// The logic of the specification in the file of this name, which is the first file of a command.
fn read_first<F: Files>(alloc: Global, files: &mut F, name: &str) -> Result<Spec, Stop>
    ensures spec { (command : commands.Command) → spec_of command ≡ name.now →
        MatchResult result (λ spec. HasSpec command (F.state files.old) spec) (Stops (Some command) (F.state files.old) (F.state files.new)) }
    ensures kept { IfOk result (λ _. F.state files.new ≡ F.state files.old) }
    ensures logic { IfOk result (λ spec. IsLogic (logic_of spec)) }
    ensures designated { IfOk result (λ spec. spec.designated < 2 ^ length spec.values) }
{
    match read(alloc, files, name, lgc_spec::LONGEST_FILE) {
        Ok(Some(bytes)) => spec_in(alloc, &bytes),
        Ok(None) => Err(bad_spec(
            alloc,
            lgc_spec::FILE_TOO_LONG,
            lgc_spec::LONGEST_FILE as u32,
            &Kept::Nothing,
        )),
        Err(stop) => Err(stop),
    }
}

// The bytes of the file of this name, which is the second file of a command. It has at most `limit` bytes.
fn read_second<F: Files>(
    alloc: Global,
    files: &mut F,
    name: &str,
    limit: u32,
) -> Result<Vec<u8>, Stop>
    ensures input { (command : commands.Command) (spec : Spec) → input_of command ≡ Some name.now → HasSpec command (F.state files.old) spec →
        ((bytes : List ℕ) → limit < length bytes → HasInputFault command (logic_of spec) bytes FILE_TOO_LONG limit) →
        MatchResult result (λ bytes. HasInput command (F.state files.old) spec bytes.items) (Stops (Some command) (F.state files.old) (F.state files.new)) }
    ensures kept { IfOk result (λ _. F.state files.new ≡ F.state files.old) }
{
    match read(alloc, files, name, limit as usize) {
        Ok(Some(bytes)) => Ok(bytes),
        Ok(None) => Err(bad_input(alloc, lgc_syntax::FILE_TOO_LONG, limit)),
        Err(stop) => Err(stop),
    }
}

// ---- commands

fn printed(alloc: Global, spec: &Spec, format: Format) -> Result<Answer, Stop>
    requires logic { IsLogic (logic_of spec.now) }
    requires designated { spec.now.designated < 2 ^ length spec.now.values }
    ensures { (file : List ℕ) (files files_after : FilesState) → files_after ≡ files → HasSpec (Calculus format file) files spec.now →
        Answered (Some (Calculus format file)) files files_after result }
{
    match calculus_of(alloc, spec, format) {
        Ok(bytes) => Ok(Answer {
            status: Status::Done,
            bytes,
        }),
        Err(_) => Err(Stop::Memory),
    }
}

fn calculus<F: Files>(
    alloc: Global,
    files: &mut F,
    name: &str,
    format: Format,
) -> Result<Answer, Stop>
    ensures { Answered (Some (Calculus format name.now)) (F.state files.old) (F.state files.new) result }
{
    match read_first(alloc, files, name) {
        Ok(spec) => printed(alloc, &spec, format),
        Err(stop) => Err(stop),
    }
}

fn verdict_status(all_right: bool) -> Status
    ensures { result ≡ verdict_status all_right }
{
    if all_right {
        Status::Done
    } else {
        Status::Rejected
    }
}

fn verdicts(alloc: Global, spec: &Spec, bytes: &[u8]) -> Result<Answer, Stop>
    requires logic { IsLogic (logic_of spec.now) }
    requires designated { spec.now.designated < 2 ^ length spec.now.values }
    ensures { (file rules : List ℕ) (files files_after : FilesState) → files_after ≡ files → HasInput (Verify file rules) files spec.now bytes.now →
        Answered (Some (Verify file rules)) files files_after result }
{
    match verdicts_of(alloc, spec, bytes) {
        Ok(judged) => Ok(Answer {
            status: verdict_status(judged.all_right),
            bytes: judged.lines,
        }),
        Err(InputFault::Fault { number, offset }) => Err(bad_input(alloc, number, offset)),
        Err(InputFault::Memory) => Err(Stop::Memory),
    }
}

fn answer_status(all_hold: bool) -> Status
    ensures { result ≡ answer_status all_hold }
{
    if all_hold {
        Status::Done
    } else {
        Status::Refuted
    }
}

fn report(alloc: Global, spec: &Spec, bytes: &[u8]) -> Result<Answer, Stop>
    requires logic { IsLogic (logic_of spec.now) }
    requires designated { spec.now.designated < 2 ^ length spec.now.values }
    ensures { (file queries : List ℕ) (files files_after : FilesState) → files_after ≡ files → HasInput (Prove file queries) files spec.now bytes.now →
        Answered (Some (Prove file queries)) files files_after result }
{
    match report_of(alloc, spec, bytes) {
        Ok(answered) => Ok(Answer {
            status: answer_status(answered.all_proved),
            bytes: answered.text,
        }),
        Err(InputFault::Fault { number, offset }) => Err(bad_input(alloc, number, offset)),
        Err(InputFault::Memory) => Err(Stop::Memory),
    }
}

fn verdict(alloc: Global, spec: &Spec, bytes: &[u8]) -> Result<Answer, Stop>
    requires logic { IsLogic (logic_of spec.now) }
    requires designated { spec.now.designated < 2 ^ length spec.now.values }
    ensures { (file report : List ℕ) (files files_after : FilesState) → files_after ≡ files → HasInput (Check file report) files spec.now bytes.now →
        Answered (Some (Check file report)) files files_after result }
{
    match verdict_of(alloc, spec, bytes) {
        Ok(told) => Ok(Answer {
            status: verdict_status(told.accepted),
            bytes: told.line,
        }),
        Err(InputFault::Fault { number, offset }) => Err(bad_input(alloc, number, offset)),
        Err(InputFault::Memory) => Err(Stop::Memory),
    }
}

fn clauses(alloc: Global, spec: &Spec, bytes: &[u8]) -> Result<Answer, Stop>
    requires logic { IsLogic (logic_of spec.now) }
    requires designated { spec.now.designated < 2 ^ length spec.now.values }
    ensures { (file queries : List ℕ) (files files_after : FilesState) → files_after ≡ files → HasInput (Clauses file queries) files spec.now bytes.now →
        Answered (Some (Clauses file queries)) files files_after result }
{
    match clauses_of(alloc, spec, bytes) {
        Ok(bytes) => Ok(Answer {
            status: Status::Done,
            bytes,
        }),
        Err(InputFault::Fault { number, offset }) => Err(bad_input(alloc, number, offset)),
        Err(InputFault::Memory) => Err(Stop::Memory),
    }
}

fn tableaux(alloc: Global, spec: &Spec, bytes: &[u8]) -> Result<Answer, Stop>
    requires logic { IsLogic (logic_of spec.now) }
    requires designated { spec.now.designated < 2 ^ length spec.now.values }
    ensures { (file queries : List ℕ) (files files_after : FilesState) → files_after ≡ files → HasInput (Tableaux file queries) files spec.now bytes.now →
        Answered (Some (Tableaux file queries)) files files_after result }
{
    match tableaux_of(alloc, spec, bytes) {
        Ok(told) => Ok(Answer {
            status: answer_status(told.all_closed),
            bytes: told.text,
        }),
        Err(InputFault::Fault { number, offset }) => Err(bad_input(alloc, number, offset)),
        Err(InputFault::Memory) => Err(Stop::Memory),
    }
}

// ---- commands on two files

// The greatest length of the second file.
fn limit_of(work: Work) -> u32
    ensures { result ≡ limit_of work }
{
    match work {
        Work::Verify => lgc_rules::LONGEST_FILE as u32,
        Work::Prove | Work::Clauses | Work::Tableaux => lgc_queries::LONGEST_FILE as u32,
        Work::Check => lgc_report_reader::LONGEST_REPORT,
    }
}

// The work on the bytes of the second file.
fn work_on(alloc: Global, spec: &Spec, bytes: &[u8], work: Work) -> Result<Answer, Stop>
    requires logic { IsLogic (logic_of spec.now) }
    requires designated { spec.now.designated < 2 ^ length spec.now.values }
    ensures { (file input : List ℕ) (files files_after : FilesState) → files_after ≡ files → HasInput (on_both work file input) files spec.now bytes.now →
        Answered (Some (on_both work file input)) files files_after result }
{
    match work {
        Work::Verify => verdicts(alloc, spec, bytes),
        Work::Prove => report(alloc, spec, bytes),
        Work::Check => verdict(alloc, spec, bytes),
        Work::Clauses => clauses(alloc, spec, bytes),
        Work::Tableaux => tableaux(alloc, spec, bytes),
    }
}

// The work on the file of this name, which is the second file.
fn work_against<F: Files>(
    alloc: Global,
    files: &mut F,
    spec: &Spec,
    input: &str,
    work: Work,
) -> Result<Answer, Stop>
    requires logic { IsLogic (logic_of spec.now) }
    requires designated { spec.now.designated < 2 ^ length spec.now.values }
    ensures { (file : List ℕ) → HasSpec (on_both work file input.now) (F.state files.old) spec.now →
        Answered (Some (on_both work file input.now)) (F.state files.old) (F.state files.new) result }
{
    match read_second(alloc, files, input, limit_of(work)) {
        Ok(bytes) => work_on(alloc, spec, &bytes, work),
        Err(stop) => Err(stop),
    }
}

fn on_both<F: Files>(
    alloc: Global,
    files: &mut F,
    name: &str,
    input: &str,
    work: Work,
) -> Result<Answer, Stop>
    ensures { Answered (Some (on_both work name.now input.now)) (F.state files.old) (F.state files.new) result }
{
    match read_first(alloc, files, name) {
        Ok(spec) => work_against(alloc, files, &spec, input, work),
        Err(stop) => Err(stop),
    }
}

fn usage(alloc: Global) -> Result<Answer, Stop>
    ensures { (files : FilesState) → Answered None files files result }
{
    match Vec::from_slice(alloc, b"usage: multlog COMMAND ARGUMENTS\n") {
        Ok(bytes) => Ok(Answer {
            status: Status::Usage,
            bytes,
        }),
        Err(_) => Err(Stop::Memory),
    }
}

/// The answer to the words.
pub(crate) fn answer_to<F: Files>(
    alloc: Global,
    words: &[String],
    files: &mut F,
) -> Result<Answer, Stop>
    ensures { Answered (command_of (map string_bytes words.now)) (F.state files.old) (F.state files.new) result }
{
    match command_of(words) {
        Some(Command::Calculus(format, spec)) => calculus(alloc, files, spec, format),
        Some(Command::OnBoth(work, spec, input)) => on_both(alloc, files, spec, input, work),
        None => usage(alloc),
    }
}
