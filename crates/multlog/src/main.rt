//! `multlog`, the logician's tool for finite-valued logics, as a program of the command line.
//!
//! It hands the words of the command line, the files of the machine and the standard output and error to
//! `run_multlog`, and ends with the number of the status that this call answers.
#![tactic(auto)]

use lgc_io::{HostFiles, StreamSink};
use lgc_top::{Status, exit_number, run_multlog};
use std::alloc::AllocError;
use std::io::ErrorKind;
use std::process::ExitCode;
use std::{env, io};

/// The number of no status: the machine refused the words.
const WORDS_REFUSED: u8 = 10;

// The words after the program's own name. Where one isn't UTF-8 there are none, and so no command.
fn words_of(rt: &HostRuntime) -> io::Result<Vec<String>> {
    let mut words = Vec::new(rt.alloc());
    match env::args(rt) {
        Ok(all) => {
            for (i, word) in all.enumerate() {
                if i > 0 {
                    words.push(word).map_err(AllocError::from)?;
                }
            }
        }
        Err(error) if error.kind() == ErrorKind::InvalidData => {}
        Err(error) => return Err(error),
    }
    Ok(words)
}

fn main(rt: HostRuntime) -> ExitCode {
    let words = match words_of(&rt) {
        Ok(words) => words,
        Err(error) if error.kind() == ErrorKind::OutOfMemory => {
            return ExitCode::from(exit_number(&Status::Memory));
        }
        Err(_) => return ExitCode::from(WORDS_REFUSED),
    };
    let alloc = rt.alloc();
    let mut out = StreamSink::new(rt.stdout());
    let mut err = StreamSink::new(rt.stderr());
    let mut files = HostFiles::new(alloc, rt);
    let status = run_multlog(alloc, &words, &mut files, &mut out, &mut err);
    ExitCode::from(exit_number(&status))
}
