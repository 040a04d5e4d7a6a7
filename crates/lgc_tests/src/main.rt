//! The runs of the program, and the answers of calls on formulas and queries, as tables of texts that were worked out by hand.
//!
//! Each file under `data/` is a table. A line that begins with `== ` begins a section:
//!
//! - `== note TEXT`: what the sections behind it are about.
//! - `== file NAME`: the lines behind it are the bytes of the file of this name, up to the next such line of this table. A name is
//!   `l.lgc` or `r.txt`; both files are empty at first.
//! - `== padded NAME LENGTH`: the file of this name is as before, with blanks behind it up to this length.
//! - `== failing NUMBER`: in the next run the read of this number fails.
//! - `== room NUMBER`: in the next run the first put to either sink fails after so many bytes.
//! - `== run WORDS`: the words of a command line, with a blank between them; `== run` alone has none.
//! - `== out NUMBER` and `== err NUMBER`: the run ends with this number, and the lines behind it are what it puts to the output
//!   or to the standard error. The other one stays empty.
//! - `== claims NUMBER`: the run ends with this number and puts a report to the output, whose claims are the lines behind it. A claim that
//!   ends with `refuted` leaves out the valuation, and `proved by 3 lines` tells how many lines are cited.
//!
//! - `== lets`: the formulas of the lines behind it have the numbers from 1 on, each read where those before it have theirs.
//! - `== formula`, `== numbered`, `== term`, `== instance`, `== query`, `== numbered_query`, `== queries`, `== goals`, `== atoms` and
//!   `== refutations`: each line behind it is a text, ` => `, and what a call answers to it, as `src/asked.rt` tells. The text is read
//!   against `l.lgc`, which has three truth values there; the text `r.txt` stands for the bytes of that file. An answer may be
//!   `fault NUMBER at OFFSET`.
//!
//! The line feed before a section's line isn't part of the section before it. What a run puts ends with a line feed, unless its
//! put failed. The program prints for each table how many runs and answers it has, and each that is otherwise. What tables can't say
//! stands in `tests.rt`.
#![tactic(auto)]

mod asked;
mod table;
#[cfg(test)]
mod tests;

use std::{fs, io};
use table::Table;

const TABLES: [&str; 13] = [
    "commands.txt",
    "calculus.txt",
    "latex.txt",
    "spec_faults.txt",
    "verdicts.txt",
    "input_faults.txt",
    "formulas.txt",
    "queries.txt",
    "prove.txt",
    "clauses.txt",
    "tableau.txt",
    "check.txt",
    "report_faults.txt",
];

// Makes the runs of the table in this file.
fn make_runs(rt: &HostRuntime, name: &str) -> io::Result<()> {
    let text = fs::read_to_string(rt, name)?;
    let mut table = Table::new(rt.alloc());
    let lines = text.strip_suffix('\n').unwrap_or(&text);
    for section in lines.strip_prefix("== ").unwrap_or(lines).split("\n== ") {
        let (line, rest) = section.split_once('\n').unwrap_or((section, ""));
        if !table.read(line, rest)? {
            let runs = table.runs;
            println!(rt; "{name}: run {runs} ends otherwise than by {line}")?;
        }
    }
    let runs = table.runs;
    println!(rt; "{name}: {runs} runs")
}

fn main(rt: HostRuntime) -> io::Result<()> {
    for name in TABLES {
        make_runs(&rt, name)?;
    }
    Ok(())
}
