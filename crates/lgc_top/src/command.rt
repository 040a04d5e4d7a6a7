// The words of the command line.
ghost use Rattle.std.specs.Prelude.{◌≡◌, ℕ, List, map, string_bytes};
ghost use Rattle.std.specs.Option.{option_map};
ghost use Rattle.lgc_top.specs.Commands.{is_file_name, command_on, command_named, command_on_both, command_of_three, command_of};
ghost use Rattle.lgc_top.specs.Steps.{asked, on_both};

/// What is done with a second file, for the logic of the first.
#[derive(Clone, Copy)]
pub(crate) enum Work {
    /// Verdicts on its rules.
    Verify,
    /// Answers to its queries.
    Prove,
    /// The verdict on its report.
    Check,
    /// The signed clauses of its queries.
    Clauses,
    /// Tableaux of its queries.
    Tableaux,
}

/// How a calculus is printed.
#[derive(Clone, Copy)]
pub(crate) enum Format {
    /// As text.
    Text,
    /// As a document for LaTeX.
    Latex,
}

/// What the words ask for.
#[derive(Clone, Copy)]
pub(crate) enum Command<'a> {
    /// The calculus of the specification in the file of this name, in this format.
    Calculus(Format, &'a str),
    /// Some work on the files of these names.
    OnBoth(Work, &'a str, &'a str),
}

fn is_file_name(word: &str) -> bool
    ensures { result ≡ is_file_name word.now }
{
    !word.is_empty() && word.as_bytes()[0] != b'-'
}

fn command_on<'a>(format: Format, word: &str, spec: &'a str) -> Option<Command<'a>>
    ensures { option_map asked result ≡ command_on format word.now spec.now }
{
    if word == "calculus" && is_file_name(spec) {
        Some(Command::Calculus(format, spec))
    } else {
        None
    }
}

fn work_of(word: &str) -> Option<Work>
    ensures { (spec input : List ℕ) → option_map (λ work. on_both work spec input) result ≡ command_named word.now spec input }
{
    match word {
        "verify" => Some(Work::Verify),
        "prove" => Some(Work::Prove),
        "check" => Some(Work::Check),
        "clauses" => Some(Work::Clauses),
        "tableau" => Some(Work::Tableaux),
        _ => None,
    }
}

fn command_on_both<'a>(word: &str, spec: &'a str, input: &'a str) -> Option<Command<'a>>
    ensures { option_map asked result ≡ command_on_both word.now spec.now input.now }
{
    if is_file_name(spec) && is_file_name(input) {
        let work = work_of(word)?;
        Some(Command::OnBoth(work, spec, input))
    } else {
        None
    }
}

fn command_of_three<'a>(word: &str, second: &'a str, third: &'a str) -> Option<Command<'a>>
    ensures { option_map asked result ≡ command_of_three word.now second.now third.now }
{
    if second == "--latex" {
        command_on(Format::Latex, word, third)
    } else {
        command_on_both(word, second, third)
    }
}

/// The command of the words.
pub(crate) fn command_of(words: &[String]) -> Option<Command<'_>>
    ensures { option_map asked result ≡ command_of (map string_bytes words.now) }
{
    match words {
        [word, spec] => command_on(Format::Text, word.as_str(), spec.as_str()),
        [word, second, third] => command_of_three(word.as_str(), second.as_str(), third.as_str()),
        _ => None,
    }
}
