// The names in terms and formulas.
ghost use Rattle.std.specs.Prelude.{◌≡◌, ℕ, List, true, false};
ghost use Rattle.std.specs.List.{list_all};
ghost use Rattle.lgc_formulas.specs.FormulaTexts.{IsFormulaText};
ghost use Rattle.lgc_formulas.specs.Writable.{is_upper_word, can_name_predicate, has_readable_term_names, has_readable_names};

use lgc_formulas::is_reserved;
use lgc_print::{has_word_bytes, is_lower_word};
use lgc_syntax::{Formula, Term};
use lgc_values::Matrix;

fn is_upper_word(name: &[u8]) -> bool
    ensures { result ≡ is_upper_word name.now }
{
    match name.split_first() {
        Some((first, rest)) => {
            (first.is_ascii_uppercase() || *first == b'_') && has_word_bytes(rest)
        }
        None => false,
    }
}

fn names_predicate<const N: usize>(m: &Matrix<N>, name: &[u8]) -> bool
    ensures { result ≡ can_name_predicate m.now false name.now }
{
    is_lower_word(name) && m.operator_named(name).is_none() && m.quantifier_named(name).is_none()
}

/// Whether the names in a term have the forms by which they are read.
#[cycle(has_readable_term_names)]
#[tactic(auto, using(crate::proofs::WritableLaws::term_name_rules))]
pub fn has_readable_term_names(t: &Term) -> bool
    ensures { result ≡ has_readable_term_names false t.now }
{
    match t {
        Term::Bound(_) => true,
        Term::Free(name) => is_upper_word(name.bytes()) && !is_reserved(name.bytes()),
        Term::Apply(name, args) => {
            is_lower_word(name.bytes()) && have_readable_term_names(args.items())
        }
    }
}

#[cycle(has_readable_term_names)]
fn have_readable_term_names(terms: &[Term]) -> bool
    ensures { result ≡ list_all (has_readable_term_names false) terms.now }
{
    for term in terms {
        if !has_readable_term_names(term) {
            return false;
        }
    }
    true
}

#[cycle(is_readable)]
#[tactic(auto, using(crate::proofs::WritableLaws::name_rules))]
fn is_readable<const N: usize>(m: &Matrix<N>, f: &Formula) -> bool
    ensures { result ≡ has_readable_names m.now false f.now }
{
    match f {
        Formula::Atom(name, args) => {
            names_predicate(m, name.bytes()) && have_readable_term_names(args.items())
        }
        Formula::Op(_, args) => have_readable_names(m, args.items()),
        Formula::Quant(_, body) => is_readable(m, body.get()),
    }
}

#[cycle(is_readable)]
fn have_readable_names<const N: usize>(m: &Matrix<N>, formulas: &[Formula]) -> bool
    ensures { result ≡ list_all (has_readable_names m.now false) formulas.now }
{
    for formula in formulas {
        if !is_readable(m, formula) {
            return false;
        }
    }
    true
}

/// Whether the names in a formula have the forms by which they are read.
pub fn has_readable_names<const N: usize>(m: &Matrix<N>, f: &Formula) -> bool
    ensures names { result ≡ has_readable_names m.now false f.now }
    // They have in each formula of a text, so what `read_formula` answers is one for `text_of_formula`.
    ensures read { (bytes : List ℕ) → IsFormulaText m.now bytes f.now → result ≡ true }
{
    is_readable(m, f)
}
