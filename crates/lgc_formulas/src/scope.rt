// The variables of the quantifiers around a formula.
ghost use Rattle.std.specs.Prelude.{◌≡◌, ◌≤◌, ◌∷◌, length};
ghost use Rattle.lgc_formulas.specs.declared.formula.TheConstants.{MOST_DEPTH};
ghost use Rattle.lgc_formulas.specs.Scopes.{names_of, bound_in, is_reserved};

use lgc_tokens::are_digits;

/// The variables of the quantifiers around, the innermost first. Each inner scope borrows from the one around it.
#[derive(Drop)]
pub(crate) enum Scope<'a> {
    Outermost,
    Inside(&'a [u8], &'a Scope<'a>),
}

/// The place of a name among them, from 0: which of the quantifiers around binds it.
#[tactic(auto, using(crate::proofs::ScopeLaws::names_rules))]
pub(crate) fn place_of(scope: &Scope, text: &[u8]) -> Option<u32>
    requires { length (names_of scope.now) ≤ MOST_DEPTH }
    ensures { result ≡ bound_in (names_of scope.now) text.now }
{
    let mut at = scope;
    let mut place: u32 = 0;
    loop {
        match at {
            Scope::Outermost => return None,
            Scope::Inside(name, around) => {
                if *name == text {
                    return Some(place);
                }
                place += 1;
                at = around;
            }
        }
    }
}

/// The scope inside a quantifier with this variable.
#[tactic(auto, using(crate::proofs::ScopeLaws::names_rules))]
pub(crate) fn inside<'a>(name: &'a [u8], around: &'a Scope<'a>) -> Scope<'a>
    ensures { names_of result ≡ name.now ∷ names_of around.now }
{
    Scope::Inside(name, around)
}

/// Whether a name is `B` and digits, as the variables of quantifiers are written.
pub fn is_reserved(text: &[u8]) -> bool
    ensures { result ≡ is_reserved text.now }
{
    match text.split_first() {
        Some((first, digits)) => { *first == b'B' && !digits.is_empty() && are_digits(digits) }
        None => false,
    }
}
