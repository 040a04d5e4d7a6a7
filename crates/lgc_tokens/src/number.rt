// Numbers in texts.
ghost use Rattle.std.specs.Prelude.{◌≡◌, ◌<◌, ◌≤◌, MatchOption, IfSome};
ghost use Rattle.std.specs.List.{list_all};
ghost use Rattle.std.specs.Char.{is_ascii_digit};
ghost use Rattle.lgc_tokens.specs.Numbers.{number_of, has_leading_zero, number_up_to, number_in, long_number_in};

/// The greatest number.
pub const MOST_NUMBER: u32 = 4_294_967_295;

/// The greatest number of a line or of a let.
pub const MOST_LONG_NUMBER: u64 = 18_446_744_073_709_551_615;

// The number that digits write, where it isn't above `most`.
fn value_of(digits: &[u8], most: u64) -> Option<u64>
    ensures { MatchOption result (most < number_of digits.now) (λ number. (number ≡ number_of digits.now) × (number ≤ most)) }
{
    let mut number: u128 = 0;
    for digit in digits {
        number = 10 * number + u128::from(digit.saturating_sub(b'0'));
        if number > u128::from(most) {
            return None;
        }
    }
    Some(number as u64)
}

fn has_leading_zero(text: &[u8]) -> bool
    ensures { result ≡ has_leading_zero text.now }
{
    text.len() > 1 && text[0] == b'0'
}

/// Whether a text has digits alone.
pub fn are_digits(text: &[u8]) -> bool
    ensures { result ≡ list_all is_ascii_digit text.now }
{
    text.iter().all(|b| b.is_ascii_digit())
}

// The number that a text writes, where it writes one up to `most`.
fn number_up_to(text: &[u8], most: u64) -> Option<u64>
    ensures number { result ≡ number_up_to most text.now }
    ensures value { IfSome result (λ number. (number ≡ number_of text.now) × (number ≤ most)) }
{
    if !are_digits(text) || has_leading_zero(text) {
        return None;
    }
    value_of(text, most)
}

/// The number that a text writes, where it writes one: digits alone, without a leading zero unless they are `0`.
#[tactic(auto, unfolding(crate::specs::Numbers::number_in))]
pub fn number_in(text: &[u8]) -> Option<u32>
    ensures number { result ≡ number_in text.now }
    ensures value { IfSome result (λ number. number ≡ number_of text.now) }
{
    let number = number_up_to(text, u64::from(MOST_NUMBER))?;
    Some(number as u32)
}

/// The same of the number of a line or of a let.
#[tactic(auto, unfolding(crate::specs::Numbers::long_number_in))]
pub fn long_number_in(text: &[u8]) -> Option<u64>
    ensures number { result ≡ long_number_in text.now }
    ensures value { IfSome result (λ number. number ≡ number_of text.now) }
{
    number_up_to(text, MOST_LONG_NUMBER)
}
