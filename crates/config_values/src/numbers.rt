// Numbers as text.
ghost use Rattle.std.specs.Prelude.{◌≡◌, true, ◌≤◌, ◌-◌, ◌^◌, length, min};
ghost use Rattle.std.specs.List.{prefix_len, suffix_len, list_all};
ghost use Rattle.config_values.specs.Numbers.{is_blank, without_leading, without_trailing, trimmed, is_digit, are_digits, decimal, without_sign, has_minus, signed, number_of};

use crate::faults::What;

/// Whether a unit is a space or a tab.
fn is_blank(unit: u16) -> bool
    ensures { result ≡ is_blank unit }
{
    unit == 32 || unit == 9
}

fn leading_blanks(text: &[u16]) -> usize
    ensures { result ≡ prefix_len is_blank text.now }
{
    text.iter().take_while(|unit| is_blank(**unit)).count()
}

fn without_leading(text: &[u16]) -> &[u16]
    ensures { result.now ≡ without_leading text.now }
{
    let blanks = leading_blanks(text);
    text.split_at(blanks).1
}

fn trailing_blanks(text: &[u16]) -> usize
    ensures { result ≡ suffix_len is_blank text.now }
{
    text.iter()
        .rev()
        .take_while(|unit| is_blank(**unit))
        .count()
}

fn without_trailing(text: &[u16]) -> &[u16]
    ensures { result.now ≡ without_trailing text.now }
{
    let blanks = trailing_blanks(text);
    text.split_at(text.len() - blanks).0
}

/// A text without the spaces and tabs around it.
#[tactic(auto, unfolding(crate::specs::Numbers::trimmed))]
pub(crate) fn trimmed(text: &[u16]) -> &[u16]
    ensures { result.now ≡ trimmed text.now }
{
    without_trailing(without_leading(text))
}

fn is_digit(unit: u16) -> bool
    ensures { result ≡ is_digit unit }
{
    48 <= unit && unit <= 57
}

fn has_only_digits(text: &[u16]) -> bool
    ensures { result ≡ list_all is_digit text.now }
{
    text.iter().all(|unit| is_digit(*unit))
}

fn are_digits(text: &[u16]) -> bool
    ensures { result ≡ are_digits text.now }
{
    !text.is_empty() && has_only_digits(text)
}

/// The number that digits spell, or the greatest one of 64 bits where it is above that.
fn decimal(digits: &[u16]) -> u64
    requires { list_all is_digit digits.now ≡ true }
    ensures { result ≡ min (decimal digits.now) (2 ^ 64 - 1) }
{
    let mut number: u64 = 0;
    for unit in digits {
        number = number
            .saturating_mul(10)
            .saturating_add(u64::from(*unit - 48));
    }
    number
}

fn without_sign(text: &[u16]) -> &[u16]
    ensures { result.now ≡ without_sign text.now }
{
    match text {
        [] => text,
        [first, rest @ ..] => {
            if *first == 43 || *first == 45 {
                rest
            } else {
                text
            }
        }
    }
}

fn has_minus(text: &[u16]) -> bool
    ensures { result ≡ has_minus text.now }
{
    match text {
        [] => false,
        [first, ..] => *first == 45,
    }
}

/// A number of 64 signed bits by its sign and its size, or none for one below 0.
fn signed(negative: bool, size: u64) -> Result<Option<u64>, What>
    ensures { result ≡ signed negative size }
{
    if negative {
        if size == 0 {
            Ok(Some(0))
        } else if size <= 1 << 63 {
            Ok(None)
        } else {
            Err(What::OutOfRange)
        }
    } else if size < 1 << 63 {
        Ok(Some(size))
    } else {
        Err(What::OutOfRange)
    }
}

/// The number that a text spells, or none for one below 0.
#[tactic(auto, unfolding(crate::specs::Numbers::number_of))]
pub(crate) fn number_of(text: &[u16]) -> Result<Option<u64>, What>
    ensures { result ≡ number_of text.now }
{
    let spelled = trimmed(text);
    let digits = without_sign(spelled);
    if are_digits(digits) {
        signed(has_minus(spelled), decimal(digits))
    } else {
        Err(What::NotNumber)
    }
}
