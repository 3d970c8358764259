// Escapes: the units that a text stands for.
ghost use Rattle.std.specs.Prelude.{◌≡◌, ◌<◌, List, [], ℕ, Ok, Err, Some, length, MatchOption, MatchResult, IfOk, IfSome};
ghost use Rattle.props_text.specs.Pairs.{hex_digit, hex_unit, escape_of, unescaped};
ghost use Rattle.props_text.specs.Outcome.{GivesProps};
ghost use Rattle.props_text.specs.Steps.{units_behind};

use crate::PropsFault;
use crate::unit::Placed;
use std::alloc::Global;

fn hex_digit(unit: u8) -> Option<u16>
    ensures value { result ≡ hex_digit unit }
    ensures bound { IfSome result (λ d. d < 16) }
{
    match unit {
        b'0'..=b'9' => Some(u16::from(unit - 48)),
        b'A'..=b'F' => Some(u16::from(unit - 55)),
        b'a'..=b'f' => Some(u16::from(unit - 87)),
        _ => None,
    }
}

/// The unit that the four hexadecimal digits stand for with which a text begins.
fn hex_unit(text: &[Placed]) -> Option<u16>
    ensures value { result ≡ hex_unit text.now }
    ensures within { IfSome result (λ _. 3 < length text.now) }
{
    match text {
        [a, b, c, d, ..] => {
            let a = hex_digit(a.unit)?;
            let b = hex_digit(b.unit)?;
            let c = hex_digit(c.unit)?;
            let d = hex_digit(d.unit)?;
            Some(16 * (16 * (16 * a + b) + c) + d)
        }
        _ => None,
    }
}

/// What a letter behind a backslash stands for.
fn escape_of(unit: u8) -> u8
    ensures { result ≡ escape_of unit }
{
    match unit {
        b't' => 9,
        b'n' => 10,
        b'r' => 13,
        b'f' => 12,
        _ => unit,
    }
}

/// The unit that the text begins with, and the text behind it.
#[tactic(auto, unfolding(crate::specs::Pairs::unescaped))]
fn next_unit(text: &[Placed]) -> Result<Option<(u16, &[Placed])>, PropsFault>
    ensures unit { MatchResult result (λ next. MatchOption next (unescaped 0 text.now ≡ Ok [])
        (λ p. unescaped 0 text.now ≡ units_behind (Some (p.0, p.1.now))))
        (λ fault. GivesProps (λ (x : List ℕ). x) (Err fault) (unescaped 0 text.now)) }
    ensures shorter { IfOk result (λ next. IfSome next (λ p. length p.1.now < length text.now)) }
{
    match text {
        [] => Ok(None),
        [only] => {
            if only.unit == b'\\' {
                Ok(None)
            } else {
                Ok(Some((u16::from(only.unit), &text[1..])))
            }
        }
        [first, second, rest @ ..] => {
            if first.unit != b'\\' {
                Ok(Some((u16::from(first.unit), &text[1..])))
            } else if second.unit != b'u' {
                Ok(Some((u16::from(escape_of(second.unit)), rest)))
            } else {
                match hex_unit(rest) {
                    Some(unit) => Ok(Some((unit, &rest[4..]))),
                    None => Err(PropsFault::BadEscape { line: first.line }),
                }
            }
        }
    }
}

/// The units that a part of a logical line stands for.
pub fn unescaped(alloc: Global, text: &[Placed]) -> Result<Vec<u16>, PropsFault>
    ensures { GivesProps (λ v. v.items) result (unescaped 0 text.now) }
{
    let mut units = Vec::new(alloc);
    let mut rest = text;
    while let Some((unit, behind)) = next_unit(rest)? {
        units.push(unit)?;
        rest = behind;
    }
    Ok(units)
}
