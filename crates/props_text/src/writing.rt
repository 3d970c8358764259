// The written form.
ghost use Rattle.std.specs.Prelude.{◌≡◌, ◌<◌, ◌++◌, Ok, IfOk, OnOk};
ghost use Rattle.std.specs.List.{flat_map};
ghost use Rattle.std.specs.FinMap.{entries};
ghost use Rattle.props_text.specs.Written.{upper_digit, is_special, is_plain, escape_text, written_unit, written_text, written_pair, written, AreUnits};
ghost use Rattle.props_text.specs.Pairs.{props_of};

use crate::pairs::Pairs;
use samza_model::NoMemory;
use std::alloc::{AllocError, Global};

/// An upper-case hexadecimal digit.
fn upper_digit(digit: u16) -> u8
    requires { digit < 16 }
    ensures { result ≡ upper_digit digit }
{
    if digit < 10 {
        48 + digit as u8
    } else {
        55 + digit as u8
    }
}

fn is_special(unit: u16) -> bool
    ensures { result ≡ is_special unit }
{
    unit == 92 || unit == 61 || unit == 58 || unit == 35 || unit == 33
}

fn is_plain(unit: u16) -> bool
    ensures { result ≡ is_plain unit }
{
    33 <= unit && unit <= 126
}

/// Appends `\u` and the four digits of a unit.
fn put_escape(out: &mut Vec<u8>, unit: u16) -> Result<(), AllocError>
    ensures { OnOk result (out.new.items ≡ out.old.items ++ escape_text unit) }
{
    let escape = [
        b'\\',
        b'u',
        upper_digit(unit / 16 / 16 / 16),
        upper_digit(unit / 16 / 16 % 16),
        upper_digit(unit / 16 % 16),
        upper_digit(unit % 16),
    ];
    out.extend_from_slice(&escape)
}

/// Appends a unit as it is written.
#[tactic(auto, unfolding(crate::specs::Written::written_unit))]
fn put_unit(out: &mut Vec<u8>, unit: u16) -> Result<(), AllocError>
    ensures { OnOk result (out.new.items ≡ out.old.items ++ written_unit unit) }
{
    if is_special(unit) {
        out.extend_from_slice(&[b'\\', unit as u8])
    } else if is_plain(unit) {
        out.extend_from_slice(&[unit as u8])
    } else {
        put_escape(out, unit)
    }
}

/// Appends a key or a value as it is written.
fn put_text(out: &mut Vec<u8>, units: &[u16]) -> Result<(), AllocError>
    ensures units { OnOk result (AreUnits units.now) }
    ensures written { OnOk result (out.new.items ≡ out.old.items ++ written_text units.now) }
{
    for unit in units {
        put_unit(out, *unit)?;
    }
    Ok(())
}

/// Appends a pair as it is written.
fn put_pair(out: &mut Vec<u8>, key: &[u16], value: &[u16]) -> Result<(), AllocError>
    ensures written { OnOk result (out.new.items ≡ out.old.items
        ++ written_pair (key.now, value.now)) }
    ensures units { OnOk result (AreUnits key.now × AreUnits value.now) }
{
    put_text(out, key)?;
    out.push(b'=')?;
    put_text(out, value)?;
    out.push(b'\n')?;
    Ok(())
}

/// A key or a value as it is written.
pub fn write_text(alloc: Global, units: &[u16]) -> Result<Vec<u8>, NoMemory>
    ensures { IfOk result (λ text. text.items ≡ written_text units.now) }
{
    let mut out = Vec::new(alloc);
    put_text(&mut out, units)?;
    Ok(out)
}

/// The one written form of a map of pairs: the pairs in order of their keys' units, each as key, `=`, value, LF. Read
/// again, it gives the same map.
pub fn write(alloc: Global, pairs: &Pairs) -> Result<Vec<u8>, NoMemory>
    ensures written { IfOk result (λ text. text.items ≡ written pairs.now) }
    ensures comes_back { IfOk result (λ text. props_of text.items ≡ Ok pairs.now) }
{
    let mut out = Vec::new(alloc);
    for place in 0..pairs.len() {
        match pairs.nth(place) {
            Some((key, value)) => put_pair(&mut out, key, value)?,
            None => unreachable!(),
        }
    }
    Ok(out)
}
