// What the value of a key says, by its kind.
ghost use Rattle.std.specs.Prelude.{◌≡◌, ◌==◌, ◌≤◌, ◌^◌, Option, option_copied, length, not};
ghost use Rattle.std.specs.List.{list_all, after_last, suffix_len};
ghost use Rattle.samza_model.specs.Names.{is_between};
ghost use Rattle.config_values.specs.Values.{same, bounded, within, cut, size, raised, priority, interval, millis, lower, is_true, flag, own_flag, default_spelled, start, class_of, class, is_plain, is_job_name, any_text, some_text};

use crate::faults::What;
use crate::numbers::number_of;
use crate::shipped::Shipped;
use samza_model::OffsetDefault;

/// Whether a text in units is this one.
pub fn is_same(text: &[u16], bytes: &[u8]) -> bool
    ensures { result ≡ same text.now bytes.now }
{
    if text.len() != bytes.len() {
        return false;
    }
    for i in 0..text.len() {
        if text[i] != u16::from(bytes[i]) {
            return false;
        }
    }
    true
}

fn within(low: u32, high: u32, number: Option<u64>) -> Result<u32, What>
    requires { low ≤ high }
    ensures { result ≡ within low high number }
{
    match number {
        None => Err(What::OutOfRange),
        Some(number) => {
            if u64::from(low) <= number && number <= u64::from(high) {
                Ok(number as u32)
            } else {
                Err(What::OutOfRange)
            }
        }
    }
}

/// A number from low to high.
#[tactic(auto, unfolding(crate::specs::Values::bounded))]
pub fn bounded(text: Option<&[u16]>, default: u32, low: u32, high: u32) -> Result<u32, What>
    requires { low ≤ high }
    ensures { result ≡ bounded default low high (option_copied text.entry) }
{
    match text {
        None => Ok(default),
        Some(text) => match number_of(text) {
            Ok(number) => within(low, high, number),
            Err(what) => Err(what),
        },
    }
}

fn cut(most: u32, number: Option<u64>) -> Result<u32, What>
    ensures { result ≡ cut most number }
{
    match number {
        None => Err(What::OutOfRange),
        Some(number) => Ok((number.min(u64::from(most)) as u32).max(1)),
    }
}

/// A number that isn't below 0, where 0 counts as 1, and one above `most` as `most`.
#[tactic(auto, unfolding(crate::specs::Values::size))]
pub fn size(text: Option<&[u16]>, default: u32, most: u32) -> Result<u32, What>
    ensures { result ≡ size default most (option_copied text.entry) }
{
    match text {
        None => Ok(default),
        Some(text) => match number_of(text) {
            Ok(number) => cut(most, number),
            Err(what) => Err(what),
        },
    }
}

fn raised(most: u32, number: Option<u64>) -> Result<u32, What>
    ensures { result ≡ raised most number }
{
    let number = number.unwrap_or(0);
    if number <= u64::from(most) {
        Ok(number as u32)
    } else {
        Err(What::OutOfRange)
    }
}

/// A number of at most `most`, where one below 0 counts as 0.
#[tactic(auto, unfolding(crate::specs::Values::priority))]
pub fn priority(text: Option<&[u16]>, most: u32) -> Result<u32, What>
    ensures { result ≡ priority most (option_copied text.entry) }
{
    match text {
        None => Ok(0),
        Some(text) => match number_of(text) {
            Ok(number) => raised(most, number),
            Err(what) => Err(what),
        },
    }
}

fn interval(number: Option<u64>) -> Option<u64>
    ensures { result ≡ interval number }
{
    match number {
        None => None,
        Some(number) => { if number == 0 { None } else { Some(number) } }
    }
}

/// Milliseconds, where 0 and a number below 0 are no interval.
#[tactic(auto, unfolding(crate::specs::Values::millis))]
pub fn millis(text: Option<&[u16]>, default: Option<u64>) -> Result<Option<u64>, What>
    ensures { result ≡ millis default (option_copied text.entry) }
{
    match text {
        None => Ok(default),
        Some(text) => match number_of(text) {
            Ok(number) => Ok(interval(number)),
            Err(what) => Err(what),
        },
    }
}

fn lower(unit: u16) -> u16
    ensures { result ≡ lower unit }
{
    if 65 <= unit && unit <= 90 {
        unit + 32
    } else {
        unit
    }
}

/// Whether a text is `true` in any letter case.
fn is_true(text: &[u16]) -> bool
    ensures { result ≡ is_true text.now }
{
    match text {
        [t, r, u, e] => {
            lower(*t) == 116 && lower(*r) == 114 && lower(*u) == 117 && lower(*e) == 101
        }
        _ => false,
    }
}

/// A flag: whether the value is `true` in any letter case. A key that isn't there says no.
pub fn flag(text: Option<&[u16]>) -> Result<bool, What>
    ensures { result ≡ flag (option_copied text.entry) }
{
    match text {
        None => Ok(false),
        Some(text) => Ok(is_true(text)),
    }
}

/// A flag, or none where the key isn't there.
pub fn own_flag(text: Option<&[u16]>) -> Result<Option<bool>, What>
    ensures { result ≡ own_flag (option_copied text.entry) }
{
    match text {
        None => Ok(None),
        Some(text) => Ok(Some(is_true(text))),
    }
}

fn default_spelled(text: &[u16]) -> Result<Option<OffsetDefault>, What>
    ensures { result ≡ default_spelled text.now }
{
    if is_same(text, b"oldest") {
        Ok(Some(OffsetDefault::Oldest))
    } else if is_same(text, b"upcoming") {
        Ok(Some(OffsetDefault::Upcoming))
    } else {
        Err(What::Unknown)
    }
}

/// Where an input begins, or none where the key isn't there.
#[tactic(auto, unfolding(crate::specs::Values::start))]
pub fn start(text: Option<&[u16]>) -> Result<Option<OffsetDefault>, What>
    ensures { result ≡ start (option_copied text.entry) }
{
    match text {
        None => Ok(None),
        Some(text) => default_spelled(text),
    }
}

fn units_behind_last_dot(text: &[u16]) -> usize
    ensures { result ≡ suffix_len (λ c. not (c == 46)) text.now }
{
    text.iter().rev().take_while(|unit| **unit != 46).count()
}

fn behind_last_dot(text: &[u16]) -> &[u16]
    ensures { result.now ≡ after_last (λ c. c == 46) text.now }
{
    let behind = units_behind_last_dot(text);
    text.split_at(text.len() - behind).1
}

fn class_of(name: &[u16]) -> Result<Shipped, What>
    ensures { result ≡ class_of name.now }
{
    if is_same(name, b"WordCount") {
        Ok(Shipped::WordCount)
    } else if is_same(name, b"Dedupe") {
        Ok(Shipped::Dedupe)
    } else if is_same(name, b"SessionCount") {
        Ok(Shipped::SessionCount)
    } else if is_same(name, b"TableJoin") {
        Ok(Shipped::TableJoin)
    } else {
        Err(What::Unknown)
    }
}

/// The shipped job that is named behind the last dot.
#[tactic(auto, unfolding(crate::specs::Values::class))]
pub fn class(text: Option<&[u16]>) -> Result<Shipped, What>
    ensures { result ≡ class (option_copied text.entry) }
{
    match text {
        None => Err(What::Missing),
        Some(text) => class_of(behind_last_dot(text)),
    }
}

fn is_plain(unit: u16) -> bool
    ensures { result ≡ is_plain unit }
{
    33 <= unit && unit <= 126
}

fn has_only_plain(text: &[u16]) -> bool
    ensures { result ≡ list_all is_plain text.now }
{
    text.iter().all(|unit| is_plain(*unit))
}

/// Whether a job may have this name.
pub(crate) fn is_job_name(text: &[u16]) -> bool
    ensures { result ≡ is_job_name text.now }
{
    text.len() <= 255 && has_only_plain(text)
}

/// Any text, also none.
pub fn any_text(_text: Option<&[u16]>) -> Result<(), What>
    ensures { result ≡ any_text (option_copied _text.entry) }
{
    Ok(())
}

/// A text that is there and isn't empty.
pub fn some_text(text: Option<&[u16]>) -> Result<(), What>
    ensures { result ≡ some_text (option_copied text.entry) }
{
    match text {
        None => Err(What::Missing),
        Some([]) => Err(What::Missing),
        Some(_) => Ok(()),
    }
}
