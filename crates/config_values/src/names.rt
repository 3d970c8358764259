// Whether names in units are spelled as they must be, and names as bytes.
ghost use Rattle.std.specs.Prelude.{◌≡◌, ◌==◌, ◌||◌, ◌≤◌, length, drop, true, IfOk, Option, option_copied};
ghost use Rattle.std.specs.List.{list_all, position_or_len};
ghost use Rattle.samza_model.specs.Names.{is_between, is_name_byte, is_system, is_stream, is_topic};
ghost use Rattle.config_values.specs.Spelling.{is_ascii};
ghost use Rattle.config_values.specs.Values.{job_name};

use crate::faults::What;
use crate::values::{is_job_name, is_same};
use samza_model::{Bin, NoMemory};
use std::alloc::Global;

fn is_within(low: usize, high: usize, number: usize) -> bool
    ensures { result ≡ is_between low high number }
{
    low <= number && number <= high
}

fn is_unit_within(low: u16, high: u16, unit: u16) -> bool
    ensures { result ≡ is_between low high unit }
{
    low <= unit && unit <= high
}

/// A letter, a digit, `_` or `-`.
fn is_name_unit(unit: u16) -> bool
    ensures { result ≡ is_name_byte unit }
{
    is_unit_within(65, 90, unit)
        || is_unit_within(97, 122, unit)
        || is_unit_within(48, 57, unit)
        || unit == 95
        || unit == 45
}

fn are_name_units(name: &[u16]) -> bool
    ensures { result ≡ list_all is_name_byte name.now }
{
    name.iter().all(|unit| is_name_unit(*unit))
}

fn are_name_units_or_dots(name: &[u16]) -> bool
    ensures { result ≡ list_all (λ c. is_name_byte c || c == 46) name.now }
{
    name.iter().all(|unit| is_name_unit(*unit) || *unit == 46)
}

/// Whether a system or a store may have this name. Such a name is in ASCII.
pub fn is_system_name(name: &[u16]) -> bool
    ensures spelled { result ≡ is_system name.now }
    ensures ascii { result ≡ true → list_all is_ascii name.now ≡ true }
{
    is_within(1, 64, name.len()) && are_name_units(name)
}

/// Whether a stream may have this name.
fn is_stream_name(name: &[u16]) -> bool
    ensures { result ≡ is_stream name.now }
{
    is_within(1, 180, name.len())
        && are_name_units_or_dots(name)
        && !is_same(name, b".")
        && !is_same(name, b"..")
}

/// Where a unit first stands, or the text's length.
pub(crate) fn place_of(wanted: u16, text: &[u16]) -> usize
    ensures at { result ≡ position_or_len (λ c. c == wanted) text.now }
    ensures bound { result ≤ length text.now }
{
    text.iter().take_while(|unit| **unit != wanted).count()
}

fn is_stream_behind_dot(rest: &[u16]) -> bool
    ensures { result ≡ is_stream (drop 1 rest.now) }
{
    match rest {
        [] => false,
        [_, stream @ ..] => is_stream_name(stream),
    }
}

/// Whether the name is a system's and a stream's, with a dot between them.
pub(crate) fn is_topic_name(name: &[u16]) -> bool
    ensures { result ≡ is_topic name.now }
{
    let (system, rest) = name.split_at(place_of(46, name));
    is_system_name(system) && is_stream_behind_dot(rest)
}

/// A text in ASCII as bytes.
pub fn bytes_of(alloc: Global, text: &[u16]) -> Result<Bin, NoMemory>
    requires { list_all is_ascii text.now ≡ true }
    ensures { IfOk result (λ bytes. bytes ≡ text.now) }
{
    let mut bytes = Vec::new(alloc);
    for unit in text {
        bytes.push(*unit as u8)?;
    }
    Ok(Bin::from_vec(bytes))
}

/// The name of a job, which is `job` where no key says so.
#[tactic(auto, unfolding(crate::specs::Values::job_name))]
pub fn job_name(alloc: Global, text: Option<&[u16]>) -> Result<Result<Bin, What>, NoMemory>
    ensures { IfOk result (λ read. read ≡ job_name (option_copied text.entry)) }
{
    match text {
        None => Ok(Ok(Bin::of(alloc, b"job")?)),
        Some(text) => {
            if is_job_name(text) {
                Ok(Ok(bytes_of(alloc, text)?))
            } else {
                Ok(Err(What::BadName))
            }
        }
    }
}
