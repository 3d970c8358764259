// The key and the value of a logical line.
ghost use Rattle.std.specs.Prelude.{◌≡◌, ◌≤◌, false, length};
ghost use Rattle.std.specs.List.{prefix_len};
ghost use Rattle.props_text.specs.Lines.{is_white};
ghost use Rattle.props_text.specs.Pairs.{is_mark, ends_key, escapes_next, key_len, skip_blank, skip_mark, pair_of};
ghost use Rattle.props_text.specs.Outcome.{GivesProps};

use crate::PropsFault;
use crate::escapes::unescaped;
use crate::lines::is_white;
use crate::unit::Placed;
use std::alloc::Global;

fn is_mark(unit: u8) -> bool
    ensures { result ≡ is_mark unit }
{
    unit == b'=' || unit == b':'
}

/// Whether a byte ends the key. `escaped` says that a backslash stands before it.
fn ends_key(escaped: bool, unit: u8) -> bool
    ensures { result ≡ ends_key escaped unit }
{
    !escaped && (is_white(unit) || is_mark(unit))
}

fn escapes_next(escaped: bool, unit: u8) -> bool
    ensures { result ≡ escapes_next escaped unit }
{
    !escaped && unit == b'\\'
}

/// How long the key is with which a logical line begins.
fn key_len(line: &[Placed]) -> usize
    ensures value { result ≡ key_len false line.now }
    ensures within { result ≤ length line.now }
{
    let mut escaped = false;
    for (i, placed) in line.iter().enumerate() {
        if ends_key(escaped, placed.unit) {
            return i;
        }
        escaped = escapes_next(escaped, placed.unit);
    }
    line.len()
}

fn blank_len(text: &[Placed]) -> usize
    ensures { result ≡ prefix_len (λ p. is_white p.unit) text.now }
{
    text.iter()
        .take_while(|placed| is_white(placed.unit))
        .count()
}

fn skip_blank(text: &[Placed]) -> &[Placed]
    ensures { result.now ≡ skip_blank text.now }
{
    let blank = blank_len(text);
    text.split_at(blank).1
}

/// A text without the `=` or `:` with which it begins.
fn skip_mark(text: &[Placed]) -> &[Placed]
    ensures { result.now ≡ skip_mark text.now }
{
    match text {
        [] => text,
        [first, rest @ ..] => { if is_mark(first.unit) { rest } else { text } }
    }
}

/// The key and the value of a logical line.
#[tactic(auto, unfolding(crate::specs::Pairs::pair_of))]
pub fn pair_of(alloc: Global, line: &[Placed]) -> Result<(Vec<u16>, Vec<u16>), PropsFault>
    ensures { GivesProps (λ p. (p.0.items, p.1.items)) result (pair_of line.now) }
{
    let len = key_len(line);
    let (key, rest) = line.split_at(len);
    let key = unescaped(alloc, key)?;
    let value = unescaped(alloc, skip_blank(skip_mark(skip_blank(rest))))?;
    Ok((key, value))
}
