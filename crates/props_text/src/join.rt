// Natural lines joined to logical lines.
ghost use Rattle.std.specs.Prelude.{◌≡◌, ℕ, ◌+◌, ◌==◌, ◌∷◌, ◌++◌, List, Some, None, IfOk, option_map, cond};
ghost use Rattle.std.specs.List.{suffix_len};
ghost use Rattle.props_text.specs.Lines.{skip_white};
ghost use Rattle.props_text.specs.Logical.{goes_on, is_passed_over, logical_lines, placed, so_far, without_last};
ghost use Rattle.props_text.specs.Steps.{lines_behind};

use crate::lines::skip_white;
use crate::unit::Placed;
use std::alloc::{AllocError, Global};

/// What a natural line makes of the logical line before it.
#[derive(Drop)]
pub enum Joined {
    /// A blank line, or a comment.
    PassedOver,
    /// The logical line goes on.
    GoesOn(Vec<Placed>),
    /// The logical line is whole.
    Whole(Vec<Placed>),
}

fn is_passed_over(line: &[u8]) -> bool
    ensures { result ≡ is_passed_over line.now }
{
    match line {
        [] => true,
        [first, ..] => *first == b'#' || *first == b'!',
    }
}

fn backslashes_at_end(line: &[u8]) -> usize
    ensures { result ≡ suffix_len (λ c. c == 92) line.now }
{
    line.iter().rev().take_while(|unit| **unit == b'\\').count()
}

/// Whether a line ends in an odd number of backslashes.
fn goes_on(line: &[u8]) -> bool
    ensures { result ≡ goes_on line.now }
{
    backslashes_at_end(line) % 2 == 1
}

/// A line without its last byte, where it has one.
fn without_last(line: &[u8]) -> &[u8]
    ensures { result.now ≡ without_last line.now }
{
    match line {
        [] => line,
        [front @ .., _] => front,
    }
}

/// Appends the bytes of a natural line, each with its number.
fn push_placed(mut begun: Vec<Placed>, number: u64, line: &[u8]) -> Result<Vec<Placed>, AllocError>
    ensures { IfOk result (λ units. units.items ≡ begun.items ++ placed number line.now) }
{
    for unit in line {
        begun.push(Placed {
            unit: *unit,
            line: number,
        })?;
    }
    Ok(begun)
}

/// Adds a natural line that isn't passed over to what goes on before it.
fn add(begun: Vec<Placed>, number: u64, line: &[u8]) -> Result<Joined, AllocError>
    ensures { IfOk result (λ joined. (ls : List (List ℕ))
        → lines_behind joined (number + 1) ls ≡ cond (goes_on line.now)
        (logical_lines
        (Some (begun.items ++ placed number (without_last (skip_white line.now)))) (number + 1)
        ls) ((begun.items ++ placed number (skip_white line.now)) ∷ logical_lines None
        (number + 1) ls)) }
{
    let visible = skip_white(line);
    if goes_on(line) {
        let units = push_placed(begun, number, without_last(visible))?;
        Ok(Joined::GoesOn(units))
    } else {
        let units = push_placed(begun, number, visible)?;
        Ok(Joined::Whole(units))
    }
}

/// Joins a natural line to the logical line that goes on before it, where one does.
#[tactic(auto, unfolding(crate::specs::Logical::logical_lines))]
pub fn join(
    alloc: Global,
    begun: Option<Vec<Placed>>,
    number: u64,
    line: &[u8],
) -> Result<Joined, AllocError>
    ensures { IfOk result (λ joined. (ls : List (List ℕ))
        → lines_behind joined (number + 1) ls ≡ logical_lines (option_map (λ us. us.items) begun)
        number (line.now ∷ ls)) }
{
    match begun {
        None => {
            if is_passed_over(skip_white(line)) {
                Ok(Joined::PassedOver)
            } else {
                add(Vec::new(alloc), number, line)
            }
        }
        Some(begun) => add(begun, number, line),
    }
}
