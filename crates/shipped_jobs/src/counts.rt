// Counts as texts.
ghost use Rattle.std.specs.Prelude.{◌≡◌, ◌<◌, ◌-◌, ◌^◌, ℕ, IfOk, IfSome, MatchOption, decimal};
ghost use Rattle.shipped_jobs.specs.WordCount.{count_spelled};

use samza_model::{Bin, NoMemory};
use std::alloc::Global;
use std::str::from_utf8;

/// The count that the text spells in decimal without leading zeros. None where it spells none, or 2^64 - 1 or more.
pub(crate) fn count_spelled(alloc: Global, text: &[u8]) -> Result<Option<u64>, NoMemory>
    ensures value { IfOk result (λ count. count ≡ count_spelled text.now) }
    ensures below { IfOk result (λ count. IfSome count (λ n. n < 2 ^ 64 - 1)) }
{
    let Some(number) = number_in(text) else {
        return Ok(None);
    };
    let spelled = decimal_of(alloc, number)?;
    if number < u64::MAX && spelled.bytes() == text {
        Ok(Some(number))
    } else {
        Ok(None)
    }
}

/// The number, in decimal.
pub(crate) fn decimal_of(alloc: Global, number: u64) -> Result<Bin, NoMemory>
    ensures { IfOk result (λ text. text ≡ decimal number) }
{
    let text = number.to_string(alloc)?;
    Ok(Bin::from_vec(text.into_bytes()))
}

fn number_in(text: &[u8]) -> Option<u64>
    ensures { MatchOption result ((n : ℕ) → n < 2 ^ 64 → decimal n ≡ text.now → ⊥) (λ n. (m : ℕ)
        → m < 2 ^ 64 → decimal m ≡ text.now → m ≡ n) }
{
    match from_utf8(text) {
        Ok(digits) => digits.parse::<u64>().ok(),
        Err(_) => None,
    }
}
