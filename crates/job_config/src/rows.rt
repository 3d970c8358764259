// One row of the table: a key is asked for, and its value read.
ghost use Rattle.std.specs.Prelude.{◌≤◌};
ghost use Rattle.job_config.specs.Keys.{text_of};
ghost use Rattle.config_values.specs.Values.{bounded, millis, flag, class, job_name};
ghost use Rattle.config_values.specs.Lists.{inputs, outputs, one_of};
ghost use Rattle.job_config.specs.Asking.{row_of, row};
ghost use Rattle.job_config.specs.Parts.{GivesRow};

use crate::keys::{Asked, Key, Setting};
use config_values::shipped::Shipped;
use config_values::{What, lists, names, values};
use props_text::Pairs;
use samza_model::{Bin, Items, NoMemory};
use std::alloc::{AllocError, AllocFailed, Global};

/// Why a row has no value.
#[derive(Drop)]
pub enum RowFault {
    Bad { key: Key, what: What },
    NoMemory,
}

impl From<NoMemory> for RowFault {
    ghost use Rattle.std.specs.Prelude.{◌≡◌};
    ghost use Rattle.job_config.specs.declared.rows.RowFault.TheVariants.{NoMemory as NoRoom};

    ghost from_gives = { λ _ e. e ≡ NoRoom };

    fn from(_: NoMemory) -> Self {
        RowFault::NoMemory
    }
}

impl From<AllocError> for RowFault {
    ghost use Rattle.std.specs.Prelude.{◌≡◌};
    ghost use Rattle.job_config.specs.declared.rows.RowFault.TheVariants.{NoMemory as NoRoom};

    ghost from_gives = { λ _ e. e ≡ NoRoom };

    fn from(_: AllocError) -> Self {
        RowFault::NoMemory
    }
}

impl<T: Drop> From<AllocFailed<T>> for RowFault {
    ghost use Rattle.std.specs.Prelude.{◌≡◌};
    ghost use Rattle.job_config.specs.declared.rows.RowFault.TheVariants.{NoMemory as NoRoom};

    ghost from_gives = { λ _ e. e ≡ NoRoom };

    fn from(_: AllocFailed<T>) -> Self {
        RowFault::NoMemory
    }
}

/// The value of a key as it was read: the key is asked for now, or named by the fault.
pub(crate) fn answer<T: Drop>(
    asked: &mut Asked,
    key: Key,
    read: Result<T, What>,
) -> Result<T, RowFault>
    ensures { GivesRow asked.new.items result (row_of key read asked.old.items) }
{
    match read {
        Ok(value) => {
            asked.push(key)?;
            Ok(value)
        }
        Err(what) => Err(RowFault::Bad { key, what }),
    }
}

/// A number from low to high.
#[tactic(auto, unfolding(crate::specs::Asking::row))]
pub(crate) fn number(
    alloc: Global,
    pairs: &Pairs,
    asked: &mut Asked,
    setting: Setting,
    default: u32,
    low: u32,
    high: u32,
) -> Result<u32, RowFault>
    requires { low ≤ high }
    ensures { GivesRow asked.new.items result
        (row pairs.now (text_of setting) (bounded default low high) asked.old.items) }
{
    let key = Key::of(alloc, setting)?;
    let read = values::bounded(key.value_in(pairs), default, low, high);
    answer(asked, key, read)
}

/// An interval in milliseconds.
#[tactic(auto, unfolding(crate::specs::Asking::row))]
pub(crate) fn millis(
    alloc: Global,
    pairs: &Pairs,
    asked: &mut Asked,
    setting: Setting,
    default: Option<u64>,
) -> Result<Option<u64>, RowFault>
    ensures { GivesRow asked.new.items result (row pairs.now (text_of setting) (millis default)
        asked.old.items) }
{
    let key = Key::of(alloc, setting)?;
    let read = values::millis(key.value_in(pairs), default);
    answer(asked, key, read)
}

#[tactic(auto, unfolding(crate::specs::Asking::row))]
pub(crate) fn flag(
    alloc: Global,
    pairs: &Pairs,
    asked: &mut Asked,
    setting: Setting,
) -> Result<bool, RowFault>
    ensures { GivesRow asked.new.items result (row pairs.now (text_of setting) flag asked.old.items) }
{
    let key = Key::of(alloc, setting)?;
    let read = values::flag(key.value_in(pairs));
    answer(asked, key, read)
}

/// The shipped job that is to run.
#[tactic(auto, unfolding(crate::specs::Asking::row))]
pub(crate) fn class(
    alloc: Global,
    pairs: &Pairs,
    asked: &mut Asked,
    setting: Setting,
) -> Result<Shipped, RowFault>
    ensures { GivesRow asked.new.items result (row pairs.now (text_of setting) class asked.old.items) }
{
    let key = Key::of(alloc, setting)?;
    let read = values::class(key.value_in(pairs));
    answer(asked, key, read)
}

/// The job's name.
#[tactic(auto, unfolding(crate::specs::Asking::row))]
pub(crate) fn job_name(
    alloc: Global,
    pairs: &Pairs,
    asked: &mut Asked,
    setting: Setting,
) -> Result<Bin, RowFault>
    ensures { GivesRow asked.new.items result
        (row pairs.now (text_of setting) job_name asked.old.items) }
{
    let key = Key::of(alloc, setting)?;
    let read = names::job_name(alloc, key.value_in(pairs))?;
    answer(asked, key, read)
}

/// The names of the inputs.
#[tactic(auto, unfolding(crate::specs::Asking::row))]
pub(crate) fn inputs(
    alloc: Global,
    pairs: &Pairs,
    asked: &mut Asked,
    setting: Setting,
    most: usize,
) -> Result<Items<Bin>, RowFault>
    ensures { GivesRow asked.new.items result
        (row pairs.now (text_of setting) (inputs most) asked.old.items) }
{
    let key = Key::of(alloc, setting)?;
    let read = lists::inputs(alloc, key.value_in(pairs), most)?;
    answer(asked, key, read)
}

/// The outputs.
#[tactic(auto, unfolding(crate::specs::Asking::row))]
pub(crate) fn outputs(
    alloc: Global,
    pairs: &Pairs,
    asked: &mut Asked,
    setting: Setting,
    most: usize,
) -> Result<Items<Bin>, RowFault>
    ensures { GivesRow asked.new.items result
        (row pairs.now (text_of setting) (outputs most) asked.old.items) }
{
    let key = Key::of(alloc, setting)?;
    let read = lists::outputs(alloc, key.value_in(pairs), most)?;
    answer(asked, key, read)
}

/// One of these names.
#[tactic(auto, unfolding(crate::specs::Asking::row))]
pub(crate) fn one_of(
    alloc: Global,
    pairs: &Pairs,
    asked: &mut Asked,
    setting: Setting,
    names: &[Bin],
) -> Result<Bin, RowFault>
    ensures { GivesRow asked.new.items result (row pairs.now (text_of setting) (one_of names.now)
        asked.old.items) }
{
    let key = Key::of(alloc, setting)?;
    let read = lists::one_of(alloc, key.value_in(pairs), names)?;
    answer(asked, key, read)
}
