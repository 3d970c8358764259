// A configuration from its pairs.
ghost use Rattle.std.specs.Prelude.{◌≡◌, ◌++◌, Ok, IfOk, IfErr, OnOk};
ghost use Rattle.std.specs.List.{list_any};
ghost use Rattle.config_values.specs.Values.{same};
ghost use Rattle.job_config.specs.Table.{unread, config_of};
ghost use Rattle.job_config.specs.Bounds.{IsBounded};
ghost use Rattle.job_config.specs.Parts.{if_unread, IsWritten};
ghost use Rattle.job_config.specs.Outcome.{IsFault};

use crate::config::JobConfig;
use crate::faults::ConfigFault;
use crate::keys::Key;
use crate::rows::RowFault;
use crate::table::table;
use props_text::{Pairs, write_text};
use samza_model::{Bin, Items, NoMemory};
use std::alloc::Global;

/// Whether a key was asked for.
fn is_asked(asked: &[Key], key: &[u16]) -> bool
    ensures { result ≡ list_any (same key.now) asked.now }
{
    asked.iter().any(|one| key == one.units())
}

/// Appends a key as it is written, where nobody asked for it.
fn push_unread(
    unread: &mut Vec<Bin>,
    alloc: Global,
    asked: &[Key],
    key: &[u16],
) -> Result<(), NoMemory>
    ensures { OnOk result (unread.new.items ≡ unread.old.items ++ if_unread asked.now key.now) }
{
    if !is_asked(asked, key) {
        unread.push(Bin::from_vec(write_text(alloc, key)?))?;
    }
    Ok(())
}

/// The keys that nobody asked for, in order of their units, each as it is written.
fn unread(alloc: Global, pairs: &Pairs, asked: &[Key]) -> Result<Items<Bin>, NoMemory>
    ensures { IfOk result (λ keys. keys ≡ unread pairs.now asked.now) }
{
    let mut keys = Vec::new(alloc);
    for place in 0..pairs.len() {
        match pairs.nth(place) {
            Some((key, _)) => push_unread(&mut keys, alloc, asked, key)?,
            None => unreachable!(),
        }
    }
    Ok(Items::from_vec(keys))
}

/// The fault of a row, with its key as it is written.
fn written(alloc: Global, fault: RowFault) -> ConfigFault
    ensures { IsWritten fault result }
{
    match fault {
        RowFault::NoMemory => ConfigFault::NoMemory,
        RowFault::Bad { key, what } => match write_text(alloc, key.units()) {
            Ok(text) => ConfigFault::Bad {
                key: Bin::from_vec(text),
                what,
            },
            Err(NoMemory) => ConfigFault::NoMemory,
        },
    }
}

impl JobConfig {
    /// The configuration that these pairs say. `Bad` comes exactly where a key of the table is bad, with the first one in
    /// the table's order.
    #[tactic(auto, unfolding(crate::specs::Table::config_of))]
    pub fn from_pairs(alloc: Global, pairs: &Pairs) -> Result<JobConfig, ConfigFault>
        ensures config { IfOk result (λ config. config_of pairs.now ≡ Ok config) }
        ensures bounded { IfOk result IsBounded }
        ensures refused { IfErr result (λ fault. IsFault fault (config_of pairs.now)) }
    {
        let mut asked = Vec::new(alloc);
        match table(alloc, pairs, &mut asked) {
            Ok(mut config) => {
                config.unread = unread(alloc, pairs, asked.as_slice())?;
                Ok(config)
            }
            Err(fault) => Err(written(alloc, fault)),
        }
    }
}
