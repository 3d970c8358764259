// The stores of a configuration, and the rows of their keys.
ghost use Rattle.std.specs.Prelude.{◌≡◌, ◌++◌, map, option_copied, IfOk, MatchOption, codes};
ghost use Rattle.std.specs.BTreeSet.{keys};
ghost use Rattle.samza_model.specs.Names.{is_system};
ghost use Rattle.job_config.specs.Stores.{behind, before, named_in, store_of, store_names, counted_stores, new_store, store_row, store_rows};
ghost use Rattle.job_config.specs.Asking.{each};
ghost use Rattle.job_config.specs.Parts.{GivesRow, Answers, PutsStore};

use crate::keys::{Asked, Key, Setting, StoreSetting};
use crate::rows::{RowFault, answer};
use config_values::What;
use config_values::lists::listed;
use config_values::names::{bytes_of, is_system_name};
use config_values::values::{any_text, is_same, size, some_text};
use props_text::Pairs;
use samza_model::{Bin, Items, NoMemory, StoreSetup};
use std::alloc::Global;
use std::collections::BTreeSet;

/// What stands behind this front of a text.
fn behind<'a>(front: &[u8], text: &'a [u16]) -> Option<&'a [u16]>
    ensures { option_copied result ≡ behind front.now text.now }
{
    if front.len() <= text.len() && is_same(&text[..front.len()], front) {
        Some(&text[front.len()..])
    } else {
        None
    }
}

/// What stands before this back of a text.
fn before<'a>(back: &[u8], text: &'a [u16]) -> Option<&'a [u16]>
    ensures { option_copied result ≡ before back.now text.now }
{
    if back.len() <= text.len() && is_same(&text[text.len() - back.len()..], back) {
        Some(&text[..text.len() - back.len()])
    } else {
        None
    }
}

fn named_in(rest: &[u16]) -> Option<&[u16]>
    ensures { option_copied result ≡ named_in rest.now }
{
    match before(b".factory", rest) {
        Some(name) => Some(name),
        None => before(b".changelog", rest),
    }
}

/// `<n>` of `stores.<n>.factory` and of `stores.<n>.changelog`, whatever it is.
#[tactic(auto, unfolding(crate::specs::Stores::store_of))]
fn store_of(key: &[u16]) -> Option<&[u16]>
    ensures { option_copied result ≡ store_of key.now }
{
    match behind(b"stores.", key) {
        None => None,
        Some(rest) => named_in(rest),
    }
}

/// Puts the store of a key, where it has one, among the names.
fn put_store(names: &mut BTreeSet<Bin>, alloc: Global, key: &[u16]) -> Result<(), RowFault>
    ensures { PutsStore key.now (keys names.old) (keys names.new) result }
{
    match store_of(key) {
        None => Ok(()),
        Some(name) => {
            if is_system_name(name) {
                names.insert(bytes_of(alloc, name)?)?;
                Ok(())
            } else {
                Err(RowFault::Bad {
                    key: Key::copied(alloc, key)?,
                    what: What::BadName,
                })
            }
        }
    }
}

/// The names of the stores, in order.
fn store_names(alloc: Global, pairs: &Pairs) -> Result<Items<Bin>, RowFault>
    ensures { Answers result (store_names pairs.now) }
{
    let mut names = BTreeSet::new(alloc);
    for place in 0..pairs.len() {
        match pairs.nth(place) {
            Some((key, _)) => match put_store(&mut names, alloc, key) {
                Ok(()) => {}
                Err(fault) => return Err(fault),
            },
            None => unreachable!(),
        }
    }
    Ok(Items::from_vec(listed(alloc, names)?))
}

/// One store or more, since every shipped job needs one, and at most 8.
#[tactic(auto, unfolding(crate::specs::Stores::counted_stores))]
fn counted_stores(alloc: Global, stores: Items<StoreSetup>) -> Result<Items<StoreSetup>, RowFault>
    ensures { Answers result (counted_stores stores) }
{
    let count = stores.as_slice().len();
    if count == 0 {
        Err(RowFault::Bad {
            key: Key::of(alloc, Setting::Stores)?,
            what: What::Missing,
        })
    } else if count <= 8 {
        Ok(stores)
    } else {
        Err(RowFault::Bad {
            key: Key::of(alloc, Setting::Stores)?,
            what: What::OutOfRange,
        })
    }
}

/// The stores of these names, as they are where their keys say nothing of sizes.
fn new_stores(alloc: Global, names: Items<Bin>) -> Result<Items<StoreSetup>, NoMemory>
    ensures { IfOk result (λ stores. stores ≡ map new_store names) }
{
    let mut stores = Vec::new(alloc);
    for name in names.into_vec() {
        stores.push(StoreSetup {
            name,
            cache: 1000,
            batch: 500,
        })?;
    }
    Ok(Items::from_vec(stores))
}

/// A row of a store: the store with what its key says.
#[tactic(auto, unfolding(crate::specs::Stores::store_row, crate::specs::Asking::row))]
fn store_row(
    alloc: Global,
    pairs: &Pairs,
    asked: &mut Asked,
    setting: StoreSetting,
    store: StoreSetup,
) -> Result<StoreSetup, RowFault>
    ensures { GivesRow asked.new.items result (store_row pairs.now setting store asked.old.items) }
{
    let key = Key::of_store(alloc, setting, store.name.bytes())?;
    let text = key.value_in(pairs);
    match setting {
        StoreSetting::Factory => {
            answer(asked, key, any_text(text))?;
            Ok(store)
        }
        StoreSetting::Changelog => {
            answer(asked, key, some_text(text))?;
            Ok(store)
        }
        StoreSetting::CacheSize => {
            let cache = answer(asked, key, size(text, store.cache, 1_000_000))?;
            Ok(StoreSetup { cache, ..store })
        }
        StoreSetting::BatchSize => {
            let batch = answer(asked, key, size(text, store.batch, 4_096))?;
            Ok(StoreSetup { batch, ..store })
        }
    }
}

/// A row of each store.
fn store_row_of_each(
    alloc: Global,
    pairs: &Pairs,
    asked: &mut Asked,
    setting: StoreSetting,
    stores: Items<StoreSetup>,
) -> Result<Items<StoreSetup>, RowFault>
    ensures { GivesRow asked.new.items result
        (each stores (store_row pairs.now setting) asked.old.items) }
{
    let mut made = Vec::new(alloc);
    for store in stores.into_vec() {
        match store_row(alloc, pairs, asked, setting, store) {
            Ok(store) => made.push(store)?,
            Err(fault) => return Err(fault),
        }
    }
    Ok(Items::from_vec(made))
}

/// The stores: the rows of their keys, each over all stores in order of name.
#[tactic(auto, unfolding(crate::specs::Stores::store_rows))]
pub(crate) fn store_rows(
    alloc: Global,
    pairs: &Pairs,
    asked: &mut Asked,
) -> Result<Items<StoreSetup>, RowFault>
    ensures { GivesRow asked.new.items result (store_rows pairs.now asked.old.items) }
{
    let names = store_names(alloc, pairs)?;
    let stores = new_stores(alloc, names)?;
    let stores = store_row_of_each(alloc, pairs, asked, StoreSetting::Factory, stores)?;
    let stores = store_row_of_each(alloc, pairs, asked, StoreSetting::Changelog, stores)?;
    let stores = counted_stores(alloc, stores)?;
    let stores = store_row_of_each(alloc, pairs, asked, StoreSetting::CacheSize, stores)?;
    store_row_of_each(alloc, pairs, asked, StoreSetting::BatchSize, stores)
}
