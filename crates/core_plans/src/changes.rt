// The frames of what the stores changed.
ghost use Rattle.std.specs.Prelude.{◌≡◌, ◌<◌, ◌≤◌, ◌^◌, length, IfOk};
ghost use Rattle.std.specs.List.{AllByRecursion};
ghost use Rattle.core_plans.specs.Plans.{PlansStore, PlansStores};

use kv_store::TrackedTable;
use log_frame::{Frame, frames_of};
use samza_model::{Items, NoMemory, Plain, Setup, StoreMark, StoreSetup, put};
use std::alloc::Global;

/// The frames of a store's changes, and what the next checkpoint says of the store.
fn plan_store(
    alloc: Global,
    setup: &StoreSetup,
    store: &TrackedTable,
    len: u64,
) -> Result<(Items<Frame>, StoreMark), NoMemory>
    requires some { 1 ≤ setup.now.batch }
    requires few { setup.now.batch ≤ 4096 }
    requires len { len < 2 ^ 63 }
    ensures plans { IfOk result (λ r. PlansStore setup.now.batch store.now len r.0 r.1.count) }
    ensures name { IfOk result (λ r. r.1.name ≡ setup.now.name) }
{
    let records = store.unlogged(alloc)?;
    let frames = frames_of(alloc, records.as_slice(), setup.batch)?;
    let count = len + records.len() as u64;
    let name = setup.name.copy(alloc)?;
    Ok((Items::from_vec(frames), StoreMark { name, count }))
}

/// The frames of each store's changes, and what the next checkpoint says of each.
pub(crate) fn plan_stores(
    alloc: Global,
    setup: &Setup,
    stores: &[TrackedTable],
    lens: &[u64],
) -> Result<(Vec<Items<Frame>>, Vec<StoreMark>), NoMemory>
    requires as_many { length stores.now ≡ length setup.now.stores }
    requires lens { length lens.now ≡ length setup.now.stores }
    requires below { AllByRecursion (λ n. n < 2 ^ 63) lens.now }
    requires batches { AllByRecursion (λ t. (1 ≤ t.batch) × (t.batch ≤ 4096)) setup.now.stores }
    ensures { IfOk result (λ r. PlansStores setup.now lens.now stores.now r.0.items r.1.items) }
{
    let mut frames = Vec::new(alloc);
    let mut marks = Vec::new(alloc);
    for i in 0..stores.len() {
        let setup = &setup.stores.as_slice()[i];
        let (more, mark) = plan_store(alloc, setup, &stores[i], lens[i])?;
        put(&mut frames, more)?;
        put(&mut marks, mark)?;
    }
    Ok((frames, marks))
}
