// What the parts of a core begin as: lanes at their starts, no callback, and stores as they were restored.
ghost use Rattle.std.specs.Prelude.{◌≡◌, [], All, length, map, IfOk};
ghost use Rattle.kv_store.specs.Tracked.{AreWithinLimits};
ghost use Rattle.core_steps.specs.Begun.{AreClean, AreUnsent};
ghost use Rattle.core_steps.specs.Held.{contents_of};
ghost use Rattle.core_steps.specs.Lanes.{begun_lane};
ghost use Rattle.core_steps.specs.Setups.{IsRunnable};

use crate::holdings::Holdings;
use callback_manager::Callbacks;
use kv_store::{Table, TrackedTable};
use offset_window::OffsetWindow;
use output_log::Outputs;
use samza_model::{Items, NoMemory, Setup, put};
use std::alloc::Global;

/// What a core begins with, beside what it was given.
#[derive(Drop)]
pub struct Begun {
    /// The windows of the inputs' offsets, in the setup's order.
    pub lanes: Vec<OffsetWindow>,
    /// The callbacks in flight.
    pub callbacks: Callbacks,
    /// The stores and the outputs.
    pub holdings: Holdings,
}

/// A window at each start, from which nothing was delivered.
fn begin_lanes(alloc: Global, starts: &[u64], span: u32) -> Result<Vec<OffsetWindow>, NoMemory>
    ensures { IfOk result (λ lanes. lanes.items ≡ map (begun_lane span) starts.now) }
{
    let mut lanes = Vec::new(alloc);
    for i in 0..starts.len() {
        put(&mut lanes, OffsetWindow::new(alloc, starts[i], span)?)?;
    }
    Ok(lanes)
}

/// The tables as stores in which no key is dirty.
fn track_all(alloc: Global, tables: Items<Table>) -> Result<Vec<TrackedTable>, NoMemory>
    requires { All AreWithinLimits tables }
    ensures contents { IfOk result (λ r. contents_of r.items ≡ tables) }
    ensures clean { IfOk result (λ r. AreClean r.items) }
{
    let mut stores = Vec::new(alloc);
    for table in tables.into_vec() {
        put(&mut stores, TrackedTable::with(alloc, table))?;
    }
    Ok(stores)
}

/// The tables as stores, and so many outputs to which nothing was sent.
fn hold(alloc: Global, tables: Items<Table>, outputs: u32) -> Result<Holdings, NoMemory>
    requires { All AreWithinLimits tables }
    ensures contents { IfOk result (λ h. contents_of h.stores ≡ tables) }
    ensures clean { IfOk result (λ h. AreClean h.stores) }
    ensures unsent { IfOk result (λ h. AreUnsent outputs h) }
{
    let stores = track_all(alloc, tables)?;
    let outputs = Outputs::new(alloc, outputs)?;
    Ok(Holdings::new(alloc, stores, outputs))
}

/// How many outputs a setup has.
#[tactic(auto, using(core_steps::proofs::Laws::few_outputs))]
fn output_count(setup: &Setup) -> u32
    requires { IsRunnable setup.now }
    ensures { result ≡ length setup.now.outputs }
{
    setup.outputs.as_slice().len() as u32
}

/// What a core of this setup begins with: a window at each start, from which nothing was delivered, no callback, each store with its
/// table and no dirty key, and outputs to which nothing was sent. The one error is want of memory.
pub fn begin(
    alloc: Global,
    setup: &Setup,
    starts: &[u64],
    tables: Items<Table>,
) -> Result<Begun, NoMemory>
    requires runnable { IsRunnable setup.now }
    requires limits { All AreWithinLimits tables }
    ensures lanes { IfOk result (λ b. b.lanes.items ≡ map (begun_lane setup.now.span) starts.now) }
    ensures callbacks { IfOk result (λ b. b.callbacks
        ≡ record { flights = []; next = 0; limit = setup.now.concurrency }) }
    ensures contents { IfOk result (λ b. contents_of b.holdings.stores ≡ tables) }
    ensures clean { IfOk result (λ b. AreClean b.holdings.stores) }
    ensures unsent { IfOk result (λ b. AreUnsent (length setup.now.outputs) b.holdings) }
{
    let lanes = begin_lanes(alloc, starts, setup.span)?;
    let callbacks = Callbacks::new(alloc, setup.concurrency)?;
    let holdings = hold(alloc, tables, output_count(setup))?;
    Ok(Begun {
        lanes,
        callbacks,
        holdings,
    })
}
