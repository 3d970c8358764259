// What the report of a unit tells.
ghost use Rattle.std.specs.Prelude.{◌≡◌, ◌<◌, ◌≤◌, ◌∷◌, [], length, slice_index_or, IfOk};
ghost use Rattle.core_steps.specs.Held.{contents_of};
ghost use Rattle.core_steps.specs.Lanes.{lane_at};
ghost use Rattle.output_log.specs.Outputs.{sent_count};
ghost use Rattle.task_core.specs.Seen.{lane_state, sent_of};
ghost use Rattle.container_texts.specs.UnitReports.{input_report, store_report, output_report, AreRows, ReportsUnit};

use crate::reports::{InputReport, OutputReport, StoreReport, TaskReport};
use disk_model::{Disk, Shelf};
use event_unit::{LaneState, TaskUnit};
use samza_model::{Items, Job, NoMemory, Plain};
use std::alloc::Global;

/// Where the one input stands.
fn input_lane<'j, J: Job, D: Disk, S: Shelf>(unit: &TaskUnit<'j, J, D, S>) -> LaneState
    ensures lane { result ≡ lane_state unit.now.core 0 }
    ensures begun { result.start ≤ result.low }
{
    let _status = unit.status();
    unit.lane(0)
}

fn input_reports<'j, J: Job, D: Disk, S: Shelf>(
    alloc: Global,
    unit: &TaskUnit<'j, J, D, S>,
) -> Result<Vec<InputReport>, NoMemory>
    ensures { IfOk result (λ r. r.items ≡ input_report unit.now.core.setup
        (lane_at unit.now.core.lanes 0).low (slice_index_or unit.now.core.ends 0 0) ∷ []) }
{
    let lane = input_lane(unit);
    let mut reports = Vec::new(alloc);
    reports.push(InputReport {
        ssp: unit.setup().inputs.as_slice()[0].ssp.copy(alloc)?,
        next: lane.low,
        end: lane.end,
    })?;
    Ok(reports)
}

fn store_reports<'j, J: Job, D: Disk, S: Shelf>(
    alloc: Global,
    unit: &TaskUnit<'j, J, D, S>,
) -> Result<Vec<StoreReport>, NoMemory>
    ensures { IfOk result
        (λ r. AreRows (length unit.now.core.setup.stores)
        (store_report unit.now.core.setup (contents_of unit.now.core.held.stores)) r.items) }
{
    let stores = unit.setup().stores.as_slice();
    let mut reports = Vec::new(alloc);
    for i in 0..stores.len() {
        reports.push(StoreReport {
            name: stores[i].name.copy(alloc)?,
            keys: unit.keys(i as u32),
        })?;
    }
    Ok(reports)
}

fn output_reports<'j, J: Job, D: Disk, S: Shelf>(
    alloc: Global,
    unit: &TaskUnit<'j, J, D, S>,
) -> Result<Vec<OutputReport>, NoMemory>
    ensures { IfOk result
        (λ r. AreRows (length unit.now.core.setup.outputs)
        (output_report unit.now.core.setup (sent_count (sent_of unit.now.core.held))) r.items) }
{
    let outputs = unit.setup().outputs.as_slice();
    let mut reports = Vec::new(alloc);
    for j in 0..outputs.len() {
        reports.push(OutputReport {
            name: outputs[j].copy(alloc)?,
            sent: unit.sent(j as u32),
        })?;
    }
    Ok(reports)
}

/// What is told of a unit's task.
pub fn task_report<'j, J: Job, D: Disk, S: Shelf>(
    alloc: Global,
    unit: &TaskUnit<'j, J, D, S>,
) -> Result<TaskReport, NoMemory>
    ensures { IfOk result (λ r. ReportsUnit unit.now r) }
{
    let lane = input_lane(unit);
    Ok(TaskReport {
        task: unit.setup().task,
        checkpoint: unit.last_id(),
        completed: lane.low - lane.start,
        inputs: Items::from_vec(input_reports(alloc, unit)?),
        stores: Items::from_vec(store_reports(alloc, unit)?),
        outputs: Items::from_vec(output_reports(alloc, unit)?),
    })
}
