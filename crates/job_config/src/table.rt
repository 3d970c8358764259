// The table of a job's configuration.
ghost use Rattle.std.specs.Prelude.{IfOk};
ghost use Rattle.job_config.specs.Parts.{GivesRow};
ghost use Rattle.job_config.specs.Bounds.{IsBounded};
ghost use Rattle.job_config.specs.Limits.{limit_rows};
ghost use Rattle.job_config.specs.Table.{class_row, table};

use crate::config::JobConfig;
use crate::keys::{Asked, Setting};
use crate::rows::{self, RowFault};
use crate::stores::store_rows;
use crate::streams::stream_rows;
use config_values::shipped::Shipped;
use props_text::Pairs;
use samza_model::{Bin, Class, Items};
use std::alloc::Global;

/// The class with what it is given.
#[tactic(auto, unfolding(crate::specs::Table::class_row))]
fn class_row(
    alloc: Global,
    pairs: &Pairs,
    asked: &mut Asked,
    names: &[Bin],
    shipped: Shipped,
) -> Result<Class, RowFault>
    ensures { GivesRow asked.new.items result (class_row pairs.now names.now shipped asked.old.items) }
{
    match shipped {
        Shipped::WordCount => Ok(Class::WordCount),
        Shipped::Dedupe => Ok(Class::Dedupe),
        Shipped::SessionCount => Ok(Class::SessionCount),
        Shipped::TableJoin => {
            let table = rows::one_of(alloc, pairs, asked, Setting::Table, names)?;
            Ok(Class::TableJoin { table })
        }
    }
}

/// What bounds a run: numbers, intervals and a flag.
#[derive(Clone, Copy)]
struct Limits {
    containers: u32,
    workers: u32,
    concurrency: u32,
    window_ms: Option<u64>,
    commit_ms: Option<u64>,
    async_commit: bool,
    batch: u32,
}

#[tactic(auto, unfolding(crate::specs::Limits::limit_rows))]
fn limit_rows(alloc: Global, pairs: &Pairs, asked: &mut Asked) -> Result<Limits, RowFault>
    ensures { GivesRow asked.new.items result (limit_rows pairs.now asked.old.items) }
{
    let containers = rows::number(alloc, pairs, asked, Setting::Containers, 1, 1, 256)?;
    let workers = rows::number(alloc, pairs, asked, Setting::Workers, 0, 0, 32)?;
    let concurrency = rows::number(alloc, pairs, asked, Setting::Concurrency, 1, 1, 64)?;
    let window_ms = rows::millis(alloc, pairs, asked, Setting::WindowMs, None)?;
    let commit_ms = rows::millis(alloc, pairs, asked, Setting::CommitMs, Some(60_000))?;
    let async_commit = rows::flag(alloc, pairs, asked, Setting::AsyncCommit)?;
    let batch = rows::number(alloc, pairs, asked, Setting::Batch, 1, 1, 1_000_000)?;
    Ok(Limits {
        containers,
        workers,
        concurrency,
        window_ms,
        commit_ms,
        async_commit,
        batch,
    })
}

/// The rows of the table, one after another.
#[tactic(auto, unfolding(crate::specs::Table::table))]
pub(crate) fn table(alloc: Global, pairs: &Pairs, asked: &mut Asked) -> Result<JobConfig, RowFault>
    ensures rows { GivesRow asked.new.items result (table pairs.now asked.old.items) }
    ensures bounded { IfOk result IsBounded }
{
    let job = rows::job_name(alloc, pairs, asked, Setting::JobName)?;
    let shipped = rows::class(alloc, pairs, asked, Setting::TaskClass)?;
    let names = rows::inputs(alloc, pairs, asked, Setting::Inputs, 16)?;
    let outputs = rows::outputs(alloc, pairs, asked, Setting::Outputs, 8)?;
    let class = class_row(alloc, pairs, asked, names.as_slice(), shipped)?;
    let stores = store_rows(alloc, pairs, asked)?;
    let limits = limit_rows(alloc, pairs, asked)?;
    let inputs = stream_rows(alloc, pairs, asked, names.as_slice())?;
    Ok(JobConfig {
        job,
        class,
        inputs,
        outputs,
        stores,
        containers: limits.containers,
        workers: limits.workers,
        concurrency: limits.concurrency,
        window_ms: limits.window_ms,
        commit_ms: limits.commit_ms,
        timeout_ms: None,
        async_commit: limits.async_commit,
        batch: limits.batch,
        unread: Items::from_vec(Vec::new(alloc)),
    })
}
