// One task's unit.

use disk_model::{Disk, Shelf};
use samza_model::{Job, KeptMark, Record};
use std::alloc::Global;
use std::marker::Model;
use task_core::Core;
use unit_logs::Logs;

/// One task: its job, its input with the messages of it, what it holds in memory, and its files.
///
/// Contracts see that it stands by a list of events: those that the calls on it added since its opening. While no commit
/// answered `Device`, its files hold its marks, the stores' contents and what was sent up to the last mark; and a crash at
/// any moment leaves files that restore to a mark.
#[derive(Drop)]
pub struct TaskUnit<'j, J: Job, D: Disk, S: Shelf> {
    pub(crate) alloc: Global,
    pub(crate) job: &'j J,
    pub(crate) shelf: S,
    pub(crate) messages: Vec<Record>,
    pub(crate) core: Core,
    pub(crate) disk: D,
    pub(crate) logs: Logs,
    /// The opening's, and one for each commit, the newest last.
    pub(crate) marks: Vec<KeptMark>,
    /// How many events there were since the last mark when a commit began that answered `Device`.
    pub(crate) begun: Option<u64>,
    pub(crate) broken: bool,
}

impl<'j, J: Job, D: Disk, S: Shelf> Model for TaskUnit<'j, J, D, S> {
    ghost use Rattle.std.specs.Prelude.{reverse};
    ghost use Rattle.std.specs.Coded.{codes};
    ghost use Rattle.kv_store.specs.Tracked.{tracked_code};
    ghost use Rattle.unit_steps.specs.Units.{UnitValue, IsUnit};

    ghost Value = { UnitValue J.Plain D S };

    ghost coded = { Prim.hlevel (codes, tracked_code) };

    ghost view = { λ u. record {
      job = J.plain u.job.now;
      shelf = u.shelf;
      messages = u.messages.items;
      core = u.core;
      disk = u.disk;
      marks = reverse u.marks.items;
      begun = u.begun;
      broken = u.broken;
    } };

    ghost invariant = { λ u. IsUnit J.meaning D.tells D.reads D.call_number D.images D.images_since u.logs (record {
      job = J.plain u.job.now;
      shelf = u.shelf;
      messages = u.messages.items;
      core = u.core;
      disk = u.disk;
      marks = reverse u.marks.items;
      begun = u.begun;
      broken = u.broken;
    }) };
}
