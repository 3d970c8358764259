// A task's logs, and what a commit writes to them.
ghost use Rattle.std.specs.Prelude.{◌≡◌, ◌≢◌, ◌≤◌, ◌+◌, ◌∷◌, [], ℕ, false, List, length, IfErr, OnOk};
ghost use Rattle.samza_model.specs.Counters.{Rose};
ghost use Rattle.disk_model.specs.Images.{LeavesOnly, SameElsewhere};
ghost use Rattle.log_frame.specs.Frame.{IsFrame};
ghost use Rattle.samza_model.specs.declared.messages.Record.{Record};
ghost use Rattle.samza_model.specs.Files.{checkpoint_file};
ghost use Rattle.topic_log.specs.declared.logs.Log.{Log as LogValue};
ghost use Rattle.topic_log.specs.Opened.{file_of, count_of, is_broken, IsOpen, Appends};
ghost use Rattle.unit_logs.specs.Crashes.{TaskFrames, PlanRecords, StandWith, IsPlanOf, WriteLeaves};
ghost use Rattle.restore_trim.specs.Standing.{IsOpenAt, OthersStay};
ghost use Rattle.unit_logs.specs.Written.{AreSound, StandOpen, IsPlanFor, Reaches, MarksAppended, AreWritten};
ghost use Rattle.topic_log.specs.Planning.{ReachesBy};

use crate::CommitFault;
use crate::appending::append_each;
use core_plans::Frames;
use disk_model::Disk;
use log_frame::Frame;
use std::slice;
use topic_log::{Extent, Log};

/// A task's logs, open on its disk.
#[derive(Drop)]
pub struct Logs {
    pub marks: Log,
    /// One a store, in the setup's order.
    pub changelogs: Vec<Log>,
    /// One an output, in the setup's order.
    pub outputs: Vec<Log>,
}

/// How far each log reaches once a commit's frames are appended.
#[derive(Drop)]
pub struct Reach {
    pub changes: Vec<Extent>,
    pub sends: Vec<Extent>,
    pub mark: Extent,
}

fn append_mark<D: Disk>(
    disk: &mut D,
    marks: &mut Log,
    frame: &Frame,
    extent: Extent,
) -> Result<(), CommitFault>
    requires sound { is_broken marks.old ≡ false }
    requires reaches { ReachesBy marks.old (frame.now ∷ []) extent }
    requires open { D.tells → (frames : List (List Record))
        × IsOpenAt (D.reads disk.old) (D.images disk.old) checkpoint_file marks.old frames }
    ensures appended { OnOk result (D.tells
        → MarksAppended (D.reads disk.old) (D.images disk.old) (D.reads disk.new)
        (D.images disk.new) marks.old marks.new frame.now) }
    ensures others { D.tells → (log : LogValue) (frames : List (List Record))
        → file_of log ≢ checkpoint_file → IsOpen (D.reads disk.old) (D.images disk.old) log frames
        → IsOpen (D.reads disk.new) (D.images disk.new) log frames }
    ensures any_moment { D.tells → (before : List (List Record)) (records : List Record)
        → IsOpenAt (D.reads disk.old) (D.images disk.old) checkpoint_file marks.old before
        → IsFrame frame.now records
        → LeavesOnly D.call_number D.images D.images_since disk.old disk.new
        (Appends checkpoint_file before (records ∷ [])) }
    ensures elsewhere { OnOk result (D.tells
        → SameElsewhere checkpoint_file (D.reads disk.old) (D.reads disk.new)) }
    ensures counted { OnOk result (count_of marks.new ≡ count_of marks.old + frame.now.count) }
    ensures sound { OnOk result (is_broken marks.new ≡ false) }
    ensures device { IfErr result (λ e. (e ≡ CommitFault.Device)
        × Rose (D.fault_count disk.old) (D.fault_count disk.new)) }
    ensures later { D.fault_count disk.old ≤ D.fault_count disk.new }
    ensures name { D.name disk.new ≡ D.name disk.old }
{
    match marks.append_planned(disk, slice::from_ref(frame), extent) {
        Ok(_) => Ok(()),
        Err(_) => Err(CommitFault::Device),
    }
}

impl Logs {
    /// Appends what the outputs were sent, then the changes of the stores, then the checkpoint.
    pub fn write<D: Disk>(
        &mut self,
        disk: &mut D,
        frames: &Frames,
        reach: &Reach,
    ) -> Result<(), CommitFault>
        requires planned { IsPlanFor self.old frames.now }
        requires sound { AreSound self.old }
        requires reaches { Reaches self.old frames.now reach.now }
        requires open { D.tells → StandOpen (D.reads disk.old) (D.images disk.old) self.old }
        ensures follows { OnOk result (D.tells
            → AreWritten (D.reads disk.old) (D.images disk.old) (D.reads disk.new) (D.images disk.new)
            self.old self.new frames.now) }
        // A crash at any moment leaves the checkpoint file as it was, or all of the frames.
        ensures any_moment { D.tells → (had : TaskFrames) (more : PlanRecords)
            → StandWith (D.reads disk.old) (D.images disk.old) self.old had
            → IsPlanOf self.old frames.now more
            → LeavesOnly D.call_number D.images D.images_since disk.old disk.new
            (WriteLeaves (length self.old.changelogs.items) (length self.old.outputs.items) had
            more) }
        ensures changelogs { length self.new.changelogs.items ≡ length self.old.changelogs.items }
        ensures outputs { length self.new.outputs.items ≡ length self.old.outputs.items }
        ensures others { OnOk result (D.tells
            → OthersStay (length self.old.changelogs.items) (length self.old.outputs.items)
            (D.reads disk.old) (D.reads disk.new)) }
        ensures counted { OnOk result
            (count_of self.new.marks ≡ count_of self.old.marks + frames.now.checkpoint.count) }
        ensures sound { OnOk result (AreSound self.new) }
        ensures device { IfErr result (λ e. (e ≡ CommitFault.Device)
            × Rose (D.fault_count disk.old) (D.fault_count disk.new)) }
        ensures later { D.fault_count disk.old ≤ D.fault_count disk.new }
        ensures name { D.name disk.new ≡ D.name disk.old }
    {
        let outputs = frames.outputs.as_slice();
        let stores = frames.stores.as_slice();
        match append_each(disk, &mut self.outputs, outputs, &reach.sends) {
            Ok(()) => {}
            Err(fault) => return Err(fault),
        }
        match append_each(disk, &mut self.changelogs, stores, &reach.changes) {
            Ok(()) => {}
            Err(fault) => return Err(fault),
        }
        match append_mark(disk, &mut self.marks, &frames.checkpoint, reach.mark) {
            Ok(()) => {}
            Err(fault) => return Err(fault),
        }
        Ok(())
    }
}
