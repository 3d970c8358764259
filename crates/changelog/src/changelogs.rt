// A store's changelog.
ghost use Rattle.std.specs.Prelude.{◌≡◌, ◌≢◌, ◌+◌, ◌^◌, ◌<◌, ◌≤◌, ◌⊎◌, ◌↔◌, ◌++◌, ◌∷◌, [], ℕ, true, false, List, length, IsTrue, IfOk, IfErr, OnErr, OnOk};
ghost use Rattle.std.specs.List.{AllByRecursion};
ghost use Rattle.samza_model.specs.declared.messages.Record.{Record};
ghost use Rattle.samza_model.specs.Counters.{Rose};
ghost use Rattle.samza_model.specs.Logs.{joined, HasFrames, HasNoLog};
ghost use Rattle.disk_model.specs.Images.{SameElsewhere, LeavesOnly};
ghost use Rattle.kv_store.specs.Tracked.{AreWithinLimits};
ghost use Rattle.log_frame.specs.Frame.{AreFrames};
ghost use Rattle.topic_log.specs.declared.logs.Log.{Log as LogValue};
ghost use Rattle.topic_log.specs.Damage.{IsDamagedAt};
ghost use Rattle.topic_log.specs.Moves.{Rests, Same};
ghost use Rattle.topic_log.specs.Opened.{file_of, count_of, size_of, is_broken, IsLeft, IsOpen, Appends, KeepsExtent, KeepsFrames};
ghost use Rattle.topic_log.specs.Growth.{HasRoom, LacksRoom};
ghost use Rattle.topic_log.specs.Steps.{closed_frames, record_count};
ghost use Rattle.changelog.specs.Folds.{IsFold};

use crate::folds::Fold;
use disk_model::Disk;
use kv_store::Table;
use log_frame::Frame;
use samza_model::Bin;
use std::alloc::Global;
use std::marker::Model;
use topic_log::{Log, LogFault};

/// The log of a store's changes, open on its disk. Contracts see the log.
#[derive(Debug, Drop)]
pub struct Changelog {
    log: Log,
}

impl Model for Changelog {
    ghost use Rattle.topic_log.specs.declared.logs.Log.{Log as LogValue};

    ghost Value = { LogValue };

    ghost view = { λ c. c.log };
}

impl Changelog {
    /// Opens the changelog of a file, as `Log::open_log` does.
    pub fn open_changelog<D: Disk>(
        alloc: Global,
        disk: &mut D,
        file: u32,
    ) -> Result<Changelog, LogFault>
        // The changelog has the frames that the file had, in every image.
        ensures opened { IfOk result (λ log. D.tells → (frames : List (List Record))
            × HasFrames (D.reads disk.old file) frames
            × IsOpen (D.reads disk.new) (D.images disk.new) log frames) }
        ensures left { IfOk result (λ log. D.tells
            → IsLeft (D.reads disk.old file) (D.reads disk.new file) (size_of log)) }
        ensures file { IfOk result (λ log. file_of log ≡ file) }
        ensures sound { IfOk result (λ log. is_broken log ≡ false) }
        ensures elsewhere { OnOk result (D.tells
            → SameElsewhere file (D.reads disk.old) (D.reads disk.new)) }

        // A crash at any moment leaves the frames that the image had. After a refusal, but for `Device`, nothing was written.
        ensures any_moment { D.tells
            → LeavesOnly D.call_number D.images D.images_since disk.old disk.new
            (KeepsFrames file) }
        ensures untouched { IfErr result (λ e. e ≢ LogFault.Device → D.tells
            → (D.reads disk.new ≡ D.reads disk.old)
            × LeavesOnly D.call_number D.images D.images_since disk.old disk.new Same) }
        ensures others { D.tells → (log : LogValue) (frames : List (List Record))
            → file_of log ≢ file → IsOpen (D.reads disk.old) (D.images disk.old) log frames
            → IsOpen (D.reads disk.new) (D.images disk.new) log frames }

        ensures damaged { IfErr result (λ e. (at : ℕ) → e ≡ LogFault.Damaged at → D.tells
            → IsDamagedAt (D.reads disk.old file) at × HasNoLog (D.reads disk.old file)) }
        ensures device { IfErr result (λ e. e ≡ LogFault.Device
            → Rose (D.fault_count disk.old) (D.fault_count disk.new)) }
        ensures never { IfErr result (λ e. (e ≢ LogFault.Limit) × (e ≢ LogFault.Broken)) }
        ensures later { D.fault_count disk.old ≤ D.fault_count disk.new }
        ensures name { D.name disk.new ≡ D.name disk.old }
    {
        match Log::open_log(alloc, disk, file) {
            Ok(log) => Ok(Changelog { log }),
            Err(fault) => Err(fault),
        }
    }

    /// The number of records.
    pub fn len(&self) -> u64
        ensures count { result ≡ count_of self.now }
        ensures small { result < 2 ^ 62 }
    {
        self.log.len()
    }

    pub fn is_empty(&self) -> bool
        ensures { IsTrue result ↔ (count_of self.now ≡ 0) }
    {
        self.log.is_empty()
    }

    /// The file's size in bytes.
    pub fn size(&self) -> u64
        ensures { result ≡ size_of self.now }
    {
        self.log.size()
    }

    /// The map that the first `count` records make, one after another, where a record with a value sets its key and one
    /// without takes it away; and the distinct keys of the records behind them, in the order of their bytes. It reads the file
    /// a piece at a time, so its memory grows with the map and these keys, and not with the log.
    ///
    /// `Broken` comes exactly where an earlier call on this changelog answered `Device`. `Damaged` never comes where the
    /// disk tells its bytes, and `Limit` never.
    pub fn fold<D: Disk>(
        &mut self,
        alloc: Global,
        disk: &mut D,
        count: u64,
    ) -> Result<(Table, Vec<Bin>), LogFault>
        requires opened { D.tells → is_broken self.old ≡ false → (frames : List (List Record))
            × IsOpen (D.reads disk.old) (D.images disk.old) self.old frames }
        requires within { count ≤ count_of self.old }

        ensures folded { IfOk result (λ r. D.tells → (frames : List (List Record))
            → IsOpen (D.reads disk.old) (D.images disk.old) self.old frames
            → IsFold count (joined frames) r.0 r.1.items) }
        ensures limits { IfOk result (λ r. AreWithinLimits r.0) }
        ensures short { IfOk result (λ r. AllByRecursion (λ key. length key ≤ 1024) r.1.items) }

        // Nothing but reads was called: at each moment the images are those before.
        ensures rests { D.tells
            → Rests D.reads D.call_number D.images D.images_since disk.old disk.new }
        ensures reads { D.tells → D.reads disk.new ≡ D.reads disk.old }
        ensures others { D.tells → (l : LogValue) (frames : List (List Record))
            → IsOpen (D.reads disk.old) (D.images disk.old) l frames
            → IsOpen (D.reads disk.new) (D.images disk.new) l frames }

        ensures ok { OnOk result ((is_broken self.old ≡ false) × (self.new ≡ self.old)) }
        ensures broken { IfErr result (λ e. (e ≡ LogFault.Broken) ↔ (is_broken self.old ≡ true)) }
        ensures sane { IfErr result (λ e. D.tells → (at : ℕ) → e ≢ LogFault.Damaged at) }
        ensures device { IfErr result (λ e. e ≡ LogFault.Device
            → Rose (D.fault_count disk.old) (D.fault_count disk.new)) }
        ensures never { IfErr result (λ e. e ≢ LogFault.Limit) }
        ensures breaks { IfErr result (λ e. (is_broken self.new ≡ true)
            ↔ ((e ≡ LogFault.Broken) ⊎ (e ≡ LogFault.Device))) }
        ensures kept { IfErr result (λ e. e ≢ LogFault.Device → self.new ≡ self.old) }
        ensures extent { OnErr result (KeepsExtent self.old self.new) }
        ensures file { file_of self.new ≡ file_of self.old }
        ensures later { D.fault_count disk.old ≤ D.fault_count disk.new }
        ensures name { D.name disk.new ≡ D.name disk.old }
    {
        let mut fold = Fold::new(alloc, count);
        let mut unread = self.log.batches(alloc);
        'batches: loop {
            let found = match unread.next(alloc, disk, &mut self.log) {
                Ok(found) => found,
                Err(fault) => return Err(fault),
            };
            let records = match found {
                Some(records) => records,
                None => return Ok(fold.into_parts(alloc)?),
            };
            fold.read_all(records.into_vec())?;
        }
    }

    /// Appends the frames in order, under one pair of syncs, and answers the new number of records. An empty list makes no
    /// device call. It takes no memory.
    ///
    /// `Limit` comes before any device call where the file would pass 2^40 bytes by these frames, and never for an empty
    /// list. After `Device` the changelog is broken, and answers `Broken` from then on.
    pub fn write<D: Disk>(&mut self, disk: &mut D, frames: &[Frame]) -> Result<u64, LogFault>
        requires { D.tells → is_broken self.old ≡ false → (before : List (List Record))
            × IsOpen (D.reads disk.old) (D.images disk.old) self.old before }

        ensures count { IfOk result (λ n. n ≡ count_of self.new) }
        ensures counted { IfOk result (λ n. n ≡ count_of self.old + record_count frames.now) }
        ensures file { file_of self.new ≡ file_of self.old }

        // The changelog has the frames before, followed by these, in every image.
        ensures appended { OnOk result (D.tells → (before lists : List (List Record))
            → IsOpen (D.reads disk.old) (D.images disk.old) self.old before
            → AreFrames frames.now lists
            → IsOpen (D.reads disk.new) (D.images disk.new) self.new (before ++ lists)) }
        ensures grown { OnOk result
            (size_of self.new ≡ size_of self.old + length (closed_frames frames.now)) }
        ensures idle { frames.now ≡ [] → disk.new ≡ disk.old }
        ensures elsewhere { OnOk result (D.tells
            → SameElsewhere (file_of self.old) (D.reads disk.old) (D.reads disk.new)) }

        // A crash at any moment leaves the frames before, or those followed by all of these.
        ensures any_moment { D.tells → (before lists : List (List Record))
            → IsOpen (D.reads disk.old) (D.images disk.old) self.old before
            → AreFrames frames.now lists
            → LeavesOnly D.call_number D.images D.images_since disk.old disk.new
            (Appends (file_of self.old) before lists) }
        ensures others { D.tells → (log : LogValue) (frames : List (List Record))
            → file_of log ≢ file_of self.old
            → IsOpen (D.reads disk.old) (D.images disk.old) log frames
            → IsOpen (D.reads disk.new) (D.images disk.new) log frames }

        ensures ok { OnOk result ((is_broken self.old ≡ false)
            × HasRoom (size_of self.old) frames.now) }
        ensures broken { IfErr result (λ e. (e ≡ LogFault.Broken) ↔ (is_broken self.old ≡ true)) }
        ensures limit { IfErr result (λ e. (e ≡ LogFault.Limit)
            ↔ ((is_broken self.old ≡ false) × LacksRoom (size_of self.old) frames.now)) }
        ensures device { IfErr result (λ e. e ≡ LogFault.Device
            → Rose (D.fault_count disk.old) (D.fault_count disk.new)) }
        ensures never { IfErr result (λ e. ((at : ℕ) → e ≢ LogFault.Damaged at)
            × (e ≢ LogFault.NoMemory)) }

        ensures sound { OnOk result (is_broken self.new ≡ false) }
        ensures breaks { IfErr result (λ e. (is_broken self.new ≡ true)
            ↔ ((e ≡ LogFault.Broken) ⊎ (e ≡ LogFault.Device))) }
        ensures refused { IfErr result (λ e. e ≢ LogFault.Device → (self.new ≡ self.old)
            × (disk.new ≡ disk.old)) }
        ensures extent { OnErr result (KeepsExtent self.old self.new) }
        ensures later { D.fault_count disk.old ≤ D.fault_count disk.new }
        ensures name { D.name disk.new ≡ D.name disk.old }
    {
        self.log.append_all(disk, frames)
    }

    /// The log itself.
    pub fn into_log(self) -> Log
        ensures { result ≡ self }
    {
        let Changelog { log } = self;
        log
    }
}
