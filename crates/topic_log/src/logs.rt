// A log of one file.
ghost use Rattle.std.specs.Prelude.{◌≡◌, ◌≢◌, ◌+◌, ◌^◌, ◌<◌, ◌≤◌, ◌⊎◌, ◌↔◌, ◌++◌, ◌∷◌, [], ℕ, true, false, List, Ok, None, length, IsTrue, IfOk, IfErr, IfSome, MatchOption, OnOk, OnErr};
ghost use Rattle.std.specs.List.{AllByRecursion};
ghost use Rattle.samza_model.specs.declared.messages.Record.{Record};
ghost use Rattle.samza_model.specs.Counters.{Rose};
ghost use Rattle.samza_model.specs.Limits.{IsWithinLimits, file_limit};
ghost use Rattle.samza_model.specs.Logs.{joined, HasFrames, HasNoLog};
ghost use Rattle.disk_model.specs.Images.{SameElsewhere, Keeps, LeavesOnly};
ghost use Rattle.log_frame.specs.Frame.{IsFrame, AreFrames};
ghost use Rattle.topic_log.specs.Damage.{IsDamagedAt};
ghost use Rattle.topic_log.specs.Extents.{StandsBehind, IsLastOf};
ghost use Rattle.topic_log.specs.Moves.{Rests, Same};
ghost use Rattle.topic_log.specs.Growth.{HasRoom, LacksRoom};
ghost use Rattle.topic_log.specs.Planning.{ReachesBy};
ghost use Rattle.topic_log.specs.Appended.{AppendedAs};
ghost use Rattle.topic_log.specs.Steps.{closed_frames, record_count};
ghost use Rattle.topic_log.specs.Walks.{Shows};

use crate::batches::{Batches, read_frame};
use crate::extents::Extent;
use crate::opening::{look, settle};
use crate::staging::put_behind;
use crate::windows::{PIECE, Window};
use crate::{LogFault, Place};
use disk_model::Disk;
use log_frame::{Decoded, Frame};
use samza_model::{Items, Record};
use std::alloc::Global;
use std::slice;

/// How many bytes of a frame that is read by its place are read at first, where the log has as many. A frame that has no
/// more is read by one call.
const FRONT: u64 = 16_384;

/// A log that is open: one file of a disk, to which nothing else writes.
#[derive(Debug, Drop)]
pub struct Log {
    file: u32,
    extent: Extent,
    broken: bool,
}

impl Log {
    ghost use Rattle.topic_log.specs.declared.logs.Log.{Log};
    ghost use Rattle.topic_log.specs.Batches.{AreOf, AreUnread, HasPlace, IsNext, IsOn};
    ghost use Rattle.topic_log.specs.Opened.{file_of, count_of, size_of, is_broken, HasExtent, IsLeft, IsOpen, Appends, KeepsExtent, KeepsFrames};

    /// Opens the log of a file, which may be empty: reads it through, and leaves one closed gate behind its frames.
    ///
    /// `Damaged` comes where the file is no log, with the byte at which reading stopped. A file of 2^62 bytes or more is
    /// refused as `NoMemory`.
    pub fn open_log<D: Disk>(alloc: Global, disk: &mut D, file: u32) -> Result<Log, LogFault>
        // The log has the frames that the file had, in every image.
        ensures opened { IfOk result (λ log. D.tells → (frames : List (List Record))
            × HasFrames (D.reads disk.old file) frames
            × IsOpen (D.reads disk.new) (D.images disk.new) log frames) }
        ensures left { IfOk result (λ log. D.tells
            → IsLeft (D.reads disk.old file) (D.reads disk.new file) (size_of log)) }
        ensures file { IfOk result (λ log. file_of log ≡ file) }
        ensures sound { IfOk result (λ log. is_broken log ≡ false) }
        ensures elsewhere { OnOk result (D.tells
            → SameElsewhere file (D.reads disk.old) (D.reads disk.new)) }

        // A crash at any moment leaves the frames that the image had. After a refusal, but for `Device`, nothing was written.
        ensures any_moment { D.tells
            → LeavesOnly D.call_number D.images D.images_since disk.old disk.new
            (KeepsFrames file) }
        ensures untouched { IfErr result (λ e. e ≢ LogFault.Device → D.tells
            → (D.reads disk.new ≡ D.reads disk.old)
            × LeavesOnly D.call_number D.images D.images_since disk.old disk.new Same) }
        ensures others { D.tells → (log : Log) (frames : List (List Record)) → file_of log ≢ file
            → IsOpen (D.reads disk.old) (D.images disk.old) log frames
            → IsOpen (D.reads disk.new) (D.images disk.new) log frames }

        ensures damaged { IfErr result (λ e. (at : ℕ) → e ≡ LogFault.Damaged at → D.tells
            → IsDamagedAt (D.reads disk.old file) at × HasNoLog (D.reads disk.old file)) }
        ensures device { IfErr result (λ e. e ≡ LogFault.Device
            → Rose (D.fault_count disk.old) (D.fault_count disk.new)) }
        ensures never { IfErr result (λ e. (e ≢ LogFault.Limit) × (e ≢ LogFault.Broken)) }
        ensures later { D.fault_count disk.old ≤ D.fault_count disk.new }
        ensures name { D.name disk.new ≡ D.name disk.old }
    {
        let found = match look(alloc, disk, file) {
            Ok(found) => found,
            Err(fault) => return Err(fault),
        };
        match settle(disk, file, found.size, found.extent.gate) {
            Ok(()) => Ok(Log {
                file,
                extent: found.extent,
                broken: false,
            }),
            Err(fault) => Err(fault),
        }
    }

    /// The number of records.
    pub fn len(&self) -> u64
        ensures count { result ≡ count_of self.now }
        ensures small { result < 2 ^ 62 }
    {
        self.extent.count
    }

    pub fn is_empty(&self) -> bool
        ensures { IsTrue result ↔ (count_of self.now ≡ 0) }
    {
        self.extent.count == 0
    }

    /// The file's size in bytes.
    pub fn size(&self) -> u64
        ensures { result ≡ size_of self.now }
    {
        self.extent.gate + 1
    }

    /// The place before the first batch.
    pub fn start(&self) -> Place
        ensures { (frames : List (List Record)) → StandsBehind frames [] result }
    {
        Place { byte: 0, index: 0 }
    }

    /// The place before the last batch, or `None` where the log has none.
    pub fn last(&self) -> Option<Place>
        ensures last { (frames : List (List Record)) → HasExtent self.now frames
            → IsLastOf result frames }
        // On every outside it is before the log's end, and where there is none there are no records.
        ensures inside { MatchOption result (count_of self.now ≡ 0)
            (λ place. place.byte + 1 < size_of self.now) }
    {
        self.extent.last
    }

    /// How far the log reaches once these frames are appended, or `None` where its file would pass 2^40 bytes by them. No
    /// frames pass nothing.
    pub fn plan(&self, frames: &[Frame]) -> Option<Extent>
        ensures limit { MatchOption result (LacksRoom (size_of self.now) frames.now)
            (λ _. HasRoom (size_of self.now) frames.now) }
        ensures reaches { IfSome result (λ e. ReachesBy self.now frames.now e) }
    {
        self.extent.behind(frames)
    }

    /// Adds the records of all these frames, which were planned, and answers the new number of records. An empty list makes
    /// no device call.
    ///
    /// The one fault is `Device`: then the log is broken.
    pub fn append_planned<D: Disk>(
        &mut self,
        disk: &mut D,
        frames: &[Frame],
        extent: Extent,
    ) -> Result<u64, LogFault>
        requires sound { is_broken self.old ≡ false }
        requires reaches { ReachesBy self.old frames.now extent }
        requires open { D.tells → (before : List (List Record))
            × IsOpen (D.reads disk.old) (D.images disk.old) self.old before }
        ensures appended { AppendedAs D.tells D.reads D.call_number D.images D.images_since
            D.fault_count D.name disk.old disk.new self.old self.new frames.now result }
        ensures device { IfErr result (λ e. (e ≡ LogFault.Device)
            × Rose (D.fault_count disk.old) (D.fault_count disk.new)) }
        ensures breaks { OnErr result (is_broken self.new ≡ true) }
    {
        if frames.is_empty() {
            return Ok(self.extent.count);
        }
        self.broken = true;
        put_behind(disk, self.file, self.extent.gate, frames)?;
        self.broken = false;
        self.extent = extent;
        Ok(extent.count)
    }

    /// Adds the records of all these frames, and answers the new number of records. An empty list makes no device call.
    ///
    /// `Limit` comes before any device call where the file would pass 2^40 bytes by these frames, and never for an empty list. After `Device` the log is broken, and
    /// answers `Broken` from then on.
    pub fn append_all<D: Disk>(&mut self, disk: &mut D, frames: &[Frame]) -> Result<u64, LogFault>
        requires { D.tells → is_broken self.old ≡ false → (before : List (List Record))
            × IsOpen (D.reads disk.old) (D.images disk.old) self.old before }

        ensures count { IfOk result (λ n. n ≡ count_of self.new) }
        ensures counted { IfOk result (λ n. n ≡ count_of self.old + record_count frames.now) }
        ensures file { file_of self.new ≡ file_of self.old }

        // The log has the frames before, followed by these, in every image.
        ensures appended { OnOk result (D.tells → (before lists : List (List Record))
            → IsOpen (D.reads disk.old) (D.images disk.old) self.old before
            → AreFrames frames.now lists
            → IsOpen (D.reads disk.new) (D.images disk.new) self.new (before ++ lists)) }
        ensures grown { OnOk result
            (size_of self.new ≡ size_of self.old + length (closed_frames frames.now)) }
        ensures idle { frames.now ≡ [] → disk.new ≡ disk.old }
        ensures elsewhere { OnOk result (D.tells
            → SameElsewhere (file_of self.old) (D.reads disk.old) (D.reads disk.new)) }

        // A crash at any moment leaves the frames before, or those followed by all of these.
        ensures any_moment { D.tells → (before lists : List (List Record))
            → IsOpen (D.reads disk.old) (D.images disk.old) self.old before
            → AreFrames frames.now lists
            → LeavesOnly D.call_number D.images D.images_since disk.old disk.new
            (Appends (file_of self.old) before lists) }
        ensures others { D.tells → (log : Log) (frames : List (List Record))
            → file_of log ≢ file_of self.old
            → IsOpen (D.reads disk.old) (D.images disk.old) log frames
            → IsOpen (D.reads disk.new) (D.images disk.new) log frames }

        ensures ok { OnOk result ((is_broken self.old ≡ false)
            × HasRoom (size_of self.old) frames.now) }
        ensures broken { IfErr result (λ e. (e ≡ LogFault.Broken) ↔ (is_broken self.old ≡ true)) }
        ensures limit { IfErr result (λ e. (e ≡ LogFault.Limit)
            ↔ ((is_broken self.old ≡ false) × LacksRoom (size_of self.old) frames.now)) }
        ensures device { IfErr result (λ e. e ≡ LogFault.Device
            → Rose (D.fault_count disk.old) (D.fault_count disk.new)) }
        ensures never { IfErr result (λ e. ((at : ℕ) → e ≢ LogFault.Damaged at)
            × (e ≢ LogFault.NoMemory)) }

        ensures sound { OnOk result (is_broken self.new ≡ false) }
        ensures breaks { IfErr result (λ e. (is_broken self.new ≡ true)
            ↔ ((e ≡ LogFault.Broken) ⊎ (e ≡ LogFault.Device))) }
        ensures refused { IfErr result (λ e. e ≢ LogFault.Device → (self.new ≡ self.old)
            × (disk.new ≡ disk.old)) }
        ensures extent { OnErr result (KeepsExtent self.old self.new) }
        ensures later { D.fault_count disk.old ≤ D.fault_count disk.new }
        ensures name { D.name disk.new ≡ D.name disk.old }
    {
        if self.broken {
            return Err(LogFault::Broken);
        }
        match self.plan(frames) {
            Some(extent) => self.append_planned(disk, frames, extent),
            None => Err(LogFault::Limit),
        }
    }

    /// Adds a frame's records, and answers the new number of records. It makes at most four device calls, and else is as
    /// `append_all`.
    pub fn append<D: Disk>(&mut self, disk: &mut D, frame: &Frame) -> Result<u64, LogFault>
        requires { D.tells → is_broken self.old ≡ false → (before : List (List Record))
            × IsOpen (D.reads disk.old) (D.images disk.old) self.old before }

        ensures count { IfOk result (λ n. n ≡ count_of self.new) }
        ensures counted { IfOk result (λ n. n ≡ count_of self.old + frame.now.count) }
        ensures file { file_of self.new ≡ file_of self.old }

        // The log has the frames before, followed by this one, in every image.
        ensures appended { OnOk result (D.tells
            → (before : List (List Record)) (records : List Record)
            → IsOpen (D.reads disk.old) (D.images disk.old) self.old before
            → IsFrame frame.now records
            → IsOpen (D.reads disk.new) (D.images disk.new) self.new (before ++ records ∷ [])) }
        ensures grown { OnOk result
            (size_of self.new ≡ size_of self.old + length frame.now.bytes + 1) }
        ensures elsewhere { OnOk result (D.tells
            → SameElsewhere (file_of self.old) (D.reads disk.old) (D.reads disk.new)) }

        // A crash at any moment leaves the frames before, or those followed by this one.
        ensures any_moment { D.tells → (before : List (List Record)) (records : List Record)
            → IsOpen (D.reads disk.old) (D.images disk.old) self.old before
            → IsFrame frame.now records
            → LeavesOnly D.call_number D.images D.images_since disk.old disk.new
            (Appends (file_of self.old) before (records ∷ [])) }
        ensures others { D.tells → (log : Log) (frames : List (List Record))
            → file_of log ≢ file_of self.old
            → IsOpen (D.reads disk.old) (D.images disk.old) log frames
            → IsOpen (D.reads disk.new) (D.images disk.new) log frames }

        ensures ok { OnOk result ((is_broken self.old ≡ false)
            × (size_of self.old + length frame.now.bytes + 1 ≤ file_limit)) }
        ensures broken { IfErr result (λ e. (e ≡ LogFault.Broken) ↔ (is_broken self.old ≡ true)) }
        ensures limit { IfErr result (λ e. (e ≡ LogFault.Limit)
            ↔ ((is_broken self.old ≡ false)
            × (file_limit < size_of self.old + length frame.now.bytes + 1))) }
        ensures device { IfErr result (λ e. e ≡ LogFault.Device
            → Rose (D.fault_count disk.old) (D.fault_count disk.new)) }
        ensures never { IfErr result (λ e. ((at : ℕ) → e ≢ LogFault.Damaged at)
            × (e ≢ LogFault.NoMemory)) }

        ensures sound { OnOk result (is_broken self.new ≡ false) }
        ensures breaks { IfErr result (λ e. (is_broken self.new ≡ true)
            ↔ ((e ≡ LogFault.Broken) ⊎ (e ≡ LogFault.Device))) }
        ensures refused { IfErr result (λ e. e ≢ LogFault.Device → (self.new ≡ self.old)
            × (disk.new ≡ disk.old)) }
        ensures extent { OnErr result (KeepsExtent self.old self.new) }
        ensures later { D.fault_count disk.old ≤ D.fault_count disk.new }
        ensures name { D.name disk.new ≡ D.name disk.old }
    {
        self.append_all(disk, slice::from_ref(frame))
    }

    /// The records of the batch at a place, and the place behind it; `None` at the end. The place is one that `start`,
    /// `last` or `batch` gave. After `Device` the log is broken.
    pub fn batch<D: Disk>(
        &mut self,
        alloc: Global,
        disk: &mut D,
        place: Place,
    ) -> Result<Option<(Items<Record>, Place)>, LogFault>
        requires { D.tells → is_broken self.old ≡ false → (frames : List (List Record))
            × ((before : List (List Record))
            × HasPlace (D.reads disk.old) (D.images disk.old) self.old place frames before) }

        ensures batch { IfOk result (λ o. D.tells → (frames before : List (List Record))
            → HasPlace (D.reads disk.old) (D.images disk.old) self.old place frames before
            → IsNext frames before o) }

        // The place behind is further on, and within the file; and the records are within the limits. Every disk gives that.
        ensures forward { IfOk result (λ o. IfSome o (λ b. (place.byte < b.1.byte)
            × (b.1.byte < size_of self.old))) }
        ensures limits { IfOk result (λ o. IfSome o (λ b. AllByRecursion IsWithinLimits b.0)) }
        ensures end { result ≡ Ok None → size_of self.old ≤ place.byte + 1 }

        // Nothing changes on the disk, and the logs stay open.
        ensures reads { D.tells → D.reads disk.new ≡ D.reads disk.old }
        ensures images { D.tells → Keeps (D.images disk.old) (D.images disk.new) }
        ensures none_lost { D.tells → Keeps (D.images disk.new) (D.images disk.old) }
        ensures any_moment { D.tells
            → LeavesOnly D.call_number D.images D.images_since disk.old disk.new Same }
        ensures stays { D.tells → (frames : List (List Record))
            → IsOpen (D.reads disk.old) (D.images disk.old) self.old frames
            → IsOpen (D.reads disk.new) (D.images disk.new) self.new frames }
        ensures others { D.tells → (log : Log) (frames : List (List Record))
            → IsOpen (D.reads disk.old) (D.images disk.old) log frames
            → IsOpen (D.reads disk.new) (D.images disk.new) log frames }

        ensures ok { OnOk result ((is_broken self.old ≡ false) × (self.new ≡ self.old)) }
        ensures broken { IfErr result (λ e. (e ≡ LogFault.Broken) ↔ (is_broken self.old ≡ true)) }
        ensures sane { IfErr result (λ e. D.tells → (at : ℕ) → e ≢ LogFault.Damaged at) }
        ensures device { IfErr result (λ e. e ≡ LogFault.Device
            → Rose (D.fault_count disk.old) (D.fault_count disk.new)) }
        ensures never { IfErr result (λ e. e ≢ LogFault.Limit) }

        ensures breaks { IfErr result (λ e. (is_broken self.new ≡ true)
            ↔ ((e ≡ LogFault.Broken) ⊎ (e ≡ LogFault.Device))) }
        ensures kept { IfErr result (λ e. e ≢ LogFault.Device → self.new ≡ self.old) }
        ensures extent { OnErr result (KeepsExtent self.old self.new) }
        ensures file { file_of self.new ≡ file_of self.old }
        ensures later { D.fault_count disk.old ≤ D.fault_count disk.new }
        ensures name { D.name disk.new ≡ D.name disk.old }
    {
        let mut window = self.window(alloc, FRONT);
        self.batch_in(alloc, disk, &mut window, place)
    }

    /// The same through a window on this log, which has more of the file at hand then.
    pub(crate) fn batch_in<D: Disk>(
        &mut self,
        alloc: Global,
        disk: &mut D,
        window: &mut Window,
        place: Place,
    ) -> Result<Option<(Items<Record>, Place)>, LogFault>
        requires on { IsOn self.old window.old }
        requires shows { D.tells → is_broken self.old ≡ false
            → Shows window.old (D.reads disk.old (file_of self.old)) }
        requires place { D.tells → is_broken self.old ≡ false → (frames : List (List Record))
            × ((before : List (List Record))
            × HasPlace (D.reads disk.old) (D.images disk.old) self.old place frames before) }

        ensures batch { IfOk result (λ o. D.tells → (frames before : List (List Record))
            → HasPlace (D.reads disk.old) (D.images disk.old) self.old place frames before
            → IsNext frames before o) }
        ensures on { IsOn self.new window.new }
        ensures shows { OnOk result (D.tells
            → Shows window.new (D.reads disk.new (file_of self.new))) }

        // The place behind is further on, and within the file; and the records are within the limits. Every disk gives that.
        ensures forward { IfOk result (λ o. IfSome o (λ b. (place.byte < b.1.byte)
            × (b.1.byte < size_of self.old))) }
        ensures limits { IfOk result (λ o. IfSome o (λ b. AllByRecursion IsWithinLimits b.0)) }
        ensures end { result ≡ Ok None → size_of self.old ≤ place.byte + 1 }

        // Nothing changes on the disk, and the logs stay open.
        ensures rests { D.tells
            → Rests D.reads D.call_number D.images D.images_since disk.old disk.new }
        ensures reads { D.tells → D.reads disk.new ≡ D.reads disk.old }
        ensures stays { D.tells → (frames : List (List Record))
            → IsOpen (D.reads disk.old) (D.images disk.old) self.old frames
            → IsOpen (D.reads disk.new) (D.images disk.new) self.new frames }
        ensures others { D.tells → (log : Log) (frames : List (List Record))
            → IsOpen (D.reads disk.old) (D.images disk.old) log frames
            → IsOpen (D.reads disk.new) (D.images disk.new) log frames }

        ensures ok { OnOk result ((is_broken self.old ≡ false) × (self.new ≡ self.old)) }
        ensures broken { IfErr result (λ e. (e ≡ LogFault.Broken) ↔ (is_broken self.old ≡ true)) }
        ensures sane { IfErr result (λ e. D.tells → (at : ℕ) → e ≢ LogFault.Damaged at) }
        ensures device { IfErr result (λ e. e ≡ LogFault.Device
            → Rose (D.fault_count disk.old) (D.fault_count disk.new)) }
        ensures never { IfErr result (λ e. e ≢ LogFault.Limit) }

        ensures breaks { IfErr result (λ e. (is_broken self.new ≡ true)
            ↔ ((e ≡ LogFault.Broken) ⊎ (e ≡ LogFault.Device))) }
        ensures kept { IfErr result (λ e. e ≢ LogFault.Device → self.new ≡ self.old) }
        ensures extent { OnErr result (KeepsExtent self.old self.new) }
        ensures file { file_of self.new ≡ file_of self.old }
        ensures later { D.fault_count disk.old ≤ D.fault_count disk.new }
        ensures name { D.name disk.new ≡ D.name disk.old }
    {
        if self.broken {
            return Err(LogFault::Broken);
        }
        let end = self.extent.gate;
        if end <= place.byte {
            return Ok(None);
        }
        let at = place.byte + 1;
        match read_frame(alloc, disk, window, at) {
            Ok(decoded) => Ok(Some(behind(place, decoded))),
            Err(fault) => {
                if fault.is_device() {
                    self.broken = true;
                    return Err(fault);
                }
                Err(fault)
            }
        }
    }

    /// The log's batches, of which none is read yet.
    pub fn batches(&self, alloc: Global) -> Batches
        ensures of { AreOf self.now result }
        ensures unread { AreUnread result }
    {
        Batches {
            place: self.start(),
            window: self.window(alloc, PIECE),
        }
    }

    /// A window on the log's gates and frames, which shows nothing yet.
    fn window(&self, alloc: Global, piece: u64) -> Window
        ensures on { IsOn self.now result }
        ensures shows { (bytes : List ℕ) → Shows result bytes }
    {
        Window::new(alloc, self.file, self.extent.gate, piece)
    }
}

/// The records, and the place behind them.
fn behind(place: Place, decoded: Decoded) -> (Items<Record>, Place)
    requires { place.byte + 1 + decoded.used < 2 ^ 62 }
    ensures records { result.0 ≡ decoded.records }
    ensures byte { result.1.byte ≡ place.byte + 1 + decoded.used }
    ensures index { place.index + length result.0 < 2 ^ 64
        → result.1.index ≡ place.index + length result.0 }
{
    let Decoded { records, used } = decoded;
    let next = Place {
        byte: place.byte + 1 + used,
        index: place.index.saturating_add(records.as_slice().len() as u64),
    };
    (records, next)
}
