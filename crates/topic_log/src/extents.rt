// How far a log reaches.
ghost use Rattle.std.specs.Prelude.{◌≡◌, ◌+◌, ◌^◌, ◌<◌, ◌≤◌, ◌++◌, List, length, IfSome, MatchOption};
ghost use Rattle.std.specs.Option.{ForSome, ForNone};
ghost use Rattle.samza_model.specs.declared.messages.Record.{Record};

use log_frame::Frame;
use samza_model::FILE_LIMIT;

/// A place between two batches of a log.
#[derive(Clone, Copy, Debug, PartialEq, Eq)]
pub struct Place {
    /// The byte of the gate before the batch.
    pub byte: u64,
    /// The number of records before the batch.
    pub index: u64,
}

/// How far a log's open gates and frames reach, as it is or once more frames are appended.
#[derive(Clone, Copy, Debug)]
pub struct Extent {
    /// The byte of the gate behind the last frame.
    pub(crate) gate: u64,
    /// The number of records.
    pub(crate) count: u64,
    /// The place before the last frame.
    pub(crate) last: Option<Place>,
    ghost small: { gate < 2 ^ 62 },
    ghost counted: { count ≤ gate },
    // the last frame begins before the gate, and where there is none there are no records
    ghost ends: { ForSome last (λ place. place.byte < gate) },
    ghost empty: { ForNone last (count ≡ 0) },
}

impl Extent {
    ghost use Rattle.log_frame.specs.Frame.{AreFrames};
    ghost use Rattle.topic_log.specs.Extents.{IsExtent};
    ghost use Rattle.topic_log.specs.Growth.{HasRoom, LacksRoom};
    ghost use Rattle.topic_log.specs.Steps.{closed_frames, record_count};

    /// No frame.
    pub(crate) fn start() -> Extent
        ensures gate { result.gate ≡ 0 }
        ensures count { result.count ≡ 0 }
        ensures last { result.last ≡ None }
    {
        Extent {
            gate: 0,
            count: 0,
            last: None,
        }
    }

    /// One frame more, of so many bytes and records.
    pub(crate) fn grown(self, len: u64, count: u64) -> Extent
        requires small { self.gate + 1 + len < 2 ^ 62 }
        requires counted { count ≤ len }
        ensures gate { result.gate ≡ self.gate + 1 + len }
        ensures count { result.count ≡ self.count + count }
        ensures last { result.last ≡ Some (record { byte = self.gate; index = self.count }) }
    {
        Extent {
            gate: self.gate + 1 + len,
            count: self.count + count,
            last: Some(Place {
                byte: self.gate,
                index: self.count,
            }),
        }
    }

    /// These frames more, each with a gate behind it. `None` where there are some and the file would pass its greatest size.
    pub(crate) fn behind(self, frames: &[Frame]) -> Option<Extent>
        ensures limit { MatchOption result (LacksRoom (self.gate + 1) frames.now)
            (λ _. HasRoom (self.gate + 1) frames.now) }
        ensures count { IfSome result (λ e. e.count ≡ self.count + record_count frames.now) }
        ensures gate { IfSome result (λ e. e.gate ≡ self.gate + length (closed_frames frames.now)) }
        ensures frames { IfSome result (λ e. (before lists : List (List Record))
            → IsExtent self before → AreFrames frames.now lists → IsExtent e (before ++ lists)) }
    {
        if frames.is_empty() {
            return Some(self);
        }
        let mut extent = self;
        for frame in frames {
            if FILE_LIMIT < extent.gate + 1 {
                return None;
            }
            extent = extent.grown(frame.bytes().len() as u64, frame.count() as u64);
        }
        if FILE_LIMIT < extent.gate + 1 {
            return None;
        }
        Some(extent)
    }
}
