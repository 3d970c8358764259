// A frame in memory.
ghost use Rattle.std.specs.Prelude.{◌≡◌, ◌≤◌, ◌-◌, ◌++◌, ◌∷◌, [], List, length, take};
ghost use Rattle.samza_model.specs.declared.messages.Record.{Record};
ghost use Rattle.log_frame.specs.Frame.{IsFrame, IsStored};

use std::marker::Model;

/// The bytes of a frame, the closed gate behind them, and the number of its records. Contracts see its bytes without the
/// gate, and the number.
#[derive(Debug, Drop)]
pub struct Frame {
    gated: Vec<u8>,
    count: u32,
}

impl Model for Frame {
    ghost use Rattle.log_frame.specs.Frame.{FrameView};

    ghost Value = { FrameView };

    ghost use Rattle.std.specs.Prelude.{◌-◌, length, take};
    ghost use Rattle.log_frame.specs.Frame.{IsStored};

    ghost view = { λ f. record { bytes = take (length f.gated.items - 1) f.gated.items; count = f.count } };

    ghost invariant = { λ f. IsStored f.gated.items f.count };
}

impl Frame {
    /// The frame whose bytes these are, with the gate behind them.
    pub(crate) fn of(gated: Vec<u8>, count: u32) -> Frame
        requires { IsStored gated.items count }
        ensures bytes { result.bytes ≡ take (length gated.items - 1) gated.items }
        ensures count { result.count ≡ count }
    {
        Frame { gated, count }
    }

    /// The frame's bytes, at most 272,662,536.
    pub fn bytes(&self) -> &[u8]
        ensures value { result.now ≡ self.now.bytes }
        ensures short { length result.now ≤ 272662536 }
        ensures framed { (records : List Record) × IsFrame self.now records }
    {
        self.gated.split_at(self.gated.len() - 1).0
    }

    /// The number of its records, 1 to 4,096.
    pub fn count(&self) -> u32
        ensures value { result ≡ self.now.count }
        ensures some { 1 ≤ result }
        ensures few { result ≤ 4096 }
    {
        self.count
    }

    /// Its bytes followed by a closed gate, which is the byte 0x43.
    pub fn gated(&self) -> &[u8]
        ensures value { result.now ≡ self.now.bytes ++ 0x43 ∷ [] }
        ensures short { length self.now.bytes ≤ 272662536 }
        ensures framed { (records : List Record) × IsFrame self.now records }
    {
        self.gated.as_slice()
    }
}
