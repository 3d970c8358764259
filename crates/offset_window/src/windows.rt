// The offsets from the first one that isn't complete up to the next one to be delivered.
ghost use Rattle.std.specs.Prelude.{◌≡◌, ◌↔◌, ◌+◌, ◌-◌, ◌^◌, ◌<◌, ◌≤◌, ◌∷◌, ◌++◌, [], length, drop, true, false, IfOk, OnOk, OnErr, IsTrue, is_ok, vec_capacity};
ghost use Rattle.std.specs.List.{prefix_len};
ghost use Rattle.offset_window.specs.Windows.{next_of, is_inside, is_done, delivered, completed};

use samza_model::NoMemory;
use std::alloc::Global;
use std::marker::Model;

/// The next offset would be too far from the first one that isn't complete.
#[derive(Clone, Copy, Debug, PartialEq, Eq)]
pub struct Spanned;

/// Why an offset can't be completed.
#[derive(Clone, Copy, Debug, PartialEq, Eq)]
pub enum WindowFault {
    /// It isn't between the first one that isn't complete and the next one.
    Stranger,
    /// It is complete.
    Twice,
}

/// For each offset from `low` to `next` whether it is complete. Contracts see `low`, that list, and the span.
#[derive(Drop)]
pub struct OffsetWindow {
    low: u64,
    span: u32,
    done: Vec<bool>,
}

impl Model for OffsetWindow {
    ghost use Rattle.std.specs.Prelude.{length, vec_capacity};
    ghost use Rattle.offset_window.specs.Windows.{Window, IsWindow};

    ghost Value = { Window };

    ghost view = { λ w. record { low = w.low; done = w.done.items; span = w.span } };

    ghost invariant = { λ w. IsWindow w.low w.span (length w.done.items) (vec_capacity w.done) };
}

impl OffsetWindow {
    /// A window in which nothing was delivered. It has room for its whole span.
    pub fn new(alloc: Global, start: u64, span: u32) -> Result<OffsetWindow, NoMemory>
        ensures { IfOk result (λ w. w ≡ record { low = start; done = []; span = span }) }
    {
        Ok(OffsetWindow {
            low: start,
            span,
            done: Vec::with_capacity(alloc, span as usize)?,
        })
    }

    /// The first offset that isn't complete.
    pub fn low(&self) -> u64
        ensures { result ≡ self.now.low }
    {
        self.low
    }

    /// The next offset to be delivered.
    pub fn next(&self) -> u64
        ensures next { result ≡ next_of self.now }
        ensures short { length self.now.done ≤ self.now.span }
    {
        self.low + self.done.len() as u64
    }

    /// Whether the next offset is as far from the first one that isn't complete as it may be.
    pub fn is_spanned(&self) -> bool
        ensures spanned { IsTrue result ↔ (length self.now.done ≡ self.now.span) }
        ensures short { length self.now.done ≤ self.now.span }
    {
        self.done.len() == self.span as usize
    }

    /// Delivers the next offset.
    pub fn deliver(&mut self) -> Result<u64, Spanned>
        requires { next_of self.old < 2 ^ 64 - 1 }
        ensures offset { IfOk result (λ offset. offset ≡ next_of self.old) }
        ensures ok { OnOk result (self.new ≡ delivered self.old) }
        ensures err { OnErr result (self.new ≡ self.old) }
        ensures spanned { (is_ok result ≡ false) ↔ (length self.old.done ≡ self.old.span) }
    {
        if self.done.len() == self.span as usize {
            return Err(Spanned);
        }
        let offset = self.next();
        self.done.push_reserved(false);
        Ok(offset)
    }

    /// Completes an offset.
    pub fn complete(&mut self, offset: u64) -> Result<(), WindowFault>
        ensures ok { OnOk result (self.new ≡ completed self.old offset) }
        ensures err { OnErr result (self.new ≡ self.old) }
        ensures stranger { (result ≡ Err WindowFault.Stranger)
            ↔ (is_inside self.old offset ≡ false) }
        ensures twice { (result ≡ Err WindowFault.Twice)
            ↔ (is_inside self.old offset ≡ true) × (is_done self.old offset ≡ true) }
    {
        if offset < self.low || self.next() <= offset {
            return Err(WindowFault::Stranger);
        }
        let place = (offset - self.low) as usize;
        if self.done[place] {
            return Err(WindowFault::Twice);
        }
        self.done[place] = true;
        let count = retire(&mut self.done);
        self.low += count as u64;
        Ok(())
    }
}

/// Takes the complete ones out in front of the first that isn't.
fn retire(done: &mut Vec<bool>) -> usize
    ensures count { result ≡ prefix_len (λ d. d) done.old.items }
    ensures rest { done.new.items ≡ drop result done.old.items }
    ensures len { result + length done.new.items ≡ length done.old.items }
    ensures capacity { vec_capacity done.new ≡ vec_capacity done.old }
{
    let count = leading(done.as_slice());
    let rest = done.len() - count;
    done.rotate_left(count);
    done.truncate(rest);
    count
}

/// How many are complete in front of the first that isn't.
fn leading(done: &[bool]) -> usize
    ensures count { result ≡ prefix_len (λ d. d) done.now }
    ensures bound { result ≤ length done.now }
{
    for i in 0..done.len() {
        if !done[i] {
            return i;
        }
    }
    done.len()
}
