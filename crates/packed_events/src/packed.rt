// The list of events.
ghost use Rattle.std.specs.Prelude.{◌<◌, ◌+◌, ◌-◌, ◌≡◌, ◌≤◌, ◌++◌, ◌∷◌, [], length, take, OnOk, OnErr, IfOk, filter};
ghost use Rattle.samza_model.specs.declared.events.Event.{Event};
ghost use Rattle.samza_model.specs.Journals.{belongs};
ghost use Rattle.packed_events.specs.Packed.{bytes_of, event_head, event_bytes, delivered_of};

use crate::heads::Head;
use crate::parts::{act_parts, answer_parts, put_two, value_parts};
use crate::seen::{belongs_head, delivered_head, head_len};
use samza_model::{Act, Answer, Failure, NoMemory, Record};
use std::alloc::Global;
use std::marker::Model;

/// A list of events. Contracts see the list, oldest first.
#[derive(Drop)]
pub struct Packed {
    heads: Vec<Head>,
    bytes: Vec<u8>,
}

impl Model for Packed {
    ghost use Rattle.std.specs.Prelude.{List};
    ghost use Rattle.samza_model.specs.declared.events.Event.{Event};
    ghost use Rattle.packed_events.specs.Packed.{events_in, IsPacked};

    ghost Value = { List Event };

    ghost view = { λ p. events_in p.heads.items p.bytes.items };

    ghost invariant = { λ p. IsPacked p.heads.items p.bytes.items };
}

impl Packed {
    #[tactic(auto, unfolding(crate::specs::Packed::events_in, crate::specs::Packed::heads_of, crate::specs::Packed::bytes_of))]
    pub fn new(alloc: Global) -> Packed
        ensures { result ≡ [] }
    {
        Packed {
            heads: Vec::new(alloc),
            bytes: Vec::new(alloc),
        }
    }

    /// A callback's act, made and answered.
    pub fn push_did(
        &mut self,
        number: u64,
        place: u32,
        act: &Act,
        answer: &Answer,
    ) -> Result<(), NoMemory>
        ensures ok { OnOk result (self.new ≡ self.old ++ Event.Did number place act.now answer.now
            ∷ []) }
        ensures err { OnErr result (self.new ≡ self.old) }
    {
        let (act, act_key, act_value) = act_parts(act);
        let (answer, answer_key, answer_value) = answer_parts(answer);
        self.heads.reserve(1)?;
        put_four(
            &mut self.bytes,
            act_key,
            act_value,
            answer_key,
            answer_value,
        )?;
        self.heads.push_reserved(Head::Did {
            number,
            place,
            act,
            answer,
        });
        Ok(())
    }

    /// A callback begins.
    pub fn push_deliver(
        &mut self,
        number: u64,
        input: u32,
        offset: u64,
        body: &Record,
        moment: u64,
    ) -> Result<(), NoMemory>
        ensures ok { OnOk result (self.new ≡ self.old
            ++ Event.Deliver number input offset body.now moment ∷ []) }
        ensures err { OnErr result (self.new ≡ self.old) }
    {
        let key = body.key.bytes();
        let (value, bytes) = value_parts(&body.value);
        self.heads.reserve(1)?;
        put_two(&mut self.bytes, key, bytes)?;
        self.heads.push_reserved(Head::Deliver {
            number,
            input,
            offset,
            key: key.len(),
            value,
            moment,
        });
        Ok(())
    }

    /// A callback is done.
    pub fn push_complete(&mut self, number: u64) -> Result<(), NoMemory>
        ensures ok { OnOk result (self.new ≡ self.old ++ Event.Complete number ∷ []) }
        ensures err { OnErr result (self.new ≡ self.old) }
    {
        self.heads.push(Head::Complete(number))?;
        Ok(())
    }

    /// A callback or a window failed.
    pub fn push_failed(&mut self, failure: Failure) -> Result<(), NoMemory>
        ensures ok { OnOk result (self.new ≡ self.old ++ Event.Failed failure ∷ []) }
        ensures err { OnErr result (self.new ≡ self.old) }
    {
        self.heads.push(Head::Failed(failure))?;
        Ok(())
    }

    /// A window's act, made and answered.
    pub fn push_window_did(
        &mut self,
        place: u32,
        act: &Act,
        answer: &Answer,
    ) -> Result<(), NoMemory>
        ensures ok { OnOk result (self.new ≡ self.old ++ Event.WindowDid place act.now answer.now
            ∷ []) }
        ensures err { OnErr result (self.new ≡ self.old) }
    {
        let (act, act_key, act_value) = act_parts(act);
        let (answer, answer_key, answer_value) = answer_parts(answer);
        self.heads.reserve(1)?;
        put_four(
            &mut self.bytes,
            act_key,
            act_value,
            answer_key,
            answer_value,
        )?;
        self.heads
            .push_reserved(Head::WindowDid { place, act, answer });
        Ok(())
    }

    /// A window is done.
    pub fn push_window_ended(&mut self) -> Result<(), NoMemory>
        ensures ok { OnOk result (self.new ≡ self.old ++ Event.WindowEnded ∷ []) }
        ensures err { OnErr result (self.new ≡ self.old) }
    {
        self.heads.push(Head::WindowEnded)?;
        Ok(())
    }

    /// Takes the newest event away, if there is one. It takes no memory.
    pub fn pop(&mut self)
        ensures { self.new ≡ take (length self.old - 1) self.old }
    {
        let count = self.heads.len();
        if count == 0 {
            return;
        }
        let last = self.heads[count - 1];
        let all = self.bytes.len();
        let rest = all - head_len(&last, all);
        self.heads.truncate(count - 1);
        self.bytes.truncate(rest);
    }

    /// The number, the input and the offset of a callback that begins at this place of the list.
    pub fn delivered(&self, i: usize) -> Option<(u64, u32, u64)>
        requires { i < length self.now }
        ensures { (e : Event) × (take (i + 1) self.now ≡ take i self.now ++ e ∷ [])
            × (result ≡ delivered_of e) }
    {
        delivered_head(&self.heads[i])
    }

    /// Its number of events, and of their bytes.
    pub fn lens(&self) -> (usize, usize)
        ensures events { result.0 ≡ length self.now }
        ensures bytes { result.1 ≡ length (bytes_of self.now) }
    {
        (self.heads.len(), self.bytes.len())
    }

    /// Leaves the first so many events, of so many bytes. It takes no memory.
    pub fn cut(&mut self, events: usize, bytes: usize)
        requires { bytes ≡ length (bytes_of (take events self.old)) }
        ensures { self.new ≡ take events self.old }
    {
        self.heads.truncate(events);
        self.bytes.truncate(bytes);
    }

    /// The events that belong to one of these callbacks, in a list of their own.
    pub fn kept(&self, alloc: Global, numbers: &[u64]) -> Result<Packed, NoMemory>
        ensures { IfOk result (λ made. made ≡ filter (belongs numbers.now) self.now) }
    {
        let mut made = Packed::new(alloc);
        if numbers.is_empty() {
            return Ok(made);
        }
        let mut from = 0;
        for i in 0..self.heads.len() {
            let head = self.heads[i];
            let behind = from + head_len(&head, self.bytes.len());
            if belongs_head(&head, numbers) {
                made.push_raw(head, &self.bytes.as_slice()[from..behind])?;
            }
            from = behind;
        }
        Ok(made)
    }

    /// An event by its head and its bytes.
    fn push_raw(&mut self, head: Head, bytes: &[u8]) -> Result<(), NoMemory>
        requires { (e : Event) × (head ≡ event_head e) × (bytes.now ≡ event_bytes e) }
        ensures ok { OnOk result ((e : Event) → head ≡ event_head e → bytes.now ≡ event_bytes e
            → self.new ≡ self.old ++ e ∷ []) }
        ensures err { OnErr result (self.new ≡ self.old) }
    {
        self.heads.reserve(1)?;
        self.bytes.extend_from_slice(bytes)?;
        self.heads.push_reserved(head);
        Ok(())
    }

    /// Lets all events go. It takes no memory.
    #[tactic(auto, unfolding(crate::specs::Packed::events_in, crate::specs::Packed::heads_of, crate::specs::Packed::bytes_of))]
    pub fn clear(&mut self)
        ensures { self.new ≡ [] }
    {
        self.heads.clear();
        self.bytes.clear();
    }
}

/// Puts all four behind the bytes, or leaves them.
fn put_four(bytes: &mut Vec<u8>, a: &[u8], b: &[u8], c: &[u8], d: &[u8]) -> Result<(), NoMemory>
    ensures ok { OnOk result (bytes.new.items ≡ bytes.old.items ++ ((a.now ++ b.now) ++ (c.now
        ++ d.now))) }
    ensures err { OnErr result (bytes.new.items ≡ bytes.old.items) }
{
    let before = bytes.len();
    put_two(bytes, a, b)?;
    match put_two(bytes, c, d) {
        Ok(()) => Ok(()),
        Err(fault) => {
            bytes.truncate(before);
            Err(fault)
        }
    }
}
