// A log's file that is only read, all at once.
ghost use Rattle.std.specs.Prelude.{◌≡◌, ◌≢◌, ◌+◌, ◌^◌, ◌<◌, ◌≤◌, ◌++◌, ℕ, length, take, drop, IfOk, IfErr, IfSome, OnOk, OnErr};
ghost use Rattle.samza_model.specs.Counters.{Rose};
ghost use Rattle.samza_model.specs.Logs.{HasLog, HasNoLog};
ghost use Rattle.topic_log.specs.Damage.{IsDamage, IsDamagedAt};
ghost use Rattle.topic_log.specs.Faults.{IsListFault, IsReadFault};
ghost use Rattle.topic_log.specs.Lists.{IsListed};

use crate::LogFault;
use disk_model::Shelf;
use log_frame::{Decoded, FrameFault, OPEN_GATE, decode};
use samza_model::Record;
use std::alloc::Global;

/// The frame behind the gate that stands here, or `None` where the gate is closed.
fn batch_in(alloc: Global, bytes: &[u8], gate: usize) -> Result<Option<Decoded>, LogFault>
    requires gate { gate ≤ length bytes.now }
    requires small { length bytes.now < 2 ^ 62 }
    ensures within { IfOk result (λ o. IfSome o (λ d. gate + 1 + d.used ≤ length bytes.now)) }
    ensures batch { IfOk result (λ o. IsListed o (drop gate bytes.now)) }
    ensures damaged { IfErr result (λ e. (at : ℕ) → e ≡ LogFault.Damaged at
        → IsDamage (drop gate bytes.now) gate at) }
    ensures fault { IfErr result IsListFault }
{
    if bytes.len() == gate {
        return Err(LogFault::Damaged { at: gate as u64 });
    }
    let (_, rest) = bytes.split_at(gate);
    if rest[0] != OPEN_GATE {
        return Ok(None);
    }
    let (_, behind) = rest.split_at(1);
    match decode(alloc, behind) {
        Ok(decoded) => Ok(Some(decoded)),
        Err(FrameFault::Bad { at }) => Err(LogFault::Damaged {
            at: gate as u64 + 1 + at,
        }),
        Err(FrameFault::NoMemory) => Err(LogFault::NoMemory),
    }
}

/// The records of a log's bytes.
fn records_in(alloc: Global, bytes: &[u8]) -> Result<Vec<Record>, LogFault>
    requires { length bytes.now < 2 ^ 62 }
    ensures log { IfOk result (λ v. HasLog bytes.now v.items) }
    ensures damaged { IfErr result (λ e. (at : ℕ) → e ≡ LogFault.Damaged at
        → IsDamagedAt bytes.now at) }
    ensures fault { IfErr result IsListFault }
{
    let mut records = Vec::new(alloc);
    if bytes.len() < 2 {
        return Ok(records);
    }
    let mut gate = 0;
    'gates: loop {
        let decoded = match batch_in(alloc, bytes, gate) {
            Ok(Some(decoded)) => decoded,
            Ok(None) => return Ok(records),
            Err(fault) => return Err(fault),
        };
        let Decoded {
            records: batch,
            used,
        } = decoded;
        gate += 1 + used as usize;
        let mut more = batch.into_vec();
        if records.append(&mut more).is_err() {
            return Err(LogFault::NoMemory);
        }
    }
}

/// Reads so many bytes, from the first one on.
fn read_whole<S: Shelf>(shelf: &mut S, size: u64, bytes: &mut Vec<u8>) -> Result<(), LogFault>
    requires { S.tells → size ≤ length (S.bytes shelf.old) }
    ensures bytes { OnOk result (S.tells
        → bytes.new.items ≡ take size (drop 0 (S.bytes shelf.old))) }
    ensures len { OnOk result (length bytes.new.items ≡ size) }
    ensures device { IfErr result (λ e. e ≡ LogFault.Device
        → Rose (S.fault_count shelf.old) (S.fault_count shelf.new)) }
    ensures fault { IfErr result IsReadFault }
    ensures stays { S.tells → S.bytes shelf.new ≡ S.bytes shelf.old }
    ensures later { S.fault_count shelf.old ≤ S.fault_count shelf.new }
    ensures name { S.name shelf.new ≡ S.name shelf.old }
    ensures file { S.file shelf.new ≡ S.file shelf.old }
{
    bytes.resize(size as usize, 0)?;
    match shelf.read_at(0, bytes.as_mut_slice()) {
        Ok(()) => Ok(()),
        Err(_) => Err(LogFault::Device),
    }
}

/// All records of a log's file, which isn't changed.
pub fn read_shelf<S: Shelf>(alloc: Global, shelf: &mut S) -> Result<Vec<Record>, LogFault>
    ensures log { IfOk result (λ records. S.tells → HasLog (S.bytes shelf.old) records.items) }
    ensures damaged { IfErr result (λ e. (at : ℕ) → e ≡ LogFault.Damaged at → S.tells
        → IsDamagedAt (S.bytes shelf.old) at × HasNoLog (S.bytes shelf.old)) }
    ensures device { IfErr result (λ e. e ≡ LogFault.Device
        → Rose (S.fault_count shelf.old) (S.fault_count shelf.new)) }
    ensures never { IfErr result (λ e. (e ≢ LogFault.Limit) × (e ≢ LogFault.Broken)) }
    ensures bytes { S.tells → S.bytes shelf.new ≡ S.bytes shelf.old }
    ensures later { S.fault_count shelf.old ≤ S.fault_count shelf.new }
    ensures name { S.name shelf.new ≡ S.name shelf.old }
    ensures file { S.file shelf.new ≡ S.file shelf.old }
{
    let size = match shelf.size() {
        Ok(size) => size,
        Err(_) => return Err(LogFault::Device),
    };
    let mut bytes = Vec::new(alloc);
    if let Err(fault) = read_whole(shelf, size, &mut bytes) {
        return Err(fault);
    }
    records_in(alloc, bytes.as_slice())
}
