// The disk's calls, each with what it leaves at any moment. They answer `Device` and no other fault.
ghost use Rattle.std.specs.Prelude.{◌≡◌, ◌+◌, ◌≤◌, length, take, drop, IfOk, IfErr, OnOk, OnErr};
ghost use Rattle.samza_model.specs.Counters.{Rose};
ghost use Rattle.disk_model.specs.Images.{Written, Shortened, TornWrite, TornCut, Only};
ghost use Rattle.topic_log.specs.Moves.{Moves, Rests, Same};

use crate::LogFault;
use disk_model::Disk;

pub(crate) fn size<D: Disk>(disk: &mut D, file: u32) -> Result<u64, LogFault>
    ensures size { IfOk result (λ n. D.tells → n ≡ length (D.reads disk.old file)) }
    ensures rests { D.tells
        → Rests D.reads D.call_number D.images D.images_since disk.old disk.new }
    ensures fault { IfErr result (λ e. e ≡ LogFault.Device) }
    ensures device { OnErr result (Rose (D.fault_count disk.old) (D.fault_count disk.new)) }
    ensures later { D.fault_count disk.old ≤ D.fault_count disk.new }
    ensures name { D.name disk.new ≡ D.name disk.old }
{
    match disk.size(file) {
        Ok(size) => Ok(size),
        Err(_) => Err(LogFault::Device),
    }
}

pub(crate) fn read<D: Disk>(
    disk: &mut D,
    file: u32,
    at: u64,
    into: &mut [u8],
) -> Result<(), LogFault>
    requires { D.tells → at + length into.old ≤ length (D.reads disk.old file) }
    ensures bytes { OnOk result (D.tells
        → into.new ≡ take (length into.old) (drop at (D.reads disk.old file))) }
    ensures rests { D.tells
        → Rests D.reads D.call_number D.images D.images_since disk.old disk.new }
    ensures fault { IfErr result (λ e. e ≡ LogFault.Device) }
    ensures device { OnErr result (Rose (D.fault_count disk.old) (D.fault_count disk.new)) }
    ensures later { D.fault_count disk.old ≤ D.fault_count disk.new }
    ensures name { D.name disk.new ≡ D.name disk.old }
{
    match disk.read_at(file, at, into) {
        Ok(()) => Ok(()),
        Err(_) => Err(LogFault::Device),
    }
}

pub(crate) fn write<D: Disk>(disk: &mut D, file: u32, at: u64, bytes: &[u8]) -> Result<(), LogFault>
    requires { D.tells → at ≤ length (D.reads disk.old file) }
    ensures written { OnOk result (D.tells
        → Written file at bytes.now (D.reads disk.old) (D.reads disk.new)) }
    ensures moves { D.tells
        → Moves D.reads D.call_number D.images D.images_since disk.old disk.new
        (TornWrite file at (length bytes.now)) }
    ensures fault { IfErr result (λ e. e ≡ LogFault.Device) }
    ensures device { OnErr result (Rose (D.fault_count disk.old) (D.fault_count disk.new)) }
    ensures later { D.fault_count disk.old ≤ D.fault_count disk.new }
    ensures name { D.name disk.new ≡ D.name disk.old }
{
    match disk.write_at(file, at, bytes) {
        Ok(()) => Ok(()),
        Err(_) => Err(LogFault::Device),
    }
}

pub(crate) fn cut<D: Disk>(disk: &mut D, file: u32, size: u64) -> Result<(), LogFault>
    requires { D.tells → size ≤ length (D.reads disk.old file) }
    ensures cut { OnOk result (D.tells
        → Shortened file size (D.reads disk.old) (D.reads disk.new)) }
    ensures moves { D.tells
        → Moves D.reads D.call_number D.images D.images_since disk.old disk.new
        (TornCut file size) }
    ensures fault { IfErr result (λ e. e ≡ LogFault.Device) }
    ensures device { OnErr result (Rose (D.fault_count disk.old) (D.fault_count disk.new)) }
    ensures later { D.fault_count disk.old ≤ D.fault_count disk.new }
    ensures name { D.name disk.new ≡ D.name disk.old }
{
    match disk.cut(file, size) {
        Ok(()) => Ok(()),
        Err(_) => Err(LogFault::Device),
    }
}

pub(crate) fn sync<D: Disk>(disk: &mut D, file: u32) -> Result<(), LogFault>
    ensures durable { OnOk result (D.tells → Only file (D.reads disk.old) (D.images disk.new)) }
    ensures reads { D.tells → D.reads disk.new ≡ D.reads disk.old }
    ensures moves { D.tells
        → Moves D.reads D.call_number D.images D.images_since disk.old disk.new Same }
    ensures fault { IfErr result (λ e. e ≡ LogFault.Device) }
    ensures device { OnErr result (Rose (D.fault_count disk.old) (D.fault_count disk.new)) }
    ensures later { D.fault_count disk.old ≤ D.fault_count disk.new }
    ensures name { D.name disk.new ≡ D.name disk.old }
{
    match disk.sync(file) {
        Ok(()) => Ok(()),
        Err(_) => Err(LogFault::Device),
    }
}
