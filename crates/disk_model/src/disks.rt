// Files by number that are read, written, cut and synced, and what a crash may leave of them.
ghost use Rattle.std.specs.Prelude.{◌≡◌, ◌+◌, ◌-◌, ◌^◌, ◌≤◌, ℕ, [], max, length, take, drop, IfOk, OnOk, OnErr};
ghost use Rattle.samza_model.specs.Counters.{next_number};
ghost use Rattle.samza_model.specs.Files.{Image};
ghost use Rattle.disk_model.specs.declared.names.DiskName.{DiskName};
ghost use Rattle.disk_model.specs.Images.{Written, Shortened, TornWrite, TornCut, MayMake, Follows, Keeps, Stays, Only, Joins, HasCause};

use crate::DiskFault;

/// Files by number. A file never written has no bytes. No call takes memory.
///
/// A write or a cut that failed counts as made in part; a sync that failed changes nothing. Where the number of calls
/// stands at its end (2^64 - 1), each further call answers `Failed` and changes nothing.
pub trait Disk: Send + Drop {
    /// Holds where the disk tells its bytes. What is said of bytes and images is said where this holds.
    ghost tells: { Type 0 };

    ghost name: { Self → DiskName };

    /// The bytes of each file, as a read gives them.
    ghost reads: { Self → Image };

    /// One more than the greatest number of a file that is there, and 0 where there is none.
    ghost file_count: { Self → ℕ };

    /// What a crash now may leave.
    ghost images: { Self → Image → Type 0 };

    /// What a crash at some moment since this call number might have left.
    ghost images_since: { Self → ℕ → Image → Type 0 };

    ghost call_number: { Self → ℕ };

    ghost fault_count: { Self → ℕ };

    /// A file's size in bytes.
    fn size(&mut self, file: u32) -> Result<u64, DiskFault>
        ensures size { IfOk result (λ n. tells → n ≡ length (reads self.old file)) }
        ensures reads { tells → reads self.new ≡ reads self.old }
        ensures there { tells → file_count self.new ≡ file_count self.old }
        ensures crash { tells → Keeps (images self.old) (images self.new) }
        ensures none_lost { tells → Keeps (images self.new) (images self.old) }
        ensures time { tells → Joins (call_number self.old) (images_since self.old)
            (images_since self.new) (images self.new) }
        ensures called { call_number self.new ≡ next_number (call_number self.old) }
        ensures cause { HasCause (call_number self.old) (fault_count self.old)
            (fault_count self.new) result }
        ensures name { name self.new ≡ name self.old };

    /// Fills the buffer from this place of the file.
    fn read_at(&mut self, file: u32, at: u64, into: &mut [u8]) -> Result<(), DiskFault>
        requires { tells → at + length into.old ≤ length (reads self.old file) }
        ensures bytes { OnOk result (tells
            → into.new ≡ take (length into.old) (drop at (reads self.old file))) }
        ensures reads { tells → reads self.new ≡ reads self.old }
        ensures there { tells → file_count self.new ≡ file_count self.old }
        ensures crash { tells → Keeps (images self.old) (images self.new) }
        ensures none_lost { tells → Keeps (images self.new) (images self.old) }
        ensures time { tells → Joins (call_number self.old) (images_since self.old)
            (images_since self.new) (images self.new) }
        ensures called { call_number self.new ≡ next_number (call_number self.old) }
        ensures cause { HasCause (call_number self.old) (fault_count self.old)
            (fault_count self.new) result }
        ensures name { name self.new ≡ name self.old };

    /// Writes over what is there, and past the end. Until a sync a crash may leave any bytes in the range, and any size
    /// between.
    fn write_at(&mut self, file: u32, at: u64, bytes: &[u8]) -> Result<(), DiskFault>
        requires { tells → at ≤ length (reads self.old file) }
        ensures written { OnOk result (tells
            → Written file at bytes.now (reads self.old) (reads self.new)) }
        ensures there { tells → MayMake file (file_count self.old) (file_count self.new) }
        ensures made { OnOk result (tells
            → file_count self.new ≡ max (file_count self.old) (file + 1)) }
        ensures unmade { tells → call_number self.old ≡ 2 ^ 64 - 1
            → file_count self.new ≡ file_count self.old }
        ensures crash { tells
            → Follows (TornWrite file at (length bytes.now)) (images self.old) (images self.new) }
        ensures spent { tells → call_number self.old ≡ 2 ^ 64 - 1
            → Stays (reads self.old) (reads self.new) (images self.old) (images self.new) }
        ensures time { tells → Joins (call_number self.old) (images_since self.old)
            (images_since self.new) (images self.new) }
        ensures called { call_number self.new ≡ next_number (call_number self.old) }
        ensures cause { HasCause (call_number self.old) (fault_count self.old)
            (fault_count self.new) result }
        ensures name { name self.new ≡ name self.old };

    /// Cuts a file to a size. Until a sync a crash may leave any size between, with any bytes behind the new size.
    fn cut(&mut self, file: u32, size: u64) -> Result<(), DiskFault>
        requires { tells → size ≤ length (reads self.old file) }
        ensures cut { OnOk result (tells → Shortened file size (reads self.old) (reads self.new)) }
        ensures there { tells → file_count self.new ≡ file_count self.old }
        ensures crash { tells → Follows (TornCut file size) (images self.old) (images self.new) }
        ensures spent { tells → call_number self.old ≡ 2 ^ 64 - 1
            → Stays (reads self.old) (reads self.new) (images self.old) (images self.new) }
        ensures time { tells → Joins (call_number self.old) (images_since self.old)
            (images_since self.new) (images self.new) }
        ensures called { call_number self.new ≡ next_number (call_number self.old) }
        ensures cause { HasCause (call_number self.old) (fault_count self.old)
            (fault_count self.new) result }
        ensures name { name self.new ≡ name self.old };

    /// After it, a crash leaves of this file what a read gives.
    fn sync(&mut self, file: u32) -> Result<(), DiskFault>
        ensures durable { OnOk result (tells → Only file (reads self.old) (images self.new)) }
        ensures reads { tells → reads self.new ≡ reads self.old }
        ensures there { tells → file_count self.new ≡ file_count self.old }
        ensures crash { tells → Keeps (images self.old) (images self.new) }
        ensures none_lost { OnErr result (tells → Keeps (images self.new) (images self.old)) }
        ensures time { tells → Joins (call_number self.old) (images_since self.old)
            (images_since self.new) (images self.new) }
        ensures called { call_number self.new ≡ next_number (call_number self.old) }
        ensures cause { HasCause (call_number self.old) (fault_count self.old)
            (fault_count self.new) result }
        ensures name { name self.new ≡ name self.old };

    /// The number of calls so far, but for `calls` and `faults`.
    fn calls(&self) -> u64
        ensures { result ≡ call_number self.now };

    /// The number of faults so far.
    fn faults(&self) -> u64
        ensures { result ≡ fault_count self.now };

    /// A file at or above the count isn't there, so it has no bytes.
    ghost none_above: { (disk : Self) (f : ℕ) → tells → file_count disk ≤ f → reads disk f ≡ [] };

    /// What a read gives is one of the images.
    ghost read_is_image: { (disk : Self) → tells → images disk (reads disk) };

    /// An image now is an image since each number up to now.
    ghost counts_now: { (disk : Self) (k : ℕ) (c : Image) → tells → k ≤ call_number disk → images disk c → images_since disk k c };

    /// Since the number now there is no other.
    ghost only_now: { (disk : Self) (c : Image) → tells → images_since disk (call_number disk) c → images disk c };
}
