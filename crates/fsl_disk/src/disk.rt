ghost use Rattle.std.specs.Prelude.{◌≡◌, ◌+◌, ◌^◌, ◌<◌, ◌≤◌, ℕ, List, length, take, drop, IsTrue, Some, OnOk, IfOk};
ghost use Rattle.fsl_order.specs.Causes.{HasCause};
ghost use Rattle.fsl_disk.specs.Disk.{DiskState, IsModelled, Told, Calls, Same, Torn, CutShort, Only, written};

use fsl_outside::Failed;

// The first length that no file reaches.
pub(crate) const MAX_LEN: u64 = 1 << 63;

/// A disk holds one file, as a program sees it and as a crash leaves it.
///
/// A disk that meets the disk model promises: after a `sync` that succeeded, a crash leaves what a read gives. Until the
/// next such `sync`, each byte of a range that was written or cut may hold any value, and the length lies between the
/// least and the greatest length since that `sync`; the other bytes stay. What a read gives is one of these images.
///
/// `state` has what a crash may leave now (`images`), and what a crash at some moment from an earlier one on might have
/// left (`since`). The moments within a call are among them: an image after a call comes from one before it by a step that
/// may have stopped anywhere, and a crash within the call leaves one of these. A call that failed leaves what the same call
/// may leave where it is stopped at any moment within it, so its step is that of a call that was done.
///
/// Whether a disk tells its contents, and whether it meets the model, are facts of the disk that no call changes.
/// What a caller owes is owed where contents are told.
///
/// Errors: each call answers `Failed` only where it raised the count of faults. A call that answers otherwise leaves the
/// count.
pub trait Disk {
    /// Clauses see what a read gives, what a crash may leave, and the faults.
    ghost state: { Self → DiskState };

    /// Returns how many calls failed, up to the last value of `u64`. It never falls.
    fn faults(&self) -> u64
        ensures { result ≡ (state self.now).faults };

    /// Returns the length in bytes, which is below 2^63.
    fn len(&mut self) -> Result<u64, Failed>
        ensures answer { IfOk result (λ len. (len < 2 ^ 63) × Told (state self.old) (λ held. len ≡ length held)) }
        ensures contents { (state self.new).contents ≡ (state self.old).contents }
        ensures call { Calls Same (state self.old) (state self.new) }
        ensures cause { HasCause (state self.old).faults (state self.new).faults result };

    /// Fills `into` with the bytes from `at` on. The caller takes care that they lie inside the length.
    fn read_at(&mut self, at: u64, into: &mut [u8]) -> Result<(), Failed>
        requires { Told (state self.old) (λ held. at + length into.old ≤ length held) }
        ensures answer { OnOk result (Told (state self.old) (λ held. into.new ≡ take (length into.old) (drop at held))) }
        ensures contents { (state self.new).contents ≡ (state self.old).contents }
        ensures call { Calls Same (state self.old) (state self.new) }
        ensures cause { HasCause (state self.old).faults (state self.new).faults result };

    /// Writes `bytes` from `at` on, over what is there and past the end. `at` is at most the length. A write that would end
    /// at 2^63 or above fails. Until a sync, a crash may leave any bytes in its range.
    fn write_at(&mut self, at: u64, bytes: &[u8]) -> Result<(), Failed>
        requires { Told (state self.old) (λ held. at ≤ length held) }
        ensures fits { OnOk result (at + length bytes.now < 2 ^ 63) }
        ensures written { OnOk result (Told (state self.old) (λ held. (state self.new).contents ≡ Some (written at bytes.now held))) }
        ensures call { Calls (Torn at (length bytes.now)) (state self.old) (state self.new) }
        ensures cause { HasCause (state self.old).faults (state self.new).faults result };

    /// Cuts the contents to `len` bytes, which is at most the length. Until a sync, a crash may leave more, with any bytes
    /// behind that length.
    fn cut(&mut self, len: u64) -> Result<(), Failed>
        requires { Told (state self.old) (λ held. len ≤ length held) }
        ensures cut { OnOk result (Told (state self.old) (λ held. (state self.new).contents ≡ Some (take len held))) }
        ensures call { Calls (CutShort len) (state self.old) (state self.new) }
        ensures cause { HasCause (state self.old).faults (state self.new).faults result };

    /// Makes stable what was written. After it, a crash leaves what a read gives.
    fn sync(&mut self) -> Result<(), Failed>
        ensures durable { OnOk result (IsTrue (state self.old).is_model → Told (state self.old) (λ held. Only held (state self.new).images)) }
        ensures contents { (state self.new).contents ≡ (state self.old).contents }
        ensures call { Calls Same (state self.old) (state self.new) }
        ensures cause { HasCause (state self.old).faults (state self.new).faults result };

    /// Says that a read gives one of the images.
    ghost reads_as_image: { (disk : Self) (held : List ℕ) → IsTrue (state disk).is_model → (state disk).contents ≡ Some held → (state disk).images held };

    /// Says that this moment counts among those since an earlier one.
    ghost counts_now: { (disk : Self) (t : ℕ) (c : List ℕ) → IsTrue (state disk).is_model → t ≤ (state disk).moment → (state disk).images c → (state disk).since t c };

    /// Says that no other moment has passed since this one.
    ghost only_now: { (disk : Self) (c : List ℕ) → IsTrue (state disk).is_model → (state disk).since (state disk).moment c → (state disk).images c };
}
