// A disk as a program sees it: what a read gives, and what a crash leaves.
ghost use Rattle.std.specs.Prelude.{◌≡◌, ◌+◌, ◌^◌, ◌<◌, ◌≤◌, List, ℕ, length, take, IfOk, OnOk, Option, Some, IfSome, OnSome};
ghost use Rattle.std.specs.Option.{option_map};
ghost use Rattle.plan_base.specs.Causes.{CountsFaults};
ghost use Rattle.plan_base.specs.Disk.{overwritten, WritesPart, CutsPart, StepsFrom, IsOnlyImage, TellsAlike, AddsMoment, ReadsAt};

use crate::Failed;

/// A file that may be cut off by a crash at any moment.
///
/// A file that a crash may leave is called an image. In it each byte written since the last sync that succeeded, and
/// each past the length at that sync, may be any byte, and its length is one from the least to the greatest that the
/// file had since. All else is as at that sync.
///
/// A real disk doesn't tell its content: there `reads` is none, and what the clauses say of content and images doesn't
/// bind it. No call changes whether a disk tells.
pub trait Disk {
    /// The bytes that a read gives; none where the disk doesn't tell.
    ghost reads: { Self → Option (List ℕ) };

    /// What a crash at this moment may leave.
    ghost images: { Self → List ℕ → Type 0 };

    /// What a crash at some moment since the one named, up to now, might have left. A moment is a number of calls.
    ghost images_since: { Self → ℕ → List ℕ → Type 0 };

    /// How many calls there were, failed ones too.
    ghost calls: { Self → ℕ };

    /// How many calls failed. At the last value of a u64 it stands still.
    ghost faults: { Self → ℕ };

    /// The length in bytes.
    fn len(&mut self) -> Result<u64, Failed>
        requires { calls self.old < 2 ^ 63 }
        ensures length { IfOk result (λ n. IfSome (reads self.old) (λ file. n ≡ length file)) }
        ensures reads { reads self.new ≡ reads self.old }
        ensures crash { OnSome (reads self.old) ((image : List ℕ) → images self.new image → images self.old image) }
        ensures time { OnSome (reads self.old) (AddsMoment (calls self.old) (images_since self.old) (images_since self.new) (images self.new)) }
        ensures count { calls self.new ≡ calls self.old + 1 }
        ensures cause { CountsFaults (faults self.old) (faults self.new) result };

    /// Moves the bytes from the place `at` on to the front of `into` and answers how many. A disk that tells its
    /// content answers 0 on a buffer that isn't empty only at or past its end.
    fn read_at(&mut self, at: u64, into: &mut [u8]) -> Result<usize, Failed>
        requires { calls self.old < 2 ^ 63 }
        ensures bound { IfOk result (λ n. n ≤ length into.new) }
        ensures bytes { IfOk result (λ n. IfSome (reads self.old) (λ file. ReadsAt file at into.new n)) }
        ensures reads { reads self.new ≡ reads self.old }
        ensures crash { OnSome (reads self.old) ((image : List ℕ) → images self.new image → images self.old image) }
        ensures time { OnSome (reads self.old) (AddsMoment (calls self.old) (images_since self.old) (images_since self.new) (images self.new)) }
        ensures count { calls self.new ≡ calls self.old + 1 }
        ensures cause { CountsFaults (faults self.old) (faults self.new) result };

    /// Puts `bytes` from the place `at` on, over what is there and past the end. The place isn't past the end.
    /// After `Failed` the content is open, and the images are those of a crash in the write.
    fn write_at(&mut self, at: u64, bytes: &[u8]) -> Result<(), Failed>
        requires count { calls self.old < 2 ^ 63 }
        requires place { IfSome (reads self.old) (λ file. at ≤ length file) }
        ensures written { OnOk result (reads self.new ≡ option_map (overwritten at bytes.now) (reads self.old)) }
        ensures telling { TellsAlike (reads self.old) (reads self.new) }
        ensures crash { OnSome (reads self.old) (StepsFrom (WritesPart at (length bytes.now)) (images self.old) (images self.new)) }
        ensures time { OnSome (reads self.old) (AddsMoment (calls self.old) (images_since self.old) (images_since self.new) (images self.new)) }
        ensures count { calls self.new ≡ calls self.old + 1 }
        ensures cause { CountsFaults (faults self.old) (faults self.new) result };

    /// Cuts the file to `len` bytes, which it has. After `Failed` the content is open, and the images are those of
    /// a crash in the cut.
    fn cut(&mut self, len: u64) -> Result<(), Failed>
        requires count { calls self.old < 2 ^ 63 }
        requires place { IfSome (reads self.old) (λ file. len ≤ length file) }
        ensures cut { OnOk result (reads self.new ≡ option_map (take len) (reads self.old)) }
        ensures telling { TellsAlike (reads self.old) (reads self.new) }
        ensures crash { OnSome (reads self.old) (StepsFrom (CutsPart len) (images self.old) (images self.new)) }
        ensures time { OnSome (reads self.old) (AddsMoment (calls self.old) (images_since self.old) (images_since self.new) (images self.new)) }
        ensures count { calls self.new ≡ calls self.old + 1 }
        ensures cause { CountsFaults (faults self.old) (faults self.new) result };

    /// Makes what a read gives the only image. After `Failed` the images are some of those before.
    fn sync(&mut self) -> Result<(), Failed>
        requires { calls self.old < 2 ^ 63 }
        ensures durable { OnOk result (IfSome (reads self.old) (λ file. IsOnlyImage file (images self.new))) }
        ensures reads { reads self.new ≡ reads self.old }
        ensures crash { OnSome (reads self.old) ((image : List ℕ) → images self.new image → images self.old image) }
        ensures time { OnSome (reads self.old) (AddsMoment (calls self.old) (images_since self.old) (images_since self.new) (images self.new)) }
        ensures count { calls self.new ≡ calls self.old + 1 }
        ensures cause { CountsFaults (faults self.old) (faults self.new) result };

    /// What a disk reads is one of its images.
    ghost reads_an_image: { (disk : Self) (file : List ℕ) → reads disk ≡ Some file → images disk file };

    /// An image now is one since each moment up to now.
    ghost now_counts: { (disk : Self) (moment : ℕ) (image : List ℕ) → moment ≤ calls disk → images disk image → images_since disk moment image };

    /// Since now there are only the images now.
    ghost only_now: { (disk : Self) (image : List ℕ) → images_since disk (calls disk) image → images disk image };
}
