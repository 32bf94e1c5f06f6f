//! A disk: pages by container and number, and a log of segments.
//!
//! What a crash may leave is told page by page and segment by segment: an image is any choice. Clauses on content hold where the disk tells it.

ghost use Rattle.std.specs.Prelude.{◌≡◌, ◌≤◌, ◌+◌, ℕ, List, [], Option, Some, length, IfOk, OnOk};
ghost use Rattle.device.specs.Counts.{HasCause};
ghost use Rattle.device.specs.Disk.{Image, IsImage, GivesPage, GivesLog, written_at, SamePages, SameLog, PageIs, ContainerGone, SegmentIs, NoNewPage, NewPage, MaybeGone, OnlyPages, NoNewLog, NewLog, MaybeDropped, OnlyLog, Elapses};

use crate::Failed;

/// A disk with two areas, pages and log, each made durable by a sync of its own.
pub trait Disk {
    /// Holds of a disk that tells what it holds; one that tells nothing leaves it empty.
    ghost tells: { Type 0 };

    /// What reads of pages give: by container and number, None where there is no page.
    ghost page: { Self → ℕ → ℕ → Option (List ℕ) };

    /// What reads of the log give: the bytes of each segment.
    ghost log: { Self → ℕ → List ℕ };

    /// What a crash now may leave of a page.
    ghost may_hold: { Self → ℕ → ℕ → Option (List ℕ) → Type 0 };

    /// What a crash now may leave of a segment.
    ghost may_log: { Self → ℕ → List ℕ → Type 0 };

    /// The clock.
    ghost moment: { Self → ℕ };

    /// What a crash at some moment from that one on might have left, within a call or between two.
    ghost left_since: { Self → ℕ → Image → Type 0 };

    /// How often it failed, up to the greatest count.
    ghost fault_count: { Self → ℕ };

    /// Reads a page; false, and nothing read, exactly where it was never written or its container was dropped since.
    fn page_read(&mut self, c: u32, p: u32, into: &mut [u8; 4096]) -> Result<bool, Failed>
        ensures value { tells → IfOk result (λ found. GivesPage (page self.old c p) into.old into.new found) }
        ensures seen { tells → OnOk result (SamePages (page self.old) (page self.new) × SameLog (log self.old) (log self.new)) }
        ensures crash { tells → NoNewPage (may_hold self.old) (may_hold self.new) × NoNewLog (may_log self.old) (may_log self.new) }
        ensures time { tells → Elapses (moment self.old) (moment self.new) (left_since self.old) (left_since self.new) (IsImage (may_hold self.new) (may_log self.new)) }
        ensures cause { HasCause (fault_count self.old) (fault_count self.new) result };

    /// Writes a page whole or not at all. Until a sync a crash may leave any version of it since the sync before.
    fn page_write(&mut self, c: u32, p: u32, from: &[u8; 4096]) -> Result<(), Failed>
        ensures seen { tells → OnOk result (PageIs c p (Some from.now) (page self.old) (page self.new) × SameLog (log self.old) (log self.new)) }
        ensures crash { tells → NewPage c p (Some from.now) (may_hold self.old) (may_hold self.new) × NoNewLog (may_log self.old) (may_log self.new) }
        ensures time { tells → Elapses (moment self.old) (moment self.new) (left_since self.old) (left_since self.new) (IsImage (may_hold self.new) (may_log self.new)) }
        ensures cause { HasCause (fault_count self.old) (fault_count self.new) result };

    /// After it a crash leaves each page as a read gives it.
    fn page_sync(&mut self) -> Result<(), Failed>
        ensures durable { tells → OnOk result (OnlyPages (page self.old) (may_hold self.new)) }
        ensures seen { tells → OnOk result (SamePages (page self.old) (page self.new) × SameLog (log self.old) (log self.new)) }
        ensures crash { tells → NoNewPage (may_hold self.old) (may_hold self.new) × NoNewLog (may_log self.old) (may_log self.new) }
        ensures time { tells → Elapses (moment self.old) (moment self.new) (left_since self.old) (left_since self.new) (IsImage (may_hold self.new) (may_log self.new)) }
        ensures cause { HasCause (fault_count self.old) (fault_count self.new) result };

    /// Drops all pages of a container, which need not be there. Until a sync of the pages a crash may have it done or not.
    fn container_drop(&mut self, c: u32) -> Result<(), Failed>
        ensures seen { tells → OnOk result (ContainerGone c (page self.old) (page self.new) × SameLog (log self.old) (log self.new)) }
        ensures crash { tells → MaybeGone c (may_hold self.old) (may_hold self.new) × NoNewLog (may_log self.old) (may_log self.new) }
        ensures time { tells → Elapses (moment self.old) (moment self.new) (left_since self.old) (left_since self.new) (IsImage (may_hold self.new) (may_log self.new)) }
        ensures cause { HasCause (fault_count self.old) (fault_count self.new) result };

    /// Reads as many bytes as the segment has from a place, at most as many as there is room for; 0 is the end.
    fn log_read(&mut self, seg: u32, at: u32, into: &mut [u8]) -> Result<usize, Failed>
        ensures within { IfOk result (λ n. n ≤ length into.old) }
        ensures value { tells → IfOk result (λ n. GivesLog (log self.old seg) at into.old into.new n) }
        ensures seen { tells → OnOk result (SamePages (page self.old) (page self.new) × SameLog (log self.old) (log self.new)) }
        ensures crash { tells → NoNewPage (may_hold self.old) (may_hold self.new) × NoNewLog (may_log self.old) (may_log self.new) }
        ensures time { tells → Elapses (moment self.old) (moment self.new) (left_since self.old) (left_since self.new) (IsImage (may_hold self.new) (may_log self.new)) }
        ensures cause { HasCause (fault_count self.old) (fault_count self.new) result };

    /// Writes bytes into a segment, which has bytes 0 where it didn't reach so far. Until a sync a crash may leave anything in their place.
    fn log_write(&mut self, seg: u32, at: u32, from: &[u8]) -> Result<(), Failed>
        requires { at + length from.now ≤ 16777216 }
        ensures seen { tells → OnOk result (SamePages (page self.old) (page self.new) × SegmentIs seg (written_at (log self.old seg) at from.now) (log self.old) (log self.new)) }
        ensures crash { tells → NoNewPage (may_hold self.old) (may_hold self.new) × NewLog seg at (length from.now) (may_log self.old) (may_log self.new) }
        ensures time { tells → Elapses (moment self.old) (moment self.new) (left_since self.old) (left_since self.new) (IsImage (may_hold self.new) (may_log self.new)) }
        ensures cause { HasCause (fault_count self.old) (fault_count self.new) result };

    /// After it a crash leaves the log as a read gives it.
    fn log_sync(&mut self) -> Result<(), Failed>
        ensures durable { tells → OnOk result (OnlyLog (log self.old) (may_log self.new)) }
        ensures seen { tells → OnOk result (SamePages (page self.old) (page self.new) × SameLog (log self.old) (log self.new)) }
        ensures crash { tells → NoNewPage (may_hold self.old) (may_hold self.new) × NoNewLog (may_log self.old) (may_log self.new) }
        ensures time { tells → Elapses (moment self.old) (moment self.new) (left_since self.old) (left_since self.new) (IsImage (may_hold self.new) (may_log self.new)) }
        ensures cause { HasCause (fault_count self.old) (fault_count self.new) result };

    /// Drops a segment, which need not be there. Until a sync of the log a crash may have it done or not.
    fn log_drop(&mut self, seg: u32) -> Result<(), Failed>
        ensures seen { tells → OnOk result (SamePages (page self.old) (page self.new) × SegmentIs seg [] (log self.old) (log self.new)) }
        ensures crash { tells → NoNewPage (may_hold self.old) (may_hold self.new) × MaybeDropped seg (may_log self.old) (may_log self.new) }
        ensures time { tells → Elapses (moment self.old) (moment self.new) (left_since self.old) (left_since self.new) (IsImage (may_hold self.new) (may_log self.new)) }
        ensures cause { HasCause (fault_count self.old) (fault_count self.new) result };

    /// How often it failed, up to the greatest count.
    fn faults(&self) -> u64
        ensures { result ≡ fault_count self.now };

    /// A disk as it reads is one of its images: page by page.
    ghost reads_page: { (d : Self) (c p : ℕ) → tells → may_hold d c p (page d c p) };

    /// And segment by segment.
    ghost reads_log: { (d : Self) (s : ℕ) → tells → may_log d s (log d s) };

    /// This moment is one of those since an earlier one.
    ghost counts_now: { (d : Self) (t : ℕ) (i : Image) → tells → t ≤ moment d → IsImage (may_hold d) (may_log d) i → left_since d t i };

    /// Since this moment there is no other.
    ghost only_now: { (d : Self) (i : Image) → tells → left_since d (moment d) i → IsImage (may_hold d) (may_log d) i };
}
