//! Laws of pages behind a log, whatever its records are and its pages hold. Each call is a proof and does nothing.

ghost use Rattle.dby_types.specs.declared.number.PageId.{PageId};
ghost use Rattle.log_model.specs.Crash.{HasSomeCommits};
ghost use Rattle.log_model.specs.Places.{Database, Same};
ghost use Rattle.log_model.specs.States.{IsLegal, IsSound, State, after, stepped};
ghost use Rattle.page_model.specs.Redo.{IsCurrent, IsImage, MayLie, Version, Writing, brought_up, redone, written};
ghost use Rattle.page_model.specs.Showing.{AreShown, Reading, after_image, pages_after, steps_of};
ghost use Rattle.std.specs.Prelude.{◌≡◌, ◌≤◌, ℕ, ◌+◌, List, [], ◌∷◌, ◌++◌, length, take};

/// A version that has all records stays as redo found it, so a second redo changes nothing.
pub fn redo_ends<R, X>()
    ensures ahead { (write : Writing R X) (log : List R) (p : PageId) (v : Version X) → length log ≤ v.has → redone write log p v ≡ v.holds }
    ensures again { (write : Writing R X) (log : List R) (p : PageId) (v : Version X) → redone write log p (brought_up write log p v) ≡ redone write log p v }
{}

/// Redo of a version that may lie on the disk gives what the log makes of the page, and the version that it makes is current.
pub fn redo_brings_up<R, X>()
    ensures whole { (write : Writing R X) (first : PageId → X) (log : List R) (k : ℕ) (p : PageId) (v : Version X) → k ≤ length log → MayLie write first log k p v → redone write log p v ≡ written write log p (first p) }
    ensures current { (write : Writing R X) (first : PageId → X) (log : List R) (k : ℕ) (p : PageId) (v : Version X) → k ≤ length log → MayLie write first log k p v → IsCurrent write first log p (brought_up write log p v) }
{}

/// A current version may be written where the records that it has are forced.
pub fn written_behind_its_log<R, X>()
    ensures { (write : Writing R X) (first : PageId → X) (log : List R) (forced : ℕ) (p : PageId) (v : Version X) → IsCurrent write first log p v → v.has ≤ forced → MayLie write first log forced p v }
{}

/// What may lie on the disk may still lie there when more is forced, and when a record is appended.
pub fn rule_stays<R, X>()
    ensures force { (write : Writing R X) (first : PageId → X) (log : List R) (k j : ℕ) (p : PageId) (v : Version X) → k ≤ j → MayLie write first log k p v → MayLie write first log j p v }
    ensures append { (write : Writing R X) (first : PageId → X) (log : List R) (r : R) (k : ℕ) (p : PageId) (v : Version X) → k ≤ length log → MayLie write first log k p v → MayLie write first (log ++ r ∷ []) k p v }
{}

/// A page with all of the log is current again once the appended record is written on it.
pub fn pages_follow<R, X>()
    ensures { (write : Writing R X) (first : PageId → X) (log : List R) (r : R) (p : PageId) (x : X) → x ≡ written write log p (first p)
        → IsCurrent write first (log ++ r ∷ []) p (record { has = length log + 1; holds = write r p x }) }
{}

/// Pages show what the log's steps make, record by record.
pub fn pages_show<R, X, V>()
    ensures { (m : Reading R X V) (s : State V) (first : PageId → X) (log : List R) (r : R) → AreShown m s first log
        → Same (m.view (λ p. m.write r p (pages_after m first log p))) (stepped (after s (steps_of m log)) (m.step r)).shown
        → AreShown m s first (log ++ r ∷ []) }
{}

/// An image stands for the base after the first of the commits, every durable one among them.
pub fn image_stands<R, X, V>()
    ensures { (m : Reading R X V) (base : Database V) (s : State V) (first : PageId → X) (log left : List R) (pages : PageId → Version X) (forced durable : ℕ)
        → IsSound base s → IsLegal s (steps_of m log) → AreShown m s first log → durable ≤ length (after s (steps_of m (take forced log))).commits
        → IsImage m.write first log forced pages left → HasSomeCommits base (after s (steps_of m log)).commits durable (after_image m s pages left) }
{}
