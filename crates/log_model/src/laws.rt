//! Laws of logs: what holds of every state, step and log. Each call is a proof and does nothing.

ghost use Rattle.dby_types.specs.declared.number.RowId.{RowId};
ghost use Rattle.dby_types.specs.declared.value.Value.{Value};
ghost use Rattle.log_model.specs.Apiece.{list_after};
ghost use Rattle.log_model.specs.Bases.{FollowsBase, as_base, net_of};
ghost use Rattle.log_model.specs.Crash.{HasSomeCommits, IsLeft};
ghost use Rattle.log_model.specs.Effects.{stands_for};
ghost use Rattle.log_model.specs.Forget.{IsForgotten};
ghost use Rattle.log_model.specs.Places.{Change, Database, Place, Same, after_commits, container_place, laid_over, reversed, row_place, tables_of};
ghost use Rattle.log_model.specs.Places as places;
ghost use Rattle.log_model.specs.ReadAs.{commits_as, read_as};
ghost use Rattle.log_model.specs.Restart.{AreOpen, GoesOn, Restarts, TakesBack, restart_of};
ghost use Rattle.log_model.specs.States.{IsLegal, IsOpen, IsSound, MayFollow, State, after, recovered, start, stepped};
ghost use Rattle.log_model.specs.Steps.{IsOf, Step, changes_of, newest_of};
ghost use Rattle.log_model.specs.Steps.Step.{change, commit, compensation, rolled_back};
ghost use Rattle.table_model.specs.Tables.{Each, put};
ghost use Rattle.std.specs.Prelude.{◌≡◌, ◌≤◌, ◌∷◌, ◌++◌, ℕ, List, [], Option, Some, length, take};

/// A log begins with a sound state.
pub fn begins_sound<X>()
    ensures { (base : Database X) → IsSound base (start base) }
{}

/// Each step that may follow leaves a sound state.
pub fn stays_sound<X>()
    ensures { (base : Database X) (s : State X) (r : Step X) → IsSound base s → MayFollow s r → IsSound base (stepped s r) }
{}

/// What a legal log shows, with what stands taken back, is the base after its commits.
pub fn legal_is_sound<X>()
    ensures { (base : Database X) (log : List (Step X)) → IsLegal (start base) log → IsSound base (after (start base) log) }
{}

/// A step that may follow leaves the log legal, behind it the state is one step further, and only a commit changes what the state stands for.
pub fn logs_grow<X>()
    ensures legal { (s : State X) (log : List (Step X)) (r : Step X) → IsLegal s log → MayFollow (after s log) r → IsLegal s (log ++ r ∷ []) }
    ensures state { (s : State X) (log : List (Step X)) (r : Step X) → after s (log ++ r ∷ []) ≡ stepped (after s log) r }
    ensures same { (base : Database X) (s : State X) (r : Step X) → IsSound base s → MayFollow s r → Same (recovered (stepped s r)) (stands_for s r) }
{}

/// A front of a legal log is legal, and its commits are the first ones.
pub fn fronts_are_legal<X>()
    ensures legal { (s : State X) (log : List (Step X)) (n : ℕ) → IsLegal s log → IsLegal s (take n log) }
    ensures commits { (s : State X) (log : List (Step X)) (n : ℕ) → (after s (take n log)).commits ≡ take (length (after s (take n log)).commits) (after s log).commits }
{}

/// What a crash leaves of a legal log stands for the base after the first of its commits, every durable one among them.
pub fn crash_keeps_commits<X>()
    ensures { (base : Database X) (s : State X) (log left : List (Step X)) (forced durable : ℕ) → IsSound base s → IsLegal s log → durable ≤ length (after s (take forced log)).commits
        → IsLeft log forced left → HasSomeCommits base (after s log).commits durable (recovered (after s left)) }
{}

/// What has some of the commits has some of more of them, with as many durable ones or fewer.
pub fn some_commits_stay<X>()
    ensures { (base : Database X) (commits more : List (List (Change X))) (durable fewer : ℕ) (d : Database X) → fewer ≤ durable → HasSomeCommits base commits durable d → HasSomeCommits base (commits ++ more) fewer d }
{}

/// Each transaction's list of changes that stand goes by its own steps alone.
pub fn lists_follow<X>()
    ensures { (s : State X) (r : Step X) (t : ℕ) → changes_of t (stepped s r).standing ≡ list_after t (changes_of t s.standing) r }
{}

/// The undo of a transaction's newest change may follow, and takes back that change alone.
pub fn undo_takes_one_back<X>()
    ensures { (base : Database X) (s : State X) (t : ℕ) (c : Change X) → IsSound base s → IsOpen t s → newest_of t s.standing ≡ Some c
        → TakesBack s t c (stepped s (compensation (reversed c))) }
{}

/// What an undo puts back is what stood there when the change was made.
pub fn undo_restores<X>()
    ensures { (s : State X) (log more : List (Step X)) (c : Change X) → IsLegal s (log ++ change c ∷ more) → c.before ≡ (after s log).shown c.place }
{}

/// A restart leaves nothing that stands, and shows what the state before it stood for, with the same commits.
pub fn restart_finishes<X>()
    ensures { (base : Database X) (s : State X) (ts : List ℕ) → IsSound base s → AreOpen ts s → Restarts s (restart_of s ts) }
{}

/// A restart that was stopped anywhere is gone on with: the next one makes the steps that are left, and comes to the same.
pub fn restart_goes_on<X>()
    ensures { (base : Database X) (s : State X) (ts : List ℕ) (n : ℕ) → IsSound base s → AreOpen ts s → GoesOn s ts n (after s (take n (restart_of s ts))) }
{}

/// A crash within a restart stands for the base after the first of the commits, every durable one among them.
pub fn crash_in_restart<X>()
    ensures { (base : Database X) (s : State X) (log left : List (Step X)) (ts : List ℕ) (forced durable : ℕ) → IsSound base s → IsLegal s log → AreOpen ts (after s log)
        → durable ≤ length (after s (take forced (log ++ restart_of (after s log) ts))).commits
        → IsLeft (log ++ restart_of (after s log) ts) forced left → HasSomeCommits base (after s log).commits durable (recovered (after s left)) }
{}

/// What a commit makes stand for good is what then stands at the places that its transaction changed.
pub fn commits_are_net<X>()
    ensures { (base : Database X) (s : State X) (t : ℕ) (d : Database X) → IsSound base s → Same (laid_over (changes_of t s.standing) d) (laid_over (net_of s.shown (changes_of t s.standing)) d) }
{}

/// Where nothing stands, what is shown is the base after the commits, and a base for all that follows.
pub fn logs_go_on<X>()
    ensures base { (base : Database X) (s : State X) → IsSound base s → s.standing ≡ [] → IsSound s.shown (as_base s) × Same s.shown (after_commits base s.commits) }
    ensures follows { (s : State X) (log : List (Step X)) → FollowsBase s log }
{}

/// Nothing of a transaction follows its end.
pub fn ends_are_last<X>()
    ensures commit { (s : State X) (log more : List (Step X)) (t : ℕ) → IsLegal s (log ++ commit t ∷ more) → Each (λ (r : Step X). IsOf t r → ⊥) more }
    ensures rollback { (s : State X) (log more : List (Step X)) (t : ℕ) → IsLegal s (log ++ rolled_back t ∷ more) → Each (λ (r : Step X). IsOf t r → ⊥) more }
{}

/// A transaction that was rolled back leaves all as if it never was.
pub fn rollback_forgets<X>()
    ensures { (base : Database X) (s : State X) (t : ℕ) (log : List (Step X)) → IsSound base s → changes_of t s.standing ≡ [] → IsLegal s (log ++ rolled_back t ∷ []) → IsForgotten s t log }
{}

/// Commits are the same however what stands at the places is read, and so is what holds of some of them.
pub fn databases_are_read<X, Y>()
    ensures commits { (f : Place → X → Y) (css : List (List (Change X))) (d : Database X) → Same (read_as f (after_commits d css)) (after_commits (read_as f d) (commits_as f css)) }
    ensures some { (f : Place → X → Y) (base : Database X) (commits : List (List (Change X))) (durable : ℕ) (d : Database X) → HasSomeCommits base commits durable d
        → HasSomeCommits (read_as f base) (commits_as f commits) durable (read_as f d) }
{}

/// A put at a row's place is one in the tables, and one at a container's own place is none.
pub fn rows_are_places()
    ensures row { (d : Database (Option (List Value))) (table t : ℕ) (rid r : RowId) (x : Option (List Value)) → tables_of (places.put d (row_place table rid) x) t r ≡ put (tables_of d) table rid x t r }
    ensures container { (d : Database (Option (List Value))) (n t : ℕ) (r : RowId) (x : Option (List Value)) → tables_of (places.put d (container_place n) x) t r ≡ tables_of d t r }
{}
