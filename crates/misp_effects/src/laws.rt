//! What holds of effects and of runs, whatever they are about.

ghost use Rattle.std.specs.Prelude.{◌≡◌, ◌≤◌, ◌++◌, ◌∷◌, [], ℕ, suc, Bool, List, Option, Some, Ok};
ghost use Rattle.misp_elem.specs.declared.row.RowFields.{RowFields as Row};
ghost use Rattle.misp_elem.specs.Row.{IsRow};
ghost use Rattle.misp_elem.specs.RowReading.{row_of};
ghost use Rattle.misp_elem.specs.Spelling as spelling;
ghost use Rattle.misp_outside.specs.Causes.{Rose, RoseBy};
ghost use Rattle.misp_outside.specs.Held.{Held, with_batch};
ghost use Rattle.misp_effects.specs.declared.stop.Stop.{Stop};
ghost use Rattle.misp_effects.specs.declared.stop.Stop.TheVariants as stops;
ghost use Rattle.misp_effects.specs.declared.stop.Side.TheVariants.{Here, There};
ghost use Rattle.misp_effects.specs.Batches.{Batch, Spelling, IsReadable};
ghost use Rattle.misp_effects.specs.Effect.{Effect, Telling, shown, behind, Does};
ghost use Rattle.misp_outside.specs.KeeperState.{KeeperState};
ghost use Rattle.misp_effects.specs.Meanings.{Meaning};
ghost use Rattle.misp_effects.specs.Run.{fault_of};
ghost use Rattle.misp_effects.specs.Course.{IsAct, HasRun};

/// The bytes of a row, and so of each row that is put, are read as this row.
#[tactic(auto, using(crate::proofs::Readable::reads_back))]
pub fn a_row_that_is_put_reads_back_as_itself()
    ensures { (r : Row) → IsRow r → row_of (spelling.row r) ≡ Ok r }
{}

/// What a call did is also done where its reply is seen in another way that tells the same stops.
pub fn what_is_done_is_shown<A, B>()
    ensures { (spelled : Spelling) (f : A → B) (stop_in : A → Option Stop)
        (stop_shown : B → Option Stop) (telling : Telling A) (telling_shown : Telling B) →
        ((a : A) → stop_shown (f a) ≡ stop_in a) →
        ((stop : Stop) (n : ℕ) (lost : Bool) (e : Effect A) →
        telling_shown stop n lost (shown f e) ≡ shown f (telling stop n lost e)) →
        (e : Effect A) (held : Held) (reply : A) (new : Held) →
        Does A spelled stop_in telling e held reply new →
        Does B spelled stop_shown telling_shown (shown f e) held (f reply) new }
{}

/// Where a batch was put and a call did the rest, both together did the effect that has the batch
/// first.
pub fn what_is_done_is_done_behind_a_batch<A>()
    ensures { (spelled : Spelling) (stop_in : A → Option Stop) (rest whole : Telling A)
        (b : Batch) →
        ((stop : Stop) (n : ℕ) (lost : Bool) (e : Effect A) →
        whole stop (suc n) lost (behind b e) ≡ behind b (rest stop n lost e)) →
        IsReadable b →
        (e : Effect A) (held : Held) (reply : A) (new : Held) →
        Does A spelled stop_in rest e (with_batch (spelled b) held) reply new →
        Does A spelled stop_in whole (behind b e) held reply new }
{}

/// Where the count of the keeper that a stop names rose, and no count fell, each keeper's count
/// rose by the faults that the stop names of it.
pub fn a_fault_is_counted_at_its_keeper<S, A>()
    ensures { (m : Meaning S A) (stop : Option Stop) (place before now : ℕ) →
        (stop ≡ Some (stops.Keeper Here) → m.at ≡ place → Rose before now) →
        (stop ≡ Some (stops.Keeper There) → m.peer ≡ place → Rose before now) →
        before ≤ now → RoseBy (fault_of place m stop) before now }
{}

/// Nothing has run over keepers that are as they were.
pub fn a_course_begins<S, A>()
    ensures { (seen_in : Held → S) (spelled : Spelling) (stop_in : A → Option Stop)
        (old : List KeeperState) → HasRun S A seen_in spelled stop_in [] old old [] }
{}

/// What has run, and one command more, has run.
pub fn a_course_goes_on<S, A>()
    ensures { (seen_in : Held → S) (spelled : Spelling) (stop_in : A → Option Stop)
        (ms : List (Meaning S A)) (m : Meaning S A)
        (old mid new : List KeeperState) (outputs : List A) (output : A) →
        HasRun S A seen_in spelled stop_in ms old mid outputs →
        IsAct S A seen_in spelled stop_in m mid new output →
        HasRun S A seen_in spelled stop_in (ms ++ m ∷ []) old new (outputs ++ output ∷ []) }
{}
