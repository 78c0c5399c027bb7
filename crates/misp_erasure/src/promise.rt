//! Nothing that an organisation was never granted changes what it is told.

ghost use Rattle.std.specs.Prelude.{◌≡◌, ℕ, List, Bool, true, ◌++◌};
ghost use Rattle.misp_ids.specs.declared.uid.OrgId.{OrgId};
ghost use Rattle.misp_elem.specs.declared.key.KeyForm.{KeyForm as Key};
ghost use Rattle.misp_history.specs.Acts.{Act, Net, World, run, replies_to};
ghost use Rattle.misp_ids.specs.Same.{Inst};
ghost use Rattle.misp_history.specs.History.{tables};
ghost use Rattle.misp_model.specs.Closed.{IsClosed, cut_rows};
ghost use Rattle.misp_erasure.specs.Erasure.{IsKept, cut_world, erase};
ghost use Rattle.misp_erasure.specs.Kept.{kept, start, erased, replies};

/// Leaving out of the acts every element that an organisation was never granted changes none of its
/// replies, and leaves out of the state just those elements.
pub fn erasure()
    ensures replies { (o : OrgId) (net : Net) (acts : List Act) →
        replies o net (erased o net acts) ≡ replies o net acts }
    ensures same { (o : OrgId) (net : Net) (acts others : List Act) →
        erased o net others ≡ erased o net acts → replies o net others ≡ replies o net acts }
    ensures states { (o : OrgId) (net : Net) (acts : List Act) →
        run net 0 start (erased o net acts)
        ≡ cut_world (kept o net 0 start acts) (run net 0 start acts) }
    ensures tables { (o : OrgId) (net : Net) (acts more : List Act) (i : Inst) →
        tables
        (run net 0 start (erase o (kept o net 0 start (acts ++ more)) net 0 start acts)).log i
        ≡ cut_rows (kept o net 0 start (acts ++ more)) (tables (run net 0 start acts).log i) }
    ensures groups { (o : OrgId) (net : Net) (acts more : List Act) →
        (run net 0 start (erase o (kept o net 0 start (acts ++ more)) net 0 start acts)).groups
        ≡ (run net 0 start acts).groups }
    ensures made { (o : OrgId) (net : Net) (acts more : List Act) →
        (run net 0 start (erase o (kept o net 0 start (acts ++ more)) net 0 start acts)).made
        ≡ (run net 0 start acts).made }
{}

/// The keys that stay are the least set that has, with each key, what stands above it, with each
/// verdict its proposal, of each acceptance both the verdict and what it changed or made or
/// neither, and all that the organisation ever knew.
pub fn kept_keys_are_the_least()
    ensures closed { (o : OrgId) (net : Net) (acts : List Act) →
        IsClosed (kept o net 0 start acts) }
    ensures has { (o : OrgId) (net : Net) (acts : List Act) →
        IsKept o (kept o net 0 start acts) net 0 start acts }
    ensures least { (keep : Key → Bool) (o : OrgId) (net : Net) (acts : List Act) →
        IsClosed keep → IsKept o keep net 0 start acts →
        (k : Key) → kept o net 0 start acts k ≡ true → keep k ≡ true }
{}

/// The same for any set of keys that is closed, and from any state.
pub fn erasure_of_any_closed_set()
    ensures replies { (keep : Key → Bool) (o : OrgId) (net : Net) (n : ℕ) (w : World)
        (acts : List Act) →
        IsClosed keep → IsKept o keep net n w acts →
        replies_to o net n (cut_world keep w) (erase o keep net n w acts)
        ≡ replies_to o net n w acts }
    ensures states { (keep : Key → Bool) (o : OrgId) (net : Net) (n : ℕ) (w : World)
        (acts : List Act) →
        IsClosed keep → IsKept o keep net n w acts →
        run net n (cut_world keep w) (erase o keep net n w acts)
        ≡ cut_world keep (run net n w acts) }
{}
