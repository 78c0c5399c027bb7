//! What a refusal names.

ghost use Rattle.std.specs.Prelude.{◌≡◌, is_some};
ghost use Rattle.misp_elem.specs.Draft.{SubmissionFields as Submission};
ghost use Rattle.misp_model.specs.Scene.{Scene};
ghost use Rattle.misp_model.specs.Adding.{clashes, has_unusable};
ghost use Rattle.misp_edit.specs.Adding.{first_clash, first_unusable};

/// A first clashing uuid and a first unusable label are there exactly where their rules refuse.
pub fn refusals_name_what_they_refuse()
    ensures clash { (s : Scene) (b : Submission) → is_some (first_clash s b) ≡ clashes s b }
    ensures group { (s : Scene) (b : Submission) → is_some (first_unusable s b) ≡ has_unusable s b }
{}
