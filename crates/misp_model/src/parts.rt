//! What is added to an event that is there.

use misp_elem::{Submission, Tag};
use std::marker::Model;

/// Elements for an event that is there: a submission without a body, whose label inherits.
///
/// A contract sees it as the submission.
#[derive(Drop)]
pub struct Parts {
    pub submission: Submission,
}

impl Model for Parts {
    ghost use Rattle.misp_elem.specs.Draft.{SubmissionFields};

    ghost Value = { SubmissionFields };

    ghost use Rattle.misp_model.specs.Parts.{IsParts};

    ghost view = { λ p. p.submission };

    ghost invariant = { λ p. IsParts p.submission };
}

impl Parts {
    ghost use Rattle.std.specs.Prelude.{◌≡◌};
    ghost use Rattle.misp_model.specs.Parts.{IsParts};

    /// The submission as parts.
    pub fn of(submission: Submission) -> Parts
        requires { IsParts submission }
        ensures { result ≡ submission }
    {
        Parts { submission }
    }
}

/// A tag that may be attached: a name of 1 to 255 bytes.
///
/// A contract sees it as the tag.
#[derive(Drop)]
pub struct NewTag {
    pub tag: Tag,
}

impl Model for NewTag {
    ghost use Rattle.std.specs.Prelude.{[]};
    ghost use Rattle.misp_elem.specs.declared.content.Tag.{Tag};
    ghost use Rattle.misp_elem.specs.Fields.{IsTag, text_limit};

    ghost Value = { Tag };

    ghost view = { λ t. t.tag };

    ghost invariant = { λ t. IsTag text_limit [] t.tag };
}

impl NewTag {
    ghost use Rattle.std.specs.Prelude.{◌≡◌, []};
    ghost use Rattle.misp_elem.specs.Fields.{IsTag, text_limit};

    /// The tag as one that may be attached.
    pub fn of(tag: Tag) -> NewTag
        requires { IsTag text_limit [] tag }
        ensures { result ≡ tag }
    {
        NewTag { tag }
    }
}
