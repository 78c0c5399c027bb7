//! Proposals and sightings, as bodies bring them.

use misp_elem::{Place, ProposalBody};
use misp_ids::{ElemId, EventId, Stamp, Text};
use std::marker::Model;

/// A proposal for an attribute, or for a new one where its target is the event. One for a new
/// attribute does not ask to delete, and none has the name of its organisation.
///
/// A contract sees it as its fields.
#[derive(Drop)]
pub struct ProposalDraft {
    pub fields: ProposalDraftFields,
}

/// The fields of a proposal, whether they fit or not.
#[derive(Drop)]
pub struct ProposalDraftFields {
    pub event: EventId,
    pub target: Place,
    pub uuid: ElemId,
    pub body: ProposalBody,
}

impl Model for ProposalDraft {
    ghost use Rattle.misp_model.specs.declared.statement.ProposalDraftFields.{ProposalDraftFields};

    ghost Value = { ProposalDraftFields };

    ghost use Rattle.misp_model.specs.Statement.{IsProposalDraft};

    ghost view = { λ x. x.fields };

    ghost invariant = { λ x. IsProposalDraft x.fields };
}

impl ProposalDraft {
    ghost use Rattle.std.specs.Prelude.{◌≡◌};
    ghost use Rattle.misp_model.specs.Statement.{IsProposalDraft};

    /// The proposal of these fields.
    pub fn of(fields: ProposalDraftFields) -> ProposalDraft
        requires { IsProposalDraft fields }
        ensures { result ≡ fields }
    {
        ProposalDraft { fields }
    }

    pub fn get(&self) -> &ProposalDraftFields
        ensures value { result.now ≡ self.now }
        ensures fits { IsProposalDraft result.now }
    {
        &self.fields
    }
}

/// A sighting. Its kind is 0, 1 or 2.
///
/// A contract sees it as its fields.
#[derive(Drop)]
pub struct SightingDraft {
    pub fields: SightingDraftFields,
}

/// The fields of a sighting, whether they fit or not.
#[derive(Drop)]
pub struct SightingDraftFields {
    pub uuid: ElemId,
    pub kind: u8,
    pub date: Option<Stamp>,
    pub source: Text,
}

impl Model for SightingDraft {
    ghost use Rattle.misp_model.specs.declared.statement.SightingDraftFields.{SightingDraftFields};

    ghost Value = { SightingDraftFields };

    ghost use Rattle.misp_model.specs.Statement.{IsSightingDraft};

    ghost view = { λ x. x.fields };

    ghost invariant = { λ x. IsSightingDraft x.fields };
}

impl SightingDraft {
    ghost use Rattle.std.specs.Prelude.{◌≡◌};
    ghost use Rattle.misp_model.specs.Statement.{IsSightingDraft};

    /// The sighting of these fields.
    pub fn of(fields: SightingDraftFields) -> SightingDraft
        requires { IsSightingDraft fields }
        ensures { result ≡ fields }
    {
        SightingDraft { fields }
    }

    pub fn get(&self) -> &SightingDraftFields
        ensures value { result.now ≡ self.now }
        ensures fits { IsSightingDraft result.now }
    {
        &self.fields
    }
}
