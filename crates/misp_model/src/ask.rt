//! Requests.

use crate::change::Change;
use crate::package::Package;
use crate::place::{AttributePlace, NamedProposal};
use crate::statement::{ProposalDraft, SightingDraft};
use misp_ids::{EventId, OrgId};
use misp_manifest::Wanted;
use misp_search::{Filter, Page};

/// What an organisation asks of an instance.
#[derive(Drop)]
pub enum Ask {
    /// Shows an event: the chosen copy, or that of the named owner.
    View {
        event: EventId,
        owner: Option<OrgId>,
    },
    Change(Change),
    Propose(ProposalDraft),
    /// Accepts or discards a proposal.
    Judge {
        event: EventId,
        proposal: NamedProposal,
        accept: bool,
    },
    Sight {
        event: EventId,
        target: AttributePlace,
        draft: SightingDraft,
    },
    /// Lists a page of the events that the organisation sees.
    Index(Page),
    /// Searches what the organisation sees: for attributes, or for whole events.
    Search {
        filter: Filter,
        whole: bool,
    },
    /// Lists the sharing groups that the organisation created or that allow it.
    Groups,
    /// Lists the sharing groups that carry to the partner of the caller's key.
    SyncGroups,
    /// Lists the events of which something passes to the partner, each with the number of its
    /// packages.
    SyncEvents,
    /// Shows one package of an event, as it passes to the partner.
    SyncPart {
        event: EventId,
        part: u32,
    },
    /// Lists the events of which something passes to the partner: of each package the keys of its
    /// rows, with their stamps.
    SyncManifest,
    /// Shows the event's own row and the wanted rows of one package, as it passes to the partner.
    SyncRows(Wanted),
    TakePart(Package),
}
