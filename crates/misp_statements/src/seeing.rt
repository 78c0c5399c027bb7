//! The proposal as its judge sees it.

ghost use Rattle.std.specs.Prelude.{◌≡◌, ◌&&◌, ◌||◌, ℕ, not, IfSome};
ghost use Rattle.std.specs.List.{find, list_any};
ghost use Rattle.std.specs.Option.{option_copied};
ghost use Rattle.misp_elem.specs.Contents.{IsProposalBody};
ghost use Rattle.misp_elem.specs.Key.{IsProposalName};
ghost use Rattle.misp_elem.specs.declared.key.KeyForm.TheVariants.{Proposal};
ghost use Rattle.misp_elem.specs.Row.{may_remove};
ghost use Rattle.misp_model.specs.Statements.{is_for_new, proposal_body};
ghost use Rattle.misp_statements.specs.Judging.{is_below, is_lesser, is_seen, is_granted_of, IsLeastOwner, body_accepted, may_judge};

use misp_copies::{Viewer, are_same, has_live, is_granted};
use misp_elem::{Content, Key, KeyForm, Place, ProposalBody, ProposalName, Row};
use misp_ids::EventId;
use misp_model::NamedProposal;

/// Whether the proposal is for a new attribute.
#[tactic(auto, unfolding(misp_model::specs::Statements::is_for_new))]
pub(crate) fn is_for_new(proposal: &NamedProposal) -> bool
    ensures { result ≡ is_for_new proposal.now }
{
    matches!(proposal.name.target, Place::Event)
}

/// The name of the proposal.
pub(crate) fn name_of(proposal: &NamedProposal) -> ProposalName
    ensures value { result ≡ proposal.now }
    ensures fits { IsProposalName result }
{
    proposal.name
}

fn proposal_key(event: EventId, proposal: &NamedProposal) -> Key
    ensures { result ≡ Proposal event proposal.now }
{
    let name = name_of(proposal);
    Key {
        form: KeyForm::Proposal { event, name },
    }
}

fn target_of(proposal: &NamedProposal) -> Place
    ensures { result ≡ proposal.now.target }
{
    proposal.name.target
}

// ---- who may judge it

#[tactic(auto, unfolding(crate::specs::Judging::is_granted_of))]
fn is_granted_of(row: &Row, rows: &[Row], who: &Viewer, key: &Key) -> bool
    ensures { result ≡ is_granted_of rows.now who.now.groups.now who.now.here who.now.org key.now
        row.now }
{
    are_same(&row.key, key) && is_granted(rows, who, row)
}

// Whether the caller is granted a row of this key.
fn is_known(rows: &[Row], who: &Viewer, key: &Key) -> bool
    ensures { result ≡ list_any (is_granted_of rows.now who.now.groups.now who.now.here who.now.org
        key.now) rows.now }
{
    rows.iter().any(|row| is_granted_of(row, rows, who, key))
}

/// Whether the proposal is granted, and is for a new attribute or for one that is live in the
/// caller's copy.
#[tactic(auto, unfolding(crate::specs::Judging::may_judge))]
pub(crate) fn may_judge(
    rows: &[Row],
    who: &Viewer,
    event: &EventId,
    proposal: &NamedProposal,
) -> bool
    ensures { result ≡ may_judge rows.now who.now.groups.now who.now.here who.now.org
        event.now proposal.now }
{
    is_known(rows, who, &proposal_key(*event, proposal))
        && (is_for_new(proposal) || has_live(rows, &who.org, event, &target_of(proposal)))
}

// ---- the row of the least owner

// The number of the owner, if it is a granted row of the key.
#[tactic(auto, unfolding(crate::specs::Judging::is_lesser))]
fn owner_if(row: &Row, rows: &[Row], who: &Viewer, key: &Key) -> Option<u128>
    ensures { (n : ℕ) → is_below result n
        ≡ is_lesser rows.now who.now.groups.now who.now.here who.now.org key.now n row.now }
{
    if are_same(&row.key, key) && is_granted(rows, who, row) {
        Some(row.owner.0.0)
    } else {
        None
    }
}

fn lesser(a: Option<u128>, b: Option<u128>) -> Option<u128>
    ensures { (n : ℕ) → is_below result n ≡ (is_below a n || is_below b n) }
{
    match (a, b) {
        (Some(m), Some(n)) => Some(if m < n { m } else { n }),
        (None, b) => b,
        (a, None) => a,
    }
}

// The number of the least owner who has a granted row of the key.
fn least_owner(rows: &[Row], who: &Viewer, key: &Key) -> Option<u128>
    ensures { IsLeastOwner result rows.now who.now.groups.now who.now.here who.now.org key.now
        rows.now }
{
    let mut least = None;
    for row in rows {
        least = lesser(least, owner_if(row, rows, who, key));
    }
    least
}

fn is_owned_below(least: Option<u128>, row: &Row) -> bool
    ensures { result ≡ is_below least row.now.owner.0.0 }
{
    match least {
        Some(number) => number < row.owner.0.0,
        None => false,
    }
}

// Whether it is the row of the key of the least owner, whose number this is.
fn is_seen(row: &Row, rows: &[Row], who: &Viewer, key: &Key, least: Option<u128>) -> bool
    requires { IsLeastOwner least rows.now who.now.groups.now who.now.here who.now.org key.now
        rows.now }
    ensures { result ≡ is_seen rows.now who.now.groups.now who.now.here who.now.org key.now
        row.now }
{
    is_granted_of(row, rows, who, key) && !is_owned_below(least, row)
}

// The granted row of the key that the least owner has.
fn seen_row<'a>(rows: &'a [Row], who: &Viewer, key: &Key) -> Option<&'a Row>
    ensures { option_copied result
        ≡ find (is_seen rows.now who.now.groups.now who.now.here who.now.org key.now) rows.now }
{
    let least = least_owner(rows, who, key);
    for row in rows {
        if is_seen(row, rows, who, key, least) {
            return Some(row);
        }
    }
    None
}

// ---- its body

#[tactic(auto, unfolding(misp_model::specs::Statements::proposal_body))]
fn body_of(row: &Row) -> Option<&ProposalBody>
    ensures value { option_copied result ≡ proposal_body row.now.content }
    ensures fits { IfSome result (λ body. IsProposalBody (may_remove row.now.key) body.now) }
{
    match &row.content {
        Content::Proposal(body) => Some(body),
        _ => None,
    }
}

/// The body of the proposal, if it is accepted and the caller sees one.
#[tactic(auto, unfolding(crate::specs::Judging::body_accepted, crate::specs::Judging::if_accepted))]
pub(crate) fn body_accepted<'a>(
    rows: &'a [Row],
    who: &Viewer,
    event: &EventId,
    proposal: &NamedProposal,
    accept: bool,
) -> Option<&'a ProposalBody>
    ensures value { option_copied result ≡ body_accepted rows.now who.now.groups.now who.now.here
        who.now.org event.now proposal.now accept }
    ensures fits { IfSome result (λ body.
        IsProposalBody (may_remove (Proposal event.now proposal.now)) body.now) }
{
    if !accept {
        return None;
    }
    match seen_row(rows, who, &proposal_key(*event, proposal)) {
        Some(row) => body_of(row),
        None => None,
    }
}
