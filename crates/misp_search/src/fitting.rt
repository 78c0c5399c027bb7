//! Which attributes fit a filter.

ghost use Rattle.std.specs.Prelude.{◌≡◌};
ghost use Rattle.misp_search.specs.Fitting.{attribute_body_fits, attribute_content_fits, body_fits, event_content_fits, event_fits, tags_of};
ghost use Rattle.misp_search.specs.Wishes.{wants_since};

use crate::paging::Page;
use crate::wishes::{
    wants_category, wants_flag, wants_from, wants_org, wants_since, wants_text, wants_to,
};
use misp_elem::{AttributeBody, Content, EventBody, Row, Tag};
use misp_ids::{Items, OrgId, Stamp, Text};

/// What is searched for, and the page of what is found. What is left open may be anything.
#[derive(Drop)]
pub struct Filter {
    /// The type.
    pub kind: Option<Text>,
    /// The number of the category; `None` within where the name that is asked for is no category's.
    pub category: Option<Option<u8>>,
    /// The value, in its kept form.
    pub value: Option<Text>,
    pub to_ids: Option<bool>,
    /// Names of tags, of which the attribute or the event has one at least.
    pub tags: Option<Items<Text>>,
    /// Who created the event.
    pub org: Option<OrgId>,
    pub published: Option<bool>,
    /// The first date of events, and the last.
    pub from: Option<Text>,
    pub to: Option<Text>,
    /// The least stamp of the attribute.
    pub stamp: Option<Stamp>,
    pub page: Page,
}

#[tactic(auto, unfolding(crate::specs::Fitting::body_fits))]
fn body_fits(filter: &Filter, body: &EventBody) -> bool
    ensures { result ≡ body_fits filter.now body.now }
{
    wants_org(filter.org, body.orgc)
        && (wants_from(&filter.from, &body.date) && wants_to(&filter.to, &body.date))
}

#[tactic(auto, unfolding(crate::specs::Fitting::event_content_fits))]
fn event_content_fits(filter: &Filter, content: &Content) -> bool
    ensures { result ≡ event_content_fits filter.now content.now }
{
    match content {
        Content::Event(body) => body_fits(filter, body),
        _ => false,
    }
}

/// Whether an event is wanted, by its own row.
#[tactic(auto, unfolding(crate::specs::Fitting::event_fits))]
pub(crate) fn event_fits(filter: &Filter, row: &Row) -> bool
    ensures { result ≡ event_fits filter.now row.now }
{
    wants_flag(filter.published, !row.held) && event_content_fits(filter, &row.content)
}

/// The tags of an event or an attribute.
#[tactic(auto, unfolding(crate::specs::Fitting::tags_of))]
pub(crate) fn tags_of(content: &Content) -> &[Tag]
    ensures { result.now ≡ tags_of content.now }
{
    match content {
        Content::Event(body) => body.tags.as_slice(),
        Content::Attribute(body) => body.tags.as_slice(),
        _ => &[],
    }
}

#[tactic(auto, unfolding(crate::specs::Fitting::attribute_body_fits))]
fn attribute_body_fits(filter: &Filter, body: &AttributeBody) -> bool
    ensures { result ≡ attribute_body_fits filter.now body.now }
{
    wants_text(&filter.kind, &body.kind)
        && (wants_category(filter.category, body.category)
            && (wants_text(&filter.value, &body.value) && wants_flag(filter.to_ids, body.to_ids)))
}

/// Whether an attribute is wanted, by its type, category, value and `to_ids`.
#[tactic(auto, unfolding(crate::specs::Fitting::attribute_content_fits))]
pub(crate) fn attribute_content_fits(filter: &Filter, content: &Content) -> bool
    ensures { result ≡ attribute_content_fits filter.now content.now }
{
    match content {
        Content::Attribute(body) => attribute_body_fits(filter, body),
        _ => false,
    }
}

/// Whether the stamp is late enough.
pub(crate) fn is_late(filter: &Filter, row: &Row) -> bool
    ensures { result ≡ wants_since filter.now.stamp row.now.stamp }
{
    wants_since(filter.stamp, row.stamp)
}
