//! What a filter finds.

ghost use Rattle.std.specs.Prelude.{◌≡◌, ◌++◌, [], ◌∷◌, cond, filter, flat_map, IfOk, OnOk};
ghost use Rattle.std.specs.List.{list_any};
ghost use Rattle.misp_search.specs.Fitting.{attribute_fits, attributes_of, event_fits, fits, has_hit, tags_of, wants_tags};
ghost use Rattle.misp_search.specs.Window.{HaveCome};
ghost use Rattle.misp_elem.specs.declared.visible.VisibleObject.{VisibleObject as Object};

use crate::fitting::{Filter, attribute_content_fits, event_fits, is_late, tags_of};
use crate::names::{Names, names_of, wants_tags};
use crate::window::Window;
use misp_elem::{Row, VisibleAttribute, VisibleEvent, VisibleObject};
use misp_ids::{Items, NoMemory};
use std::alloc::Global;
use std::marker::Model;

/// A filter with the names of tags that it wants. A contract sees it as the filter.
#[derive(Drop)]
pub struct Search<'a> {
    filter: &'a Filter,
    names: Names<'a>,
}

impl<'a> Model for Search<'a> {
    ghost use Rattle.misp_search.specs.Names.{AreWanted};
    ghost use Rattle.misp_search.specs.declared.fitting.Filter.{Filter};

    ghost Value = { Filter };

    ghost view = { λ s. s.filter.now };

    ghost invariant = { λ s. AreWanted s.names s.filter.now.tags };
}

impl<'a> Search<'a> {
    pub fn of(alloc: Global, filter: &'a Filter) -> Result<Search<'a>, NoMemory>
        ensures { IfOk result (λ search. search ≡ filter.now) }
    {
        let names = names_of(alloc, &filter.tags)?;
        Ok(Search { filter, names })
    }

    /// Those attributes of the event come that fit, those outside objects first.
    pub fn put_hits(
        &self,
        event: VisibleEvent,
        hits: &mut Window<VisibleAttribute>,
    ) -> Result<(), NoMemory>
        ensures { OnOk result
            (HaveCome (filter (fits self.now event) (attributes_of event)) hits.old hits.new) }
    {
        let wanted = self.takes_event(&event.row);
        let tagged = self.takes_tags(&event.row);
        let (attributes, objects) = parts_of(event);
        put_where(self, wanted, tagged, attributes, objects, hits)?;
        Ok(())
    }

    /// Whether the event has an attribute that fits.
    pub fn has_hit(&self, event: &VisibleEvent) -> bool
        ensures { result ≡ has_hit self.now event.now }
    {
        let tagged = self.takes_tags(&event.row);
        self.takes_event(&event.row)
            && (has_one(self, tagged, event.attributes.as_slice())
                || has_inner(self, tagged, event.objects.as_slice()))
    }

    // Whether the event is wanted, by its own row.
    fn takes_event(&self, row: &Row) -> bool
        ensures { result ≡ event_fits self.now row.now }
    {
        event_fits(self.filter, row)
    }

    // Whether the tags of an event or an attribute are wanted.
    fn takes_tags(&self, row: &Row) -> bool
        ensures { result ≡ wants_tags self.now.tags (tags_of row.now.content) }
    {
        wants_tags(&self.names, tags_of(&row.content))
    }

    // Whether the attribute fits, where the tags of its event are wanted or not.
    #[tactic(auto, unfolding(crate::specs::Fitting::attribute_fits))]
    fn takes(&self, tagged: bool, attribute: &VisibleAttribute) -> bool
        ensures { result ≡ attribute_fits self.now tagged attribute.now }
    {
        let row = &attribute.row;
        is_late(self.filter, row)
            && (attribute_content_fits(self.filter, &row.content)
                && (tagged || self.takes_tags(row)))
    }
}

// An attribute comes, where it fits.
fn put_if(
    hits: &mut Window<VisibleAttribute>,
    attribute: VisibleAttribute,
    fits: bool,
) -> Result<(), NoMemory>
    ensures { OnOk result (HaveCome (cond fits (attribute ∷ []) []) hits.old hits.new) }
{
    if fits {
        hits.put(attribute)?;
    }
    Ok(())
}

// Those of the attributes come that fit.
fn put(
    search: &Search<'_>,
    tagged: bool,
    list: Items<VisibleAttribute>,
    hits: &mut Window<VisibleAttribute>,
) -> Result<(), NoMemory>
    ensures { OnOk result
        (HaveCome (filter (attribute_fits search.now tagged) list) hits.old hits.new) }
{
    for attribute in list.into_vec() {
        let fits = search.takes(tagged, &attribute);
        put_if(hits, attribute, fits)?;
    }
    Ok(())
}

// The attributes of an object.
fn attributes_in(object: VisibleObject) -> Items<VisibleAttribute>
    ensures { result ≡ object.attributes }
{
    let VisibleObject { attributes, .. } = object;
    attributes
}

// The same of the attributes in objects.
fn put_inner(
    search: &Search<'_>,
    tagged: bool,
    objects: Items<VisibleObject>,
    hits: &mut Window<VisibleAttribute>,
) -> Result<(), NoMemory>
    ensures { OnOk result (HaveCome (filter (attribute_fits search.now tagged)
        (flat_map (λ (o : Object). o.attributes) objects)) hits.old hits.new) }
{
    for object in objects.into_vec() {
        put(search, tagged, attributes_in(object), hits)?;
    }
    Ok(())
}

// The attributes of an event outside objects, and its objects.
fn parts_of(event: VisibleEvent) -> (Items<VisibleAttribute>, Items<VisibleObject>)
    ensures attributes { result.0 ≡ event.attributes }
    ensures objects { result.1 ≡ event.objects }
{
    let VisibleEvent {
        attributes,
        objects,
        ..
    } = event;
    (attributes, objects)
}

// Those of the attributes and of those in objects come that fit, where the event is wanted.
fn put_where(
    search: &Search<'_>,
    wanted: bool,
    tagged: bool,
    attributes: Items<VisibleAttribute>,
    objects: Items<VisibleObject>,
    hits: &mut Window<VisibleAttribute>,
) -> Result<(), NoMemory>
    ensures { OnOk result (HaveCome (cond wanted
        (filter (attribute_fits search.now tagged) attributes
        ++ filter (attribute_fits search.now tagged)
        (flat_map (λ (o : Object). o.attributes) objects)) []) hits.old hits.new) }
{
    if wanted {
        put(search, tagged, attributes, hits)?;
        put_inner(search, tagged, objects, hits)?;
    }
    Ok(())
}

// Whether one of the attributes fits.
fn has_one(search: &Search<'_>, tagged: bool, list: &[VisibleAttribute]) -> bool
    ensures { result ≡ list_any (attribute_fits search.now tagged) list.now }
{
    list.iter().any(|attribute| search.takes(tagged, attribute))
}

// Whether one of the attributes in objects fits.
fn has_inner(search: &Search<'_>, tagged: bool, objects: &[VisibleObject]) -> bool
    ensures { result ≡ list_any
        (λ (o : Object). list_any (attribute_fits search.now tagged) o.attributes) objects.now }
{
    objects.iter().any(|object| has_one(search, tagged, object.attributes.as_slice()))
}
