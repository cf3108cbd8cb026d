//! A text becomes a site.

ghost use Rattle.std.specs.Prelude.{◌≡◌, ◌⊎◌, Some, None, map, IfOk, IfErr};
ghost use Rattle.toml.specs.View.{table_view};
ghost use Rattle.alarm_core.specs.Sites.{IsSite};
ghost use Rattle.toml_items.specs.Answers.{Gives};
ghost use Rattle.site_config.specs.Identifiers.{id_of_binding, id_of_class, identifiers, least_twice};
ghost use Rattle.site_config.specs.References.{least_dangling};
ghost use Rattle.site_config.specs.Sites.{duplicate_of, dangling_of, notes_fit, verdict_on, bound, destinations_of, with_destinations, in_order, site_of_draft, site_of_document, document_of, site_of};

use crate::binding_item::BindingItem;
use crate::class::ClassItem;
use crate::destination::DestinationSite;
use crate::draft::{Draft, draft_of};
use crate::fault::{Counted, SiteFault};
use crate::identifiers::{identifiers, least_twice};
use crate::limits::limits_of;
use crate::notes::{exceed, members_of};
use crate::order::in_order;
use crate::references::least_dangling;
use alarm_core::{ClassSite, Site};
use bac_values::{Items, MOST_SITE_OCTETS, NoMemory, push};
use notify_class::{Binding, Class, Destination};
use std::alloc::Global;
use toml::Table;

/// Refuses an identifier that is given twice.
fn check_identifiers(alloc: Global, draft: &Draft) -> Result<(), SiteFault>
    ensures answer { Gives SiteFault.NoMemory result (duplicate_of (least_twice (identifiers draft.now))) }
{
    let objects = identifiers(alloc, draft)?;
    match least_twice(objects.as_slice()) {
        Some(object) => Err(SiteFault::Duplicate { object }),
        None => Ok(()),
    }
}

/// Refuses an object that refers to what isn't there.
fn check_references(draft: &Draft) -> Result<(), SiteFault>
    ensures answer { result ≡ dangling_of (least_dangling draft.now) }
{
    match least_dangling(draft) {
        Some(object) => Err(SiteFault::Dangling { object }),
        None => Ok(()),
    }
}

/// Refuses more notifications of one tick than the outbox has room for.
fn check_notes(alloc: Global, draft: &Draft) -> Result<(), SiteFault>
    ensures answer { Gives SiteFault.NoMemory result (notes_fit draft.now) }
{
    let members = members_of(alloc, draft)?;
    let destinations = draft.destinations.as_slice();
    if exceed(destinations, members.as_slice(), draft.device.outbox) {
        return Err(SiteFault::TooMany {
            what: Counted::Notes,
        });
    }
    Ok(())
}

/// What is looked for once every item is read.
#[tactic(auto, unfolding(crate::specs::Sites::verdict_on))]
fn check(alloc: Global, draft: &Draft) -> Result<(), SiteFault>
    ensures answer { Gives SiteFault.NoMemory result (verdict_on draft.now) }
{
    limits_of(alloc, draft)?;
    check_identifiers(alloc, draft)?;
    check_references(draft)?;
    check_notes(alloc, draft)
}

/// The destinations of a class, in their order.
fn destinations_of(
    alloc: Global,
    class: u32,
    destinations: &[DestinationSite],
) -> Result<Vec<Destination>, NoMemory>
    ensures destinations { IfOk result (λ own. own.items ≡ destinations_of class destinations.now) }
{
    let own: Vec<Destination> = destinations
        .iter()
        .filter(|site| site.class.instance() == class)
        .map(|site| site.destination)
        .collect(alloc)?;
    Ok(own)
}

/// The class with its destinations.
fn with_destinations(
    alloc: Global,
    destinations: &[DestinationSite],
    item: &ClassItem,
) -> Result<ClassSite, NoMemory>
    ensures class { IfOk result (λ class. class ≡ with_destinations destinations.now item.now) }
{
    let instance = item.object.instance();
    let own = destinations_of(alloc, instance, destinations)?;
    let name = item.name.clone()?;
    let priority = item.priority;
    let ack_required = item.ack_required;
    Ok(ClassSite {
        name,
        class: Class {
            instance,
            priority,
            ack_required,
            destinations: Items::of(own),
        },
    })
}

/// The classes with their destinations.
fn classes_of(
    alloc: Global,
    items: &[ClassItem],
    destinations: &[DestinationSite],
) -> Result<Items<ClassSite>, NoMemory>
    ensures classes { IfOk result (λ classes. classes ≡ map (with_destinations destinations.now) items.now) }
{
    let mut classes = Vec::new(alloc);
    for item in items {
        push(&mut classes, with_destinations(alloc, destinations, item)?)?;
    }
    Ok(Items::of(classes))
}

/// The classes in their order, with their destinations.
fn classes_with(
    alloc: Global,
    items: Items<ClassItem>,
    destinations: Items<DestinationSite>,
) -> Result<Items<ClassSite>, NoMemory>
    ensures classes { IfOk result (λ classes. classes ≡ map (with_destinations destinations) (in_order id_of_class items)) }
{
    let items = in_order(alloc, items)?;
    classes_of(alloc, items.as_slice(), destinations.as_slice())
}

/// Where a device is that is bound.
fn bound(item: &BindingItem) -> Binding
    ensures binding { result ≡ bound item.now }
{
    Binding {
        device: item.object.instance(),
        peer: item.peer,
    }
}

/// Where the devices are that are bound.
fn bindings_of(alloc: Global, items: &[BindingItem]) -> Result<Items<Binding>, NoMemory>
    ensures bindings { IfOk result (λ bindings. bindings ≡ map bound items.now) }
{
    let mut bindings = Vec::new(alloc);
    for item in items {
        push(&mut bindings, bound(item))?;
    }
    Ok(Items::of(bindings))
}

/// Where the devices are that are bound, in their order.
fn bindings_in_order(alloc: Global, items: Items<BindingItem>) -> Result<Items<Binding>, NoMemory>
    ensures bindings { IfOk result (λ bindings. bindings ≡ map bound (in_order id_of_binding items)) }
{
    let items = in_order(alloc, items)?;
    bindings_of(alloc, items.as_slice())
}

/// The site of what the sections say.
fn site_of_draft(alloc: Global, draft: Draft) -> Result<Site, NoMemory>
    ensures site { IfOk result (λ site. site ≡ site_of_draft draft) }
{
    let Draft {
        device,
        classes,
        destinations,
        objects,
        enrollments,
        logs,
        bindings,
    } = draft;
    let classes = classes_with(alloc, classes, destinations)?;
    let objects = in_order(alloc, objects)?;
    let enrollments = in_order(alloc, enrollments)?;
    let logs = in_order(alloc, logs)?;
    let bindings = bindings_in_order(alloc, bindings)?;
    Ok(Site {
        device,
        classes,
        objects,
        enrollments,
        logs,
        bindings,
    })
}

/// The site of a document.
#[tactic(auto, unfolding(crate::specs::Sites::site_of_document))]
fn site_of_document(alloc: Global, document: &Table) -> Result<Site, SiteFault>
    ensures answer { Gives SiteFault.NoMemory result (site_of_document (table_view document.now)) }
{
    let draft = draft_of(alloc, document)?;
    check(alloc, &draft)?;
    Ok(site_of_draft(alloc, draft)?)
}

/// The document that a text is.
#[tactic(auto, using(script_lines::proofs::Utf8::passes_utf8, script_lines::proofs::Utf8::fails_utf8))]
fn document_of(alloc: Global, text: &[u8]) -> Result<Table, SiteFault>
    ensures document { IfOk result (λ table. document_of text.now ≡ Some (table_view table)) }
    ensures refused { IfErr result (λ fault. (fault ≡ SiteFault.NoMemory) ⊎ ((fault ≡ SiteFault.NotToml) × (document_of text.now ≡ None))) }
{
    let Ok(text) = std::str::from_utf8(text) else {
        return Err(SiteFault::NotToml);
    };
    match toml::table_from_str(alloc, text) {
        Ok(table) => Ok(table),
        Err(error) => {
            if error.is_memory() {
                return Err(SiteFault::NoMemory);
            }
            Err(SiteFault::NotToml)
        }
    }
}

/// The site that a text is, or its first fault.
#[tactic(auto, unfolding(crate::specs::Sites::site_of))]
fn site_of_text(alloc: Global, text: &[u8]) -> Result<Site, SiteFault>
    ensures answer { Gives SiteFault.NoMemory result (site_of text.now) }
{
    if text.len() > MOST_SITE_OCTETS {
        return Err(SiteFault::TooLong);
    }
    let document = document_of(alloc, text)?;
    site_of_document(alloc, &document)
}

/// Reads the text of a site: TOML of at most `MOST_SITE_OCTETS` octets. The answer is the site that the text is, or the first fault
/// in the order of `docs/SITE.md`, unless memory is refused. The core can start from that site: it keeps to the limits, and
/// the notifications of one tick always fit its empty outbox.
pub fn read_site(alloc: Global, text: &[u8]) -> Result<Site, SiteFault>
    ensures answer { Gives SiteFault.NoMemory result (site_of text.now) }
    ensures keeps { IfOk result IsSite }
{
    site_of_text(alloc, text)
}
