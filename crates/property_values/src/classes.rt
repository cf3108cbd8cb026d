//! The properties of classes, as they are read.

ghost use Rattle.std.specs.Prelude.{◌≡◌, ◌<◌, ◌++◌, IfOk, None, OnOk};
ghost use Rattle.bac_tags.specs.Writing.{written_unsigned};
ghost use Rattle.property_values.specs.ClassProperties.{array_of_numbers, class_content, class_property, clock_of, days_of, list_of_recipients, written_clock, written_recipient};
ghost use Rattle.property_values.specs.Reading.{AnswersContent};
ghost use Rattle.property_values.specs.Devices.{HasInstance, class_object};

use crate::encoding::{enumerated, object, string_with, text, three_flags, unsigned};
use crate::{ClassProperty, Content, ReadFault};
use bac_tags::{write_bits, write_bool, write_time, write_unsigned};
use bac_values::{Bits, Items, NoMemory, ObjectId, ObjectKind, PropertyId, push};
use notify_class::{ClassSite, Destination};
use recipients::write_peer;
use std::alloc::Global;

/// The identifier of a notification class of a site.
pub fn class_object(listed: &ClassSite) -> ObjectId
    requires instance { HasInstance listed.now }
    ensures object { result ≡ class_object listed.now }
{
    ObjectId::of_kind(ObjectKind::NotificationClass, listed.class.instance).unwrap()
}

// The hour, the minute, the second and the hundredth of a time of the day.
fn clock_of(time: u32) -> [u8; 4]
    requires day { time < 8640000 }
    ensures clock { result ≡ clock_of time }
{
    [
        (time / 360_000) as u8,
        (time / 6_000 % 60) as u8,
        (time / 100 % 60) as u8,
        (time % 100) as u8,
    ]
}

fn write_clock(out: &mut Vec<u8>, time: u32) -> Result<(), NoMemory>
    requires day { time < 8640000 }
    ensures written { OnOk result (out.new.items ≡ out.old.items ++ written_clock time) }
{
    write_time(out, clock_of(time))
}

// The valid days, Monday first.
fn days_of(recipient: &Destination) -> Bits
    ensures days { result ≡ days_of recipient.now }
{
    string_with(7, u64::from(recipient.days))
}

fn write_recipient(out: &mut Vec<u8>, recipient: &Destination) -> Result<(), NoMemory>
    ensures written { OnOk result (out.new.items ≡ out.old.items ++ written_recipient recipient.now) }
{
    write_bits(out, None, days_of(recipient))?;
    write_clock(out, recipient.from)?;
    write_clock(out, recipient.to)?;
    write_peer(out, recipient.peer)?;
    write_unsigned(out, None, recipient.process)?;
    write_bool(out, None, recipient.confirmed)?;
    write_bits(out, None, Bits::of_flags(&recipient.transitions))
}

fn list_of_recipients(alloc: Global, recipients: &[Destination]) -> Result<Content, NoMemory>
    ensures list { IfOk result (λ content. content ≡ list_of_recipients recipients.now) }
{
    let mut octets = Vec::new(alloc);
    for recipient in recipients {
        write_recipient(&mut octets, recipient)?;
    }
    Ok(Content::Whole {
        octets: Items::of(octets),
    })
}

fn number_octets(alloc: Global, number: u8) -> Result<Items<u8>, NoMemory>
    ensures octets { IfOk result (λ octets. octets ≡ written_unsigned None number) }
{
    let mut octets = Vec::new(alloc);
    write_unsigned(&mut octets, None, u32::from(number))?;
    Ok(Items::of(octets))
}

fn array_of_numbers(alloc: Global, numbers: &[u8]) -> Result<Content, NoMemory>
    ensures array { IfOk result (λ content. content ≡ array_of_numbers numbers.now) }
{
    let mut elements = Vec::new(alloc);
    for number in numbers {
        push(&mut elements, number_octets(alloc, *number)?)?;
    }
    Ok(Content::Elements {
        elements: Items::of(elements),
    })
}

// What a property of a notification class with these recipients is.
fn class_property(
    alloc: Global,
    listed: &ClassSite,
    recipients: &[Destination],
    property: ClassProperty,
) -> Result<Content, NoMemory>
    requires instance { HasInstance listed.now }
    ensures content { IfOk result (λ content. content ≡ class_property listed.now recipients.now property) }
{
    let class = &listed.class;
    match property {
        ClassProperty::ObjectIdentifier => object(alloc, class_object(listed)),
        ClassProperty::ObjectName => text(alloc, &listed.name),
        ClassProperty::ObjectType => {
            enumerated(alloc, u32::from(ObjectKind::NotificationClass.number()))
        }
        ClassProperty::NotificationClass => unsigned(alloc, class.instance),
        ClassProperty::Priority => array_of_numbers(alloc, &class.priority),
        ClassProperty::AckRequired => three_flags(alloc, class.ack_required),
        ClassProperty::RecipientList => list_of_recipients(alloc, recipients),
    }
}

/// What a property of a notification class with these recipients is (ANSI/ASHRAE 135-2020, 12.21), or that there is none.
pub fn class_content(
    alloc: Global,
    listed: &ClassSite,
    recipients: &[Destination],
    property: PropertyId,
) -> Result<Content, ReadFault>
    requires instance { HasInstance listed.now }
    ensures content { AnswersContent result (class_content listed.now recipients.now property.0) }
{
    let Some(known) = ClassProperty::of_number(property.0) else {
        return Err(ReadFault::UNKNOWN_PROPERTY);
    };
    Ok(class_property(alloc, listed, recipients, known)?)
}
