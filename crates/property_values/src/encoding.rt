//! Values become octets.

ghost use Rattle.std.specs.Prelude.{◌≡◌, All, IfOk, Some, map};
ghost use Rattle.bac_values.specs.BitString.{IsBitString};
ghost use Rattle.bac_values.specs.declared.value.Value.TheVariants as values;
ghost use Rattle.bac_tags.specs.Values.{IsWritable};
ghost use Rattle.bac_tags.specs.Writing.{written_object, written_value};
ghost use Rattle.property_values.specs.declared.content.Content.TheVariants.{Elements};
ghost use Rattle.property_values.specs.Properties.{array_of_values, flags, list_of_values, one, reference_to, written_time_stamp};

use crate::Content;
use bac_tags::{
    write_closing, write_object, write_opening, write_stamp, write_unsigned, write_value,
};
use bac_values::{Bits, Items, NoMemory, ObjectId, PropertyId, Stamp, Text, Value, push};
use std::alloc::Global;

/// The octets of a value.
pub(crate) fn octets_of(alloc: Global, value: &Value) -> Result<Items<u8>, NoMemory>
    requires writable { IsWritable value.now }
    ensures octets { IfOk result (λ octets. octets ≡ written_value value.now) }
{
    let mut octets = Vec::new(alloc);
    write_value(&mut octets, value)?;
    Ok(Items::of(octets))
}

/// One value.
pub(crate) fn one(alloc: Global, value: &Value) -> Result<Content, NoMemory>
    requires writable { IsWritable value.now }
    ensures one { IfOk result (λ content. content ≡ one value.now) }
{
    let octets = octets_of(alloc, value)?;
    Ok(Content::Whole { octets })
}

/// True or false.
pub fn boolean(alloc: Global, truth: bool) -> Result<Content, NoMemory>
    ensures one { IfOk result (λ content. content ≡ one (values.Bool truth)) }
{
    one(alloc, &Value::Bool(truth))
}

/// A whole number without a sign.
pub fn unsigned(alloc: Global, number: u32) -> Result<Content, NoMemory>
    ensures one { IfOk result (λ content. content ≡ one (values.Unsigned number)) }
{
    one(alloc, &Value::Unsigned(number))
}

/// The number of one of a list of names.
pub fn enumerated(alloc: Global, number: u32) -> Result<Content, NoMemory>
    ensures one { IfOk result (λ content. content ≡ one (values.Enumerated number)) }
{
    one(alloc, &Value::Enumerated(number))
}

/// A text.
pub fn text(alloc: Global, text: &Text) -> Result<Content, NoMemory>
    ensures one { IfOk result (λ content. content ≡ one (values.Text text.now)) }
{
    one(alloc, &Value::Text(text.clone()?))
}

/// An object's identifier.
pub fn object(alloc: Global, object: ObjectId) -> Result<Content, NoMemory>
    ensures one { IfOk result (λ content. content ≡ one (values.Object object)) }
{
    one(alloc, &Value::Object(object))
}

/// The string of so many bits, the first one lowest.
pub(crate) fn string_with(length: u8, bits: u64) -> Bits
    requires string { IsBitString length bits }
    ensures string { result ≡ record { size = length; bits = bits } }
{
    match Bits::new(length, bits) {
        Ok(string) => string,
        Err(_) => unreachable!(),
    }
}

/// A string of two bits, the first flag first.
pub(crate) fn two_flags(alloc: Global, bits: [bool; 2]) -> Result<Content, NoMemory>
    ensures one { IfOk result (λ content. content ≡ flags bits) }
{
    one(alloc, &Value::Bits(Bits::of_flags(&bits)))
}

/// A string of three bits, the first flag first.
pub fn three_flags(alloc: Global, bits: [bool; 3]) -> Result<Content, NoMemory>
    ensures one { IfOk result (λ content. content ≡ flags bits) }
{
    one(alloc, &Value::Bits(Bits::of_flags(&bits)))
}

/// A string of four bits, the first flag first.
pub fn four_flags(alloc: Global, bits: [bool; 4]) -> Result<Content, NoMemory>
    ensures one { IfOk result (λ content. content ≡ flags bits) }
{
    one(alloc, &Value::Bits(Bits::of_flags(&bits)))
}

/// A list of values, whose elements stand one after the other.
pub(crate) fn list_of_values(alloc: Global, values: &[Value]) -> Result<Content, NoMemory>
    requires writable { All IsWritable values.now }
    ensures list { IfOk result (λ content. content ≡ list_of_values values.now) }
{
    let mut octets = Vec::new(alloc);
    for value in values {
        write_value(&mut octets, value)?;
    }
    Ok(Content::Whole {
        octets: Items::of(octets),
    })
}

/// An array of values.
pub(crate) fn array_of_values(alloc: Global, values: &[Value]) -> Result<Content, NoMemory>
    requires writable { All IsWritable values.now }
    ensures array { IfOk result (λ content. content ≡ array_of_values values.now) }
{
    let mut elements = Vec::new(alloc);
    for value in values {
        push(&mut elements, octets_of(alloc, value)?)?;
    }
    Ok(Content::Elements {
        elements: Items::of(elements),
    })
}

// The number of the tags round a date and a time in a time stamp.
const DATE_AND_TIME: u8 = 2;

fn time_stamp(alloc: Global, stamp: Stamp) -> Result<Items<u8>, NoMemory>
    ensures octets { IfOk result (λ octets. octets ≡ written_time_stamp stamp) }
{
    let mut octets = Vec::new(alloc);
    write_opening(&mut octets, DATE_AND_TIME)?;
    write_stamp(&mut octets, None, stamp)?;
    write_closing(&mut octets, DATE_AND_TIME)?;
    Ok(Items::of(octets))
}

/// An array of time stamps, each of which is a date and a time.
pub fn array_of_stamps(alloc: Global, stamps: &[Stamp]) -> Result<Content, NoMemory>
    ensures array { IfOk result (λ content. content ≡ Elements (map written_time_stamp stamps.now)) }
{
    let mut elements = Vec::new(alloc);
    for stamp in stamps {
        push(&mut elements, time_stamp(alloc, *stamp)?)?;
    }
    Ok(Content::Elements {
        elements: Items::of(elements),
    })
}

fn object_octets(alloc: Global, object: ObjectId) -> Result<Items<u8>, NoMemory>
    ensures octets { IfOk result (λ octets. octets ≡ written_object None object) }
{
    let mut octets = Vec::new(alloc);
    write_object(&mut octets, None, object)?;
    Ok(Items::of(octets))
}

/// An array of identifiers.
pub(crate) fn array_of_objects(alloc: Global, objects: &[ObjectId]) -> Result<Content, NoMemory>
    ensures array { IfOk result (λ content. content ≡ Elements (map (written_object None) objects.now)) }
{
    let mut elements = Vec::new(alloc);
    for object in objects {
        push(&mut elements, object_octets(alloc, *object)?)?;
    }
    Ok(Content::Elements {
        elements: Items::of(elements),
    })
}

// An object and its Present_Value (BACnetObjectPropertyReference).
fn present_value_of(alloc: Global, object: ObjectId) -> Result<Content, NoMemory>
    ensures reference { IfOk result (λ content. content ≡ reference_to (Some object)) }
{
    let mut octets = Vec::new(alloc);
    write_object(&mut octets, Some(0), object)?;
    write_unsigned(&mut octets, Some(1), PropertyId::PRESENT_VALUE.0)?;
    Ok(Content::Whole {
        octets: Items::of(octets),
    })
}

/// A reference to an object's Present_Value (BACnetObjectPropertyReference); null where there is none.
pub fn reference_to(alloc: Global, object: Option<ObjectId>) -> Result<Content, NoMemory>
    ensures reference { IfOk result (λ content. content ≡ reference_to object) }
{
    match object {
        Some(object) => present_value_of(alloc, object),
        None => one(alloc, &Value::Null),
    }
}
