//! Answers of the services on properties are written, and I-Am.

ghost use Rattle.std.specs.Prelude.{◌≡◌, ◌++◌, ◌∷◌, [], Some, IfOk, OnOk};
ghost use Rattle.property_services.specs.Writing.{written_reference, written_read_ack, written_range_ack, written_i_am};
ghost use Rattle.bac_tags.specs.Writing.{written_unsigned};
ghost use Rattle.bac_tags.specs.ParameterWriting.{written_enclosed, written_if_given};

use crate::{RangeRequest, ReadRequest};
use bac_tags::{
    write_bits, write_closing, write_object, write_opening, write_unsigned, write_value,
};
use bac_values::{Bits, LONGEST_APDU, NO_SEGMENTATION, NoMemory, ObjectId, PropertyId, Value};
use std::alloc::Global;

/// Appends elements between an opening and a closing tag.
fn write_list(out: &mut Vec<u8>, number: u8, elements: &[u8]) -> Result<(), NoMemory>
    ensures written { OnOk result (out.new.items ≡ out.old.items ++ written_enclosed number elements.now) }
{
    write_opening(out, number)?;
    out.extend_from_slice(elements)?;
    write_closing(out, number)
}

/// Appends a number, if it is given.
fn write_if_given(out: &mut Vec<u8>, number: u8, given: Option<u32>) -> Result<(), NoMemory>
    ensures written { OnOk result (out.new.items ≡ out.old.items ++ written_if_given (written_unsigned (Some number)) given) }
{
    match given {
        None => Ok(()),
        Some(value) => write_unsigned(out, Some(number), value),
    }
}

/// Appends what was read: the object, the property, and the index, if there is one.
#[tactic(auto, unfolding(crate::specs::Writing::written_reference))]
fn write_reference(
    out: &mut Vec<u8>,
    object: ObjectId,
    property: PropertyId,
    index: Option<u32>,
) -> Result<(), NoMemory>
    ensures written { OnOk result (out.new.items ≡ out.old.items ++ written_reference object property.0 index) }
{
    write_object(out, Some(0), object)?;
    write_unsigned(out, Some(1), property.0)?;
    write_if_given(out, 2, index)
}

/// The answer to ReadProperty (15.5): the values stand as they are given, one application value after the other.
pub fn write_read_ack(
    alloc: Global,
    request: &ReadRequest,
    values: &[u8],
) -> Result<Vec<u8>, NoMemory>
    ensures text { IfOk result (λ octets. octets.items ≡ written_read_ack request.now values.now) }
{
    let mut out = Vec::new(alloc);
    write_reference(&mut out, request.object, request.property, request.index)?;
    write_list(&mut out, 3, values)?;
    Ok(out)
}

/// The answer to ReadRange (15.8). The flags are first item, last item and more items. The items stand as they are
/// given, one after the other. `first` is the first one's sequence number, where it is to be written.
pub fn write_range_ack(
    alloc: Global,
    request: &RangeRequest,
    flags: [bool; 3],
    count: u32,
    items: &[u8],
    first: Option<u32>,
) -> Result<Vec<u8>, NoMemory>
    ensures text { IfOk result (λ octets. octets.items ≡ written_range_ack request.now flags count items.now first) }
{
    let mut out = Vec::new(alloc);
    write_reference(&mut out, request.object, request.property, request.index)?;
    write_bits(&mut out, Some(3), Bits::of_flags(&flags))?;
    write_unsigned(&mut out, Some(4), count)?;
    write_list(&mut out, 5, items)?;
    write_if_given(&mut out, 6, first)?;
    Ok(out)
}

/// I-Am (16.10): the device, the longest APDU that it takes (1476 octets), that it takes no segments, and the number of
/// its vendor.
pub fn write_i_am(alloc: Global, device: ObjectId, vendor: u16) -> Result<Vec<u8>, NoMemory>
    ensures text { IfOk result (λ octets. octets.items ≡ written_i_am device vendor) }
{
    let mut out = Vec::new(alloc);
    write_object(&mut out, None, device)?;
    write_unsigned(&mut out, None, u32::from(LONGEST_APDU))?;
    write_value(&mut out, &Value::Enumerated(u32::from(NO_SEGMENTATION)))?;
    write_unsigned(&mut out, None, u32::from(vendor))?;
    Ok(out)
}
