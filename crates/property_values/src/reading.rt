//! Which part of a property is read.

ghost use Rattle.std.specs.Prelude.{◌≡◌, IfErr, IfOk, None};
ghost use Rattle.std.specs.List.{flat_map};
ghost use Rattle.bac_tags.specs.Writing.{written_unsigned};
ghost use Rattle.property_values.specs.declared.content.Content.TheVariants.{Elements};
ghost use Rattle.property_values.specs.declared.content.ReadFault.TheVariants as faults;
ghost use Rattle.property_values.specs.Reading.{AnswersRead, part_of, size_of};

use crate::{Content, ReadFault};
use bac_tags::write_unsigned;
use bac_values::{Items, NoMemory, part_count};
use std::alloc::Global;

fn length_octets(alloc: Global, length: usize) -> Result<Vec<u8>, NoMemory>
    ensures octets { IfOk result (λ octets. octets.items ≡ written_unsigned None length) }
{
    let mut octets = Vec::new(alloc);
    write_unsigned(&mut octets, None, part_count(length)?)?;
    Ok(octets)
}

fn all_elements(alloc: Global, elements: &[Items<u8>]) -> Result<Vec<u8>, NoMemory>
    ensures octets { IfOk result (λ octets. octets.items ≡ flat_map (λ element. element) elements.now) }
{
    let mut octets = Vec::new(alloc);
    for element in elements {
        octets.extend_from_slice(element.as_slice())?;
    }
    Ok(octets)
}

// The whole array, its length at index 0, or the element that is counted from 1.
fn part_of_array(
    alloc: Global,
    elements: &[Items<u8>],
    index: Option<u32>,
) -> Result<Vec<u8>, ReadFault>
    ensures part { AnswersRead result (part_of (Elements elements.now) index) }
{
    let Some(index) = index else {
        return Ok(all_elements(alloc, elements)?);
    };
    if index == 0 {
        return Ok(length_octets(alloc, elements.len())?);
    }
    match elements.get(index as usize - 1) {
        Some(element) => Ok(element.as_slice().to_vec(alloc)?),
        None => Err(ReadFault::INVALID_ARRAY_INDEX),
    }
}

/// What is read of a property, or why it isn't.
pub fn part_of(alloc: Global, content: Content, index: Option<u32>) -> Result<Vec<u8>, ReadFault>
    ensures part { AnswersRead result (part_of content index) }
{
    match content {
        Content::Elements { elements } => part_of_array(alloc, elements.as_slice(), index),
        Content::Whole { octets } => match index {
            Some(_) => Err(ReadFault::PROPERTY_IS_NOT_AN_ARRAY),
            None => Ok(octets.into_vec()),
        },
    }
}

/// The length of a property that is an array.
pub fn size_of(content: &Content) -> Result<Option<u32>, ReadFault>
    ensures size { IfOk result (λ size. size ≡ size_of content.now) }
    ensures fault { IfErr result (λ fault. fault ≡ faults.NoMemory) }
{
    match content {
        Content::Whole { .. } => Ok(None),
        Content::Elements { elements } => Ok(Some(part_count(elements.as_slice().len())?)),
    }
}
