//! Elements of any kind are read over, between an opening and a closing tag.

ghost use Rattle.std.specs.Prelude.{◌≡◌, ℕ, ◌+◌, ◌<◌, ◌≤◌, List, length, slice_range, IfSome, IfOk, IsOkAnd};
ghost use Rattle.bac_tags.specs.Places.{IsSpelledAt};
ghost use Rattle.bac_tags.specs.EnclosingTags.{SpellsEnclosed};
ghost use Rattle.bac_tags.specs.Balanced.{SpellsElements, content_size};
ghost use Rattle.bac_tags.specs.BalancedSteps.{elements_end, elements_at};

use crate::element::BOOLEAN;
use crate::enclosing_tags::read_opening;
use crate::{Shape, Tag, TagFault, read_tag};

/// How many octets of content stand behind a primitive element's tag with that length. The value of an application's
/// Boolean is in its tag.
fn content_size(tag: Tag, length: u32) -> usize
    ensures size { result ≡ content_size tag length }
{
    if !tag.context && tag.number == BOOLEAN {
        return 0;
    }
    length as usize
}

/// How many tags that are open within one another one frame of `elements_end` holds.
const OPEN: usize = 64;

/// Where the closing tag with that number stands, behind whole elements that begin at the place, and where it ends. The
/// numbers of the tags that are open stand in an array, from the outermost to the one that is to be closed next; it calls
/// itself only for elements within as many as that holds.
fn elements_end(input: &[u8], at: usize, number: u8) -> Option<(usize, usize)>
    requires { at ≤ length input.now }
    ensures exact { result ≡ elements_end input.now at number }
    ensures within { IfSome result (λ x. (at ≤ x.0) × (x.0 < x.1) × (x.1 ≤ length input.now)) }
{
    let mut numbers = [number; OPEN];
    let (mut inner, mut place) = (0, at);
    'tags: loop {
        let Ok((tag, after)) = read_tag(input, place) else {
            return None;
        };
        match tag.shape {
            Shape::Primitive { length } => {
                let size = content_size(tag, length);
                if input.len() - after < size {
                    return None;
                }
                place = after + size;
            }
            Shape::Opening if !tag.context => return None,
            Shape::Opening => {
                if inner + 1 < OPEN {
                    inner += 1;
                    numbers[inner] = tag.number;
                    place = after;
                } else {
                    let (_, next) = elements_end(input, after, tag.number)?;
                    place = next;
                }
            }
            Shape::Closing => {
                if !tag.context || tag.number != numbers[inner] {
                    return None;
                }
                if inner == 0 {
                    return Some((place, after));
                }
                inner -= 1;
                place = after;
            }
        }
    }
}

/// Where the elements between the tags with that number stand, and the place after them.
#[tactic(auto, unfolding(crate::specs::BalancedSteps::elements_at))]
fn elements_at(input: &[u8], at: usize, number: u8) -> Result<((usize, usize), usize), TagFault>
    requires { at ≤ length input.now }
    ensures exact { result ≡ elements_at input.now at number }
    ensures within { IfOk result (λ x. (at < x.0.0) × (x.0.0 ≤ x.0.1) × (x.0.1 < x.1) × (x.1 ≤ length input.now)) }
{
    let start = read_opening(input, at, number)?;
    match elements_end(input, start, number) {
        Some((stop, end)) => Ok(((start, stop), end)),
        None => Err(TagFault::BadLength { at }),
    }
}

/// Reads whole elements of any kind between an opening and a closing tag with that number in a context. It answers
/// where they stand, from the first place to the one after the last, and the place after the closing tag. Inner tags
/// that open and close have to match, in a context. No memory is taken.
pub fn read_elements(
    input: &[u8],
    at: usize,
    number: u8,
) -> Result<((usize, usize), usize), TagFault>
    requires { at ≤ length input.now }
    ensures found { IfOk result (λ x. IsSpelledAt (SpellsEnclosed number SpellsElements) input.now at (slice_range input.now x.0.0 x.0.1) x.1) }
    ensures only { (elements : List ℕ) (end : ℕ) → IsSpelledAt (SpellsEnclosed number SpellsElements) input.now at elements end → IsOkAnd result (λ x. (slice_range input.now x.0.0 x.0.1 ≡ elements) × (x.1 ≡ end)) }

    ensures exact { result ≡ elements_at input.now at number }
    ensures within { IfOk result (λ x. (at < x.0.0) × (x.0.0 ≤ x.0.1) × (x.0.1 < x.1) × (x.1 ≤ length input.now)) }
{
    elements_at(input, at, number)
}
