//! ObjectIdentifiers (20.2.14).

ghost use Rattle.std.specs.Prelude.{◌≡◌, ◌↔◌, ℕ, ◌<◌, ◌≤◌, ◌++◌, length, drop, IfOk, OnOk, OnErr};
ghost use Rattle.bac_values.specs.Identifier.{ObjectIdData};
ghost use Rattle.bac_values.specs.ApplicationTags.{object_identifier_tag};
ghost use Rattle.bac_tags.specs.Places.{IsSpelledAt};
ghost use Rattle.bac_tags.specs.Elements.{EndsInElement, HasOtherTag, HasOtherLength};
ghost use Rattle.bac_tags.specs.Contents.{SpellsObject};
ghost use Rattle.bac_tags.specs.ReadingSteps.{identifier_of, object_at};
ghost use Rattle.bac_tags.specs.Writing.{written_object};

use crate::TagFault;
use crate::element::{OBJECT_IDENTIFIER, content_at, write_element};
use bac_values::{NoMemory, ObjectId};
use byteorder::{BigEndian, ByteOrder};

/// The identifier of four octets: ten bits of the type's number, twenty-two of the instance.
pub(crate) fn identifier_of(content: &[u8]) -> ObjectId
    requires { length content.now ≡ 4 }
    ensures { result ≡ identifier_of content.now }
{
    let number = BigEndian::read_u32(content);
    let Ok(id) = ObjectId::new((number / 4_194_304) as u16, number % 4_194_304) else {
        unreachable!()
    };
    id
}

/// The ObjectIdentifier at a place, and the place after it.
#[tactic(auto, unfolding(crate::specs::ReadingSteps::object_at))]
fn object_at(input: &[u8], at: usize, context: Option<u8>) -> Result<(ObjectId, usize), TagFault>
    requires { at ≤ length input.now }
    ensures exact { result ≡ object_at input.now at context }
    ensures within { IfOk result (λ x. (at < x.1) × (x.1 ≤ length input.now)) }
{
    let (content, after) = content_at(input, at, OBJECT_IDENTIFIER, context, 4, 4)?;
    Ok((identifier_of(content), after))
}

/// Reads an ObjectIdentifier at a place (20.2.14), and answers it with the place after it. With `Some(n)` it has
/// the number `n` in a context. No memory is taken.
pub fn read_object(
    input: &[u8],
    at: usize,
    context: Option<u8>,
) -> Result<(ObjectId, usize), TagFault>
    requires { at ≤ length input.now }
    ensures found { IfOk result (λ x. IsSpelledAt (SpellsObject context) input.now at x.0 x.1) }
    ensures only { (id : ObjectIdData) (end : ℕ) → IsSpelledAt (SpellsObject context) input.now at id end → result ≡ Ok (id, end) }

    ensures truncated { (result ≡ Err (TagFault.Truncated (length input.now))) ↔ EndsInElement object_identifier_tag context 4 4 (drop at input.now) }
    ensures wrong_tag { (result ≡ Err (TagFault.WrongTag at)) ↔ HasOtherTag object_identifier_tag context (drop at input.now) }
    ensures bad_length { (result ≡ Err (TagFault.BadLength at)) ↔ HasOtherLength object_identifier_tag context 4 4 (drop at input.now) }

    ensures exact { result ≡ object_at input.now at context }
    ensures within { IfOk result (λ x. (at < x.1) × (x.1 ≤ length input.now)) }
{
    object_at(input, at, context)
}

/// Appends an ObjectIdentifier; with `Some(n)` it has the number `n` in a context.
pub fn write_object(
    out: &mut Vec<u8>,
    context: Option<u8>,
    object: ObjectId,
) -> Result<(), NoMemory>
    ensures written { OnOk result (out.new.items ≡ out.old.items ++ written_object context object) }
    ensures same { OnErr result (out.new.items ≡ out.old.items) }
    // What is written spells the identifier, so it is read again.
    ensures spelled { SpellsObject context (written_object context object) object }
{
    let number = u32::from(object.number()) * 4_194_304 + object.instance();
    write_element(out, OBJECT_IDENTIFIER, context, &[], &number.to_be_bytes())
}
