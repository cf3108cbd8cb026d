//! Numbers, flags, identifiers, peers and lists of recipients are written.

ghost use Rattle.std.specs.Prelude.{◌≡◌, ◌≤◌, ◌++◌, ◌∷◌, [], length, OnOk};
ghost use Rattle.bac_values.specs.Limits.{most_destinations};
ghost use Rattle.std.specs.Int.{to_be_bytes, w8, w16, w32, w64};
ghost use Rattle.std.specs.List.{flat_map};
ghost use Rattle.state_codec.specs.Records.{written_bits, written_destination, written_destinations, written_flag, written_flags, written_object, written_peer, written_station, written_text, written_value};

use crate::value::{BIT_STRING, BOOLEAN, CHARACTER_STRING, ENUMERATED, SIGNED, UNSIGNED};
use bac_values::{Bits, Mac, NoMemory, ObjectId, Peer, Text, Value, push};
use notify_class::Destination;

/// Appends a flag.
pub(crate) fn put_flag(out: &mut Vec<u8>, flag: bool) -> Result<(), NoMemory>
    ensures written { OnOk result (out.new.items ≡ out.old.items ++ written_flag flag) }
{
    push(out, u8::from(flag))
}

/// Appends a number of 32 bits, in four octets, the high one first.
pub fn put_word(out: &mut Vec<u8>, number: u32) -> Result<(), NoMemory>
    ensures written { OnOk result (out.new.items ≡ out.old.items ++ to_be_bytes w32 number) }
{
    out.extend_from_slice(&number.to_be_bytes())?;
    Ok(())
}

/// Appends a number of 64 bits, in eight octets, the high one first.
pub fn put_long(out: &mut Vec<u8>, number: u64) -> Result<(), NoMemory>
    ensures written { OnOk result (out.new.items ≡ out.old.items ++ to_be_bytes w64 number) }
{
    out.extend_from_slice(&number.to_be_bytes())?;
    Ok(())
}

/// Appends the last octet of a count.
pub fn put_octet_count(out: &mut Vec<u8>, count: usize) -> Result<(), NoMemory>
    ensures written { OnOk result (out.new.items ≡ out.old.items ++ to_be_bytes w8 count) }
{
    push(out, (count % 256) as u8)
}

/// Appends the last two octets of a count, the high one first.
pub fn put_count(out: &mut Vec<u8>, count: usize) -> Result<(), NoMemory>
    ensures written { OnOk result (out.new.items ≡ out.old.items ++ to_be_bytes w16 count) }
{
    let count = (count % 65_536) as u16;
    out.extend_from_slice(&count.to_be_bytes())?;
    Ok(())
}

/// Appends an object identifier.
pub(crate) fn put_object(out: &mut Vec<u8>, object: &ObjectId) -> Result<(), NoMemory>
    ensures written { OnOk result (out.new.items ≡ out.old.items ++ written_object object.now) }
{
    let number = u32::from(object.number()) * 4_194_304 + object.instance();
    out.extend_from_slice(&number.to_be_bytes())?;
    Ok(())
}

/// Appends three flags in one octet, the first one in the lowest bit.
pub(crate) fn put_flags(out: &mut Vec<u8>, flags: &[bool; 3]) -> Result<(), NoMemory>
    ensures written { OnOk result (out.new.items ≡ out.old.items ++ written_flags flags.now) }
{
    let [first, second, third] = *flags;
    let octet = u8::from(first) + 2 * u8::from(second) + 4 * u8::from(third);
    push(out, octet)
}

/// Appends the station of a peer, in seven places.
fn put_station(out: &mut Vec<u8>, mac: &Mac) -> Result<(), NoMemory>
    ensures written { OnOk result (out.new.items ≡ out.old.items ++ written_station mac.now) }
{
    let octets = mac.octets();
    push(out, octets.len() as u8)?;
    out.extend_from_slice(octets)?;
    out.extend_from_slice(&[0; 7][octets.len()..])?;
    Ok(())
}

/// Appends a peer.
pub(crate) fn put_peer(out: &mut Vec<u8>, peer: &Peer) -> Result<(), NoMemory>
    ensures written { OnOk result (out.new.items ≡ out.old.items ++ written_peer peer.now) }
{
    out.extend_from_slice(&peer.ip.to_be_bytes())?;
    out.extend_from_slice(&peer.port.to_be_bytes())?;
    out.extend_from_slice(&peer.net.to_be_bytes())?;
    put_station(out, &peer.mac)
}

/// Appends a text behind its length.
fn put_text(out: &mut Vec<u8>, text: &Text) -> Result<(), NoMemory>
    ensures written { OnOk result (out.new.items ≡ out.old.items ++ written_text text.now) }
{
    let octets = text.octets();
    out.extend_from_slice(&(octets.len() as u16).to_be_bytes())?;
    out.extend_from_slice(octets)?;
    Ok(())
}

/// Appends a string of bits behind its length.
fn put_bits(out: &mut Vec<u8>, string: &Bits) -> Result<(), NoMemory>
    ensures written { OnOk result (out.new.items ≡ out.old.items ++ written_bits string.now) }
{
    push(out, string.length())?;
    out.extend_from_slice(&string.bits().to_be_bytes())?;
    Ok(())
}

/// Appends an application tag's number, and a number of four octets.
fn put_number(out: &mut Vec<u8>, tag: u8, number: u32) -> Result<(), NoMemory>
    ensures written { OnOk result (out.new.items ≡ out.old.items ++ tag ∷ to_be_bytes w32 number) }
{
    push(out, tag)?;
    out.extend_from_slice(&number.to_be_bytes())?;
    Ok(())
}

/// Appends a value behind the number of its application tag; of a type that isn't recorded there is nothing.
pub(crate) fn put_value(out: &mut Vec<u8>, value: &Value) -> Result<(), NoMemory>
    ensures written { OnOk result (out.new.items ≡ out.old.items ++ written_value value.now) }
{
    match value {
        Value::Bool(flag) => {
            push(out, BOOLEAN)?;
            push(out, u8::from(*flag))
        }
        Value::Unsigned(number) => put_number(out, UNSIGNED, *number),
        Value::Signed(number) => put_number(out, SIGNED, number.cast_unsigned()),
        Value::Text(text) => {
            push(out, CHARACTER_STRING)?;
            put_text(out, text)
        }
        Value::Bits(string) => {
            push(out, BIT_STRING)?;
            put_bits(out, string)
        }
        Value::Enumerated(number) => put_number(out, ENUMERATED, *number),
        _ => Ok(()),
    }
}

/// Appends when a recipient is notified: its days, and its first and its last time.
fn put_window(out: &mut Vec<u8>, days: u8, from: u32, to: u32) -> Result<(), NoMemory>
    ensures written { OnOk result (out.new.items ≡ out.old.items ++ days ∷ (to_be_bytes w32 from ++ to_be_bytes w32 to)) }
{
    push(out, days)?;
    out.extend_from_slice(&from.to_be_bytes())?;
    out.extend_from_slice(&to.to_be_bytes())?;
    Ok(())
}

/// Appends how a recipient is notified: its process identifier, whether it confirms, and its kinds of transitions.
fn put_manner(
    out: &mut Vec<u8>,
    process: u32,
    confirmed: bool,
    transitions: &[bool; 3],
) -> Result<(), NoMemory>
    ensures written { OnOk result (out.new.items ≡ out.old.items ++ (to_be_bytes w32 process ++ (written_flag confirmed ++ written_flags transitions.now))) }
{
    out.extend_from_slice(&process.to_be_bytes())?;
    push(out, u8::from(confirmed))?;
    put_flags(out, transitions)
}

/// Appends a recipient.
fn put_destination(out: &mut Vec<u8>, recipient: &Destination) -> Result<(), NoMemory>
    ensures written { OnOk result (out.new.items ≡ out.old.items ++ written_destination recipient.now) }
{
    put_window(out, recipient.days, recipient.from, recipient.to)?;
    put_peer(out, &recipient.peer)?;
    put_manner(
        out,
        recipient.process,
        recipient.confirmed,
        &recipient.transitions,
    )
}

/// Appends recipients, one behind the other.
pub(crate) fn put_list(out: &mut Vec<u8>, recipients: &[Destination]) -> Result<(), NoMemory>
    ensures written { OnOk result (out.new.items ≡ out.old.items ++ flat_map written_destination recipients.now) }
{
    for recipient in recipients {
        put_destination(out, recipient)?;
    }
    Ok(())
}

/// Appends recipients behind their number.
pub(crate) fn put_destinations(
    out: &mut Vec<u8>,
    recipients: &[Destination],
) -> Result<(), NoMemory>
    requires few { length recipients.now ≤ most_destinations }
    ensures written { OnOk result (out.new.items ≡ out.old.items ++ written_destinations recipients.now) }
{
    push(out, recipients.len() as u8)?;
    put_list(out, recipients)
}
