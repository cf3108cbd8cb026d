//! The header by which a device is known as the journal of its site.

ghost use Rattle.std.specs.Prelude.{◌≡◌, ◌+◌, ◌<◌, ◌≤◌, ◌^◌, length, IfOk, IfErr};
ghost use Rattle.bac_values.specs.Limits.{most_site_octets};
ghost use Rattle.alarm_journal.specs.Press.{IsSmall};
ghost use Rattle.alarm_journal.specs.declared.open_fault.OpenFault.TheVariants.{DiskFault};
ghost use Rattle.alarm_journal.specs.Journal.{formatted_size, heading};
ghost use Rattle.alarm_journal.specs.JournalSteps.{checked_header, first_other, foreign_place};

use crate::OpenFault;
use byteorder::{BigEndian, ByteOrder};
use std::alloc::{AllocError, Global};

const MARK: [u8; 8] = [66, 65, 67, 65, 76, 82, 77, 49];

/// The octets from place 1 of a blank device on: the header, a selector for the first area, no snapshot and a closed
/// gate.
pub fn heading_of(alloc: Global, text: &[u8], size: u64) -> Result<Vec<u8>, AllocError>
    requires { length text.now ≤ most_site_octets }
    ensures heading { IfOk result (λ octets. octets.items ≡ heading text.now size) }
{
    let mut formatted = [0; 8];
    BigEndian::write_u64(&mut formatted, size);
    let mut count = [0; 4];
    BigEndian::write_u32(&mut count, text.len() as u32);
    let mut octets = MARK.to_vec(alloc)?;
    octets.extend_from_slice(&formatted)?;
    octets.extend_from_slice(&count)?;
    octets.extend_from_slice(text)?;
    octets.extend_from_slice(&[0, 0, 0, 0, 0, 0])?;
    Ok(octets)
}

// The first place at which the octets from a place on aren't the ones wanted.
fn other_place(place: u64, wanted: &[u8], found: &[u8]) -> Option<u64>
    requires same { length found.now ≡ length wanted.now }
    requires word { place + length wanted.now < 2 ^ 64 }
    ensures first { result ≡ first_other place wanted.now found.now }
{
    for (i, octet) in wanted.iter().enumerate() {
        if found[i] != *octet {
            return Some(place + i as u64);
        }
    }
    None
}

// The first place of the header, but for the size, whose octet isn't this site's.
fn foreign_at(text: &[u8], header: &[u8]) -> Option<u64>
    requires few { length text.now ≤ most_site_octets }
    requires whole { 22 + length text.now ≤ length header.now }
    ensures first { result ≡ foreign_place text.now header.now }
{
    let mut count = [0; 4];
    BigEndian::write_u32(&mut count, text.len() as u32);
    if let Some(at) = other_place(1, &MARK, &header[1..9]) {
        return Some(at);
    }
    if let Some(at) = other_place(17, &count, &header[17..21]) {
        return Some(at);
    }
    other_place(21, text, &header[21..21 + text.len()])
}

// The size at formatting that the header tells.
fn size_in(header: &[u8]) -> u64
    requires { 22 ≤ length header.now }
    ensures size { result ≡ formatted_size header.now }
{
    BigEndian::read_u64(&header[9..17])
}

/// The size at formatting, where the header of an open device of this size is this site's and nothing is wrong with it.
pub fn check_header(text: &[u8], need: u64, size: u64, header: &[u8]) -> Result<u64, OpenFault>
    requires few { length text.now ≤ most_site_octets }
    requires whole { 22 + length text.now ≤ length header.now }
    ensures checked { result ≡ checked_header (record { text = text.now; need = need }) size header.now }
    ensures bounds { IfOk result (λ formatted. (need ≤ formatted) × (formatted ≤ size)) }
    ensures small { IfErr result (λ fault. IsSmall size fault) }
    ensures memory { IfErr result (λ fault. (fault ≡ DiskFault) → ⊥) }
{
    let formatted = size_in(header);
    if size < formatted {
        return Err(OpenFault::SmallDevice {
            size,
            need: formatted,
        });
    }
    if let Some(at) = foreign_at(text, header) {
        return Err(OpenFault::Foreign { at });
    }
    if formatted < need {
        return Err(OpenFault::Damaged { at: 9 });
    }
    Ok(formatted)
}
