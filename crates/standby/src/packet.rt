//! Packets in octets: records of events, or a piece of a snapshot.
ghost use Rattle.std.specs.Prelude.{◌≡◌, ◌≤◌, ◌++◌, Err, IfOk, OnOk, length};
ghost use Rattle.state_codec.specs.ReadingSteps.{Gives};
ghost use Rattle.standby.specs.FrameSteps.{body_at, piece_at, piece_packet_at, records_at, records_packet_at, records_seen};
ghost use Rattle.standby.specs.Packets.{IsNoPiece, IsNoRecords, most_packet_octets, piece_seen, written_body, written_piece, written_records};

use bac_values::{NoMemory, push};
use state_codec::{
    ReadFault, put_count, put_long, put_word, take_octet, take_octets, take_u16, take_u32, take_u64,
};
use std::alloc::Global;

/// A packet has at most so many octets of records, or of a snapshot.
pub(crate) const MOST_PACKET_OCTETS: usize = 1_400;

/// The first octet of a packet of records.
const RECORDS_KIND: u8 = 1;

/// The first octet of a piece of a snapshot.
const PIECE_KIND: u8 = 2;

/// The fields of a packet of records.
#[derive(Clone, Copy, Debug)]
pub(crate) struct RecordsFrame<'a> {
    /// How many events come before the first.
    pub(crate) before: u64,
    /// How many records there are.
    pub(crate) count: u16,
    /// The records.
    pub(crate) octets: &'a [u8],
}

/// The fields of a piece of a snapshot.
#[derive(Clone, Copy, Debug)]
pub(crate) struct PieceFrame<'a> {
    /// How many events the snapshot tells of.
    pub(crate) events: u64,
    /// How many octets the whole has.
    pub(crate) whole: u32,
    /// At which of them the piece begins.
    pub(crate) place: u32,
    /// The octets of the piece.
    pub(crate) octets: &'a [u8],
}

// ---- read

/// Takes octets from the front, behind how many they are.
#[tactic(auto, unfolding(crate::specs::FrameSteps::body_at))]
fn take_body<'a>(bytes: &mut &'a [u8]) -> Result<&'a [u8], ReadFault>
    ensures exact { Gives (λ x. (x.now, bytes.new.now)) result (body_at bytes.old.now) }
{
    let count = usize::from(take_u16(bytes)?);
    if count > MOST_PACKET_OCTETS {
        return Err(ReadFault::NothingThere);
    }
    take_octets(bytes, count)
}

/// Takes the fields of a packet of records, behind its first octet.
#[tactic(auto, unfolding(crate::specs::FrameSteps::records_at))]
fn take_records<'a>(bytes: &mut &'a [u8]) -> Result<RecordsFrame<'a>, ReadFault>
    ensures exact { Gives (λ x. (records_seen x, bytes.new.now)) result (records_at bytes.old.now) }
{
    let before = take_u64(bytes)?;
    let count = take_u16(bytes)?;
    let octets = take_body(bytes)?;
    Ok(RecordsFrame {
        before,
        count,
        octets,
    })
}

/// Takes the fields of a piece of a snapshot, behind its first octet.
#[tactic(auto, unfolding(crate::specs::FrameSteps::piece_at))]
fn take_piece<'a>(bytes: &mut &'a [u8]) -> Result<PieceFrame<'a>, ReadFault>
    ensures exact { Gives (λ x. (piece_seen x, bytes.new.now)) result (piece_at bytes.old.now) }
{
    let events = take_u64(bytes)?;
    let whole = take_u32(bytes)?;
    let place = take_u32(bytes)?;
    let octets = take_body(bytes)?;
    Ok(PieceFrame {
        events,
        whole,
        place,
        octets,
    })
}

/// Takes a packet of records.
#[tactic(auto, unfolding(crate::specs::FrameSteps::records_packet_at))]
fn take_records_packet<'a>(bytes: &mut &'a [u8]) -> Result<RecordsFrame<'a>, ReadFault>
    ensures exact { Gives (λ x. (records_seen x, bytes.new.now)) result (records_packet_at bytes.old.now) }
{
    let kind = take_octet(bytes)?;
    if kind != RECORDS_KIND {
        return Err(ReadFault::NothingThere);
    }
    take_records(bytes)
}

/// Takes a piece of a snapshot.
#[tactic(auto, unfolding(crate::specs::FrameSteps::piece_packet_at))]
fn take_piece_packet<'a>(bytes: &mut &'a [u8]) -> Result<PieceFrame<'a>, ReadFault>
    ensures exact { Gives (λ x. (piece_seen x, bytes.new.now)) result (piece_packet_at bytes.old.now) }
{
    let kind = take_octet(bytes)?;
    if kind != PIECE_KIND {
        return Err(ReadFault::NothingThere);
    }
    take_piece(bytes)
}

/// The fields of a packet of records, where the octets are one, but for what the records are. `NothingThere` says that they
/// aren't.
pub(crate) fn read_records(packet: &[u8]) -> Result<RecordsFrame<'_>, ReadFault>
    ensures found { IfOk result (λ x. (packet.now ≡ written_records x.before x.count x.octets.now) × (length x.octets.now ≤ most_packet_octets)) }
    ensures only { result ≡ Err ReadFault.NothingThere → IsNoRecords packet.now }
{
    let mut bytes = packet;
    let frame = take_records_packet(&mut bytes)?;
    if bytes.is_empty() {
        Ok(frame)
    } else {
        Err(ReadFault::NothingThere)
    }
}

/// The fields of a piece of a snapshot, where the octets are one. `NothingThere` says that they aren't.
pub(crate) fn read_piece(packet: &[u8]) -> Result<PieceFrame<'_>, ReadFault>
    ensures found { IfOk result (λ x. (packet.now ≡ written_piece (piece_seen x)) × (length x.octets.now ≤ most_packet_octets)) }
    ensures only { result ≡ Err ReadFault.NothingThere → IsNoPiece packet.now }
{
    let mut bytes = packet;
    let frame = take_piece_packet(&mut bytes)?;
    if bytes.is_empty() {
        Ok(frame)
    } else {
        Err(ReadFault::NothingThere)
    }
}

// ---- written

/// Appends octets behind how many they are, of which two octets tell the last 16 bits.
fn put_body(out: &mut Vec<u8>, octets: &[u8]) -> Result<(), NoMemory>
    ensures written { OnOk result (out.new.items ≡ out.old.items ++ written_body octets.now) }
{
    put_count(out, octets.len())?;
    out.extend_from_slice(octets)?;
    Ok(())
}

/// The packet of records, so many, behind a number of events.
pub(crate) fn write_records(
    alloc: Global,
    before: u64,
    count: usize,
    records: &[u8],
) -> Result<Vec<u8>, NoMemory>
    ensures written { IfOk result (λ packet. packet.items ≡ written_records before count records.now) }
{
    let mut out = Vec::new(alloc);
    push(&mut out, RECORDS_KIND)?;
    put_long(&mut out, before)?;
    put_count(&mut out, count)?;
    put_body(&mut out, records)?;
    Ok(out)
}

/// The packet of a piece of a snapshot.
pub(crate) fn write_piece(alloc: Global, piece: &PieceFrame<'_>) -> Result<Vec<u8>, NoMemory>
    ensures written { IfOk result (λ packet. packet.items ≡ written_piece (piece_seen piece.now)) }
{
    let mut out = Vec::new(alloc);
    push(&mut out, PIECE_KIND)?;
    put_long(&mut out, piece.events)?;
    put_word(&mut out, piece.whole)?;
    put_word(&mut out, piece.place)?;
    put_body(&mut out, piece.octets)?;
    Ok(out)
}
