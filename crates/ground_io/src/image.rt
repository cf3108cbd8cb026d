//! Images that a crash may leave.

ghost use Rattle.std.specs.Prelude.{◌≡◌, ◌+◌, ◌≤◌, length, replicate, All, IfOk};
ghost use Rattle.ground_io.specs.Disk.{IsInside, MayLeave, with_octets};
ghost use Rattle.ground_io.specs.Image.{contents_with, filled, image_after, image_with};
ghost use Rattle.ground_io.specs.Trace.{disk_of};

use crate::{Entry, Filling};
use std::alloc::{AllocError, Global};

/// Puts octets over those at their place.
pub fn put(contents: &mut [u8], place: u64, octets: &[u8])
    requires { place + length octets.now ≤ length contents.old }
    ensures put { contents.new ≡ with_octets place octets.now contents.old }
{
    let from = place as usize;
    contents[from..from + octets.len()].copy_from_slice(octets);
}

// Puts one octet over so many at a place.
fn put_octet(contents: &mut [u8], place: u64, count: usize, octet: u8)
    requires { place + count ≤ length contents.old }
    ensures put { contents.new ≡ with_octets place (replicate count octet) contents.old }
{
    let from = place as usize;
    contents[from..from + count].fill(octet);
}

// What a crash may leave of octets that were to come to a place.
fn fill(image: &mut [u8], place: u64, tried: &[u8], filling: Filling)
    requires { place + length tried.now ≤ length image.old }
    ensures filled { image.new ≡ filled filling place tried.now image.old }
{
    match filling {
        Filling::Old => {}
        Filling::New => put(image, place, tried),
        Filling::Octet(octet) => put_octet(image, place, tried.len(), octet),
    }
}

// The contents and the image after an entry.
fn follow(entry: &Entry, filling: Filling, contents: &mut [u8], image: &mut [u8])
    requires inside { IsInside (length contents.old) entry.now }
    requires size { length image.old ≡ length contents.old }
    ensures contents { contents.new ≡ contents_with entry.now contents.old }
    ensures image { image.new ≡ image_with filling entry.now contents.old image.old }
{
    match entry {
        Entry::Wrote { place, octets } => {
            put(contents, *place, octets.as_slice());
            fill(image, *place, octets.as_slice(), filling);
        }
        Entry::Broke { place, tried, left } => {
            put(contents, *place, left.as_slice());
            fill(image, *place, tried.as_slice(), filling);
        }
        Entry::Synced => image.copy_from_slice(contents),
        Entry::Emitted { .. } | Entry::Lost { .. } => {}
    }
}

// The image after all of the entries.
fn filled_image(
    alloc: Global,
    first: &[u8],
    entries: &[Entry],
    filling: Filling,
) -> Result<Vec<u8>, AllocError>
    requires { All (IsInside (length first.now)) entries.now }
    ensures image { IfOk result (λ image. image.items ≡ image_after filling entries.now first.now first.now) }
{
    let mut contents = first.to_vec(alloc)?;
    let mut image = first.to_vec(alloc)?;
    for entry in entries {
        follow(entry, filling, &mut contents, &mut image);
    }
    Ok(image)
}

/// The image that a filling makes of these first contents and the entries behind them. A crash may leave it.
pub fn image_of(
    alloc: Global,
    first: &[u8],
    entries: &[Entry],
    filling: Filling,
) -> Result<Vec<u8>, AllocError>
    requires { All (IsInside (length first.now)) entries.now }
    ensures image { IfOk result (λ image. image.items ≡ image_after filling entries.now first.now first.now) }
    ensures possible { IfOk result (λ image. MayLeave (disk_of (record { first = first.now; trace = entries.now })) image.items) }
{
    filled_image(alloc, first, entries, filling)
}
