//! The text of a site is read from its source.

ghost use Rattle.std.specs.Prelude.{◌≡◌, ◌<◌, ◌≤◌, ◌+◌, IfErr, IfOk, IfSome, IsErrOf, MatchBool, OnOk, length, take};
ghost use Rattle.std.specs.Io.KnownBytes.{IsAtEnd, prepend_known};
ghost use Rattle.ground_io.specs.Source.{Keeps};
ghost use Rattle.ground_io.specs.Trace.{still};
ghost use Rattle.ground_io.specs.Counts.{HasCause};
ghost use Rattle.alarm_server.specs.Status.{IsTextFault};
ghost use Rattle.alarm_server.specs.Text.{octets_read};

use crate::status::Status;
use bac_values::MOST_SITE_OCTETS;
use ground_io::Source;
use std::alloc::Global;

/// How many octets of a site's source are read at most: one more than a site's text may have, so that a longer one is
/// refused as that.
const OCTETS_READ: usize = MOST_SITE_OCTETS + 1;

/// How many octets are asked for at once.
const PIECE: usize = 8_192;

// Reads once, behind the octets that are there, and so many at most. `false` is the source's end.
fn read_more<S: Source>(source: &mut S, text: &mut Vec<u8>, most: usize) -> Result<bool, Status>
    requires some { 0 < most }
    ensures octets { OnOk result (Keeps (prepend_known text.old.items (S.left source.old)) (prepend_known text.new.items (S.left source.new))) }
    ensures more { IfOk result (λ more. MatchBool more (length text.old.items < length text.new.items)
        (IsAtEnd (S.left source.new) × (text.new.items ≡ text.old.items))) }
    ensures most { length text.new.items ≤ length text.old.items + most }
    ensures fault { IfErr result IsTextFault }
    ensures cause { HasCause (S.faults source.old) (S.faults source.new) (IsErrOf result Status.ReadFault) }
    ensures uncounted { OnOk result (S.faults source.new ≡ S.faults source.old) }
{
    let mut piece = [0; PIECE];
    let room = most.min(PIECE);
    let count = source.read(&mut piece[..room])?;
    text.extend_from_slice(&piece[..count])?;
    Ok(count > 0)
}

/// The octets of a source, to its end or as many as tell that it is too long for a site.
pub fn read_text<S: Source>(alloc: Global, source: &mut S) -> Result<Vec<u8>, Status>
    ensures text { IfOk result (λ text. IfSome (still (S.left source.old) (S.left source.new)) (λ octets. text.items ≡ take octets_read octets)) }
    ensures fault { IfErr result IsTextFault }
    ensures cause { HasCause (S.faults source.old) (S.faults source.new) (IsErrOf result Status.ReadFault) }
    ensures uncounted { OnOk result (S.faults source.new ≡ S.faults source.old) }
{
    let mut text = Vec::new(alloc);
    while text.len() < OCTETS_READ {
        let room = OCTETS_READ - text.len();
        if !read_more(source, &mut text, room)? {
            return Ok(text);
        }
    }
    Ok(text)
}
