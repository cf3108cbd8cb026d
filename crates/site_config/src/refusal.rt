//! The line in which a text is refused.

ghost use Rattle.std.specs.Prelude.{◌≡◌, ◌≤◌, length, false, Some, None, IfSome, IsSome};
ghost use Rattle.std.specs.Str.{is_utf8};
ghost use Rattle.std.specs.Str.Lossy.{utf8_valid_len};
ghost use Rattle.site_config.specs.Sites.{document_of};
ghost use Rattle.site_config.specs.TextLines.{line_at, IsLineOf};

use std::alloc::Global;

/// The place of a text at which the reader of TOML stopped, or of the first octet that isn't UTF-8.
#[tactic(auto, using(script_lines::proofs::Utf8::passes_utf8, script_lines::proofs::Utf8::fails_utf8))]
fn place_of_refusal(alloc: Global, text: &[u8]) -> Option<usize>
    ensures within { IfSome result (λ place. place ≤ length text.now) }
    ensures octet { is_utf8 text.now ≡ false → result ≡ Some (utf8_valid_len text.now) }
    ensures accepted { IsSome (document_of text.now) → result ≡ None }
{
    let text = match std::str::from_utf8(text) {
        Ok(text) => text,
        Err(fault) => return Some(fault.valid_up_to()),
    };
    match toml::table_from_str(alloc, text) {
        Ok(_document) => None,
        Err(fault) => Some(fault.span()?.start),
    }
}

/// The number, from 1, of the line in which a place of a text is.
fn line_at(text: &[u8], place: usize) -> Option<u32>
    requires within { place ≤ length text.now }
    ensures line { IfSome result (λ line. line ≡ line_at text.now place) }
{
    let feeds = text[..place]
        .iter()
        .filter(|octet| **octet == b'\n')
        .count();
    u32::try_from(feeds).ok()?.checked_add(1)
}

/// The number, from 1, of the line in which the reader of TOML refuses a text, or which has the first octet that isn't
/// UTF-8. There is none where the text is a document, and none is told where memory is refused.
#[tactic(auto, using(crate::proofs::TextLines::line_is_of))]
pub fn line_of_refusal(alloc: Global, text: &[u8]) -> Option<u32>
    ensures within { IfSome result (IsLineOf text.now) }
    ensures octet { IfSome result (λ line. is_utf8 text.now ≡ false → line ≡ line_at text.now (utf8_valid_len text.now)) }
    ensures accepted { IsSome (document_of text.now) → result ≡ None }
{
    let place = place_of_refusal(alloc, text)?;
    line_at(text, place)
}
