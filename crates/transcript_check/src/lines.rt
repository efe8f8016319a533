//! The lines of a text, one after another.
ghost use Rattle.std.specs.Prelude.{◌≡◌, ◌<◌, ◌∷◌, [], length, IfNone, IfSome};
ghost use Rattle.line_io.specs.Lines.{lines_of};

/// The first line of a text, without its LF, and what stands behind it; `None` exactly where nothing is left. A line ends at LF, and a last
/// piece without LF is a line too.
pub(crate) fn first_line(text: &[u8]) -> Option<(&[u8], &[u8])>
    ensures none { IfNone result (text.now ≡ []) }
    ensures line { IfSome result (λ parts. lines_of text.now ≡ parts.0.now ∷ lines_of parts.1.now) }
    ensures rest { IfSome result (λ parts. length parts.1.now < length text.now) }
{
    if text.is_empty() {
        return None;
    }
    for end in 0..text.len() {
        if text[end] == b'\n' {
            return Some((&text[..end], &text[end + 1..]));
        }
    }
    Some((text, &text[text.len()..]))
}
