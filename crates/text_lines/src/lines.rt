//! The lines of a text, one after another. A line ends with a line feed, which the last may lack.

ghost use Rattle.std.specs.Prelude.{◌≡◌, ◌<◌, ◌∷◌, length};
ghost use Rattle.dxf_groups.specs.TextLines.{text_lines};

use dxf_groups::feed_place;

/// The first line of what is left of a text, and what stands behind it.
pub fn first_line(rest: &[u8]) -> (&[u8], &[u8])
    requires { 0 < length rest.now }
    ensures lines { text_lines rest.now ≡ result.0.now ∷ text_lines result.1.now }
    ensures shorter { length result.1.now < length rest.now }
{
    let end = feed_place(rest);
    let next = if end < rest.len() { end + 1 } else { end };
    let (_, after) = rest.split_at(next);
    (&rest[..end], after)
}
