// The call line: a part of the caller's text.
ghost use Rattle.std.specs.Prelude.{◌≡◌};
ghost use Rattle.job.specs.Read.{line_of};

use layout::lines::line_part;

// Line `number` itself: that part of the caller's text, the empty part where there is no such line.
pub fn line(text: &[u8], number: usize) -> &[u8]
    ensures { result.now ≡ line_of text.now number }
{
    match line_part(text, number) {
        Some(part) => &text[part.start..part.start + part.size],
        None => &text[..0],
    }
}
