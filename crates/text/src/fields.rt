// A line is its fields and byte 10. Each field is parsed once.
ghost use Rattle.std.specs.Prelude.{ℕ, ◌≡◌, ◌+◌, ◌*◌, ◌<◌, ◌≤◌, length, slice_index, IfSome};
ghost use Rattle.text.specs.Fields.{line_numbers};

use crate::field::read_field;

// The numbers of the line of N fields at `at`, if it is well-formed. A text and a place, as for a field.
pub fn read_line<const N: usize>(text: &[u8], at: usize) -> Option<[usize; N]>
    requires { at + 5 * N < length text.now }
    ensures is { result ≡ line_numbers text.now at N }
    ensures short { IfSome result (λ numbers. (i : ℕ) → i < N → slice_index numbers i ≤ 99999) }
{
    let mut numbers = [0; N];
    for (i, number) in numbers.iter_mut().enumerate() {
        *number = read_field(text, at + 5 * i)?;
    }
    if text[at + 5 * N] != b'\n' {
        return None;
    }
    Some(numbers)
}
