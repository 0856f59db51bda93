// Reading: a number is five columns, spaces and then digits (document 01, "Job text").
ghost use Rattle.std.specs.Prelude.{◌≡◌, true, ◌+◌, ◌-◌, ◌≤◌, eqb, length, IfSome};
ghost use Rattle.std.specs.List.{prefix_len};
ghost use Rattle.text.specs.Field.{is_digit, digits, field};

// The value of a digit.
pub fn digit(c: u8) -> usize
    requires { is_digit c ≡ true }
    ensures { (result ≡ c - 48) × (result ≤ 9) }
{
    usize::from(c - b'0')
}

// How many spaces come before anything else.
pub fn spaces(text: &[u8]) -> usize
    ensures { result ≡ prefix_len (λ c. eqb c 32) text.now }
{
    text.iter().take_while(|&&c| c == b' ').count()
}

// The columns behind a first digit `first`.
fn read_digits(first: usize, columns: &[u8]) -> Option<usize>
    requires { (first ≤ 9) × (length columns.now ≤ 4) }
    ensures { result ≡ digits first columns.now }
{
    let mut value = first;
    for &c in columns {
        if !c.is_ascii_digit() || value == 0 {
            return None;
        }
        value = value * 10 + digit(c);
    }
    Some(value)
}

// The number in the field at `at`, if the field is well-formed. A text and a place, since the definitions name a field by its place in the text.
pub fn read_field(text: &[u8], at: usize) -> Option<usize>
    requires { at + 5 ≤ length text.now }
    ensures is { result ≡ field text.now at }
    ensures short { IfSome result (λ n. n ≤ 99999) }
{
    let columns = &text[at..at + 5];
    let (&first, more) = columns[spaces(columns)..].split_first()?;
    if !first.is_ascii_digit() {
        return None;
    }
    read_digits(digit(first), more)
}
