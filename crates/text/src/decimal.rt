// Writing: a number in five columns, spaces before it, and a line of numbers.
ghost use Rattle.std.specs.Prelude.{◌≡◌, ◌+◌, ◌*◌, ◌<◌, ◌≤◌, length};
ghost use Rattle.std.proofs.lemmas.List.Edits.{sets};
ghost use Rattle.text.specs.Decimal.{digit_column, decimal, line, Short};

// The byte in the column of weight p: a space before the number, or its digit. By hand, as `write_field` is.
pub fn digit_column(n: usize, p: usize) -> u8
    requires { (0 < p) × (n < 100000) }
    ensures { result ≡ digit_column n p }
{
    if n < p && p != 1 {
        return b' ';
    }
    b'0' + (n / p % 10) as u8
}

// Writes a number in the five columns at `at`. By hand, since std's `{n:>5}` takes more than six times the instructions.
pub fn write_field(out: &mut [u8], at: usize, n: usize)
    requires { (n < 100000) × (at + 5 ≤ length out.old) }
    ensures { out.new ≡ sets out.old at (decimal n) }
{
    for (column, &weight) in [10000, 1000, 100, 10, 1].iter().enumerate() {
        out[at + column] = digit_column(n, weight);
    }
}

// Writes a line of numbers at `at`: their fields, and byte 10.
pub fn write_line(out: &mut [u8], at: usize, numbers: &[usize])
    requires { Short numbers.now × (at + 5 * length numbers.now < length out.old) }
    ensures { out.new ≡ sets out.old at (line numbers.now) }
{
    for (i, &n) in numbers.iter().enumerate() {
        write_field(out, at + 5 * i, n);
    }
    out[at + 5 * numbers.len()] = b'\n';
}
