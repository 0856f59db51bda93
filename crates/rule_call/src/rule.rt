// The call rule of document 02 (i), with its questions 21 to 23.
ghost use Rattle.std.specs.Prelude.{◌≡◌, ◌*◌, ◌≤◌, length};
ghost use Rattle.std.proofs.lemmas.List.Edits.{sets};
ghost use Rattle.rule_text.specs.Lines.{lines_text};
ghost use Rattle.rule_text.specs.RuleCall.{rule_answer, rule_buffer};
ghost use Rattle.rule_call.specs.Ruled.{ruled_told, ShortLines, ReadsRule};

use job::refusal::Refusal;
use job::subformula::Subformula;
use rule_lines::lines::Lines;
use rule_reader::parse::Reader;
use scanner::scan::skip_spaces;
use text::decimal::write_line;

// The lines of the text's tree, if the grammar derives the text.
fn read_rule(text: &[u8]) -> Option<Lines>
    ensures { ReadsRule text.now result }
{
    let mut reader = Reader::new(text);
    reader.expression(1)?;
    let Reader { rest, lines } = reader;
    skip_spaces(rest).is_empty().then_some(lines)
}

// Writes the lines from the start of the buffer on.
fn write_lines(out: &mut [u8], lines: &[Subformula])
    requires { ShortLines lines.now × (16 * length lines.now ≤ length out.old) }
    ensures { out.new ≡ sets out.old 0 (lines_text lines.now) }
{
    for (k, f) in lines.iter().enumerate() {
        write_line(out, 16 * k, &f.fields());
    }
}

// Reads rule text, and writes its lines into a buffer of 512 bytes: how many they are. A refusal leaves every byte.
pub fn rule(text: &[u8], buffer: &mut [u8]) -> Result<usize, Refusal>
    ensures told { ruled_told result ≡ rule_answer text.now buffer.old }
    ensures left { buffer.new ≡ rule_buffer text.now buffer.old }
{
    if buffer.len() != 512 {
        return Err(Refusal::RuleBuffer);
    }
    if 512 < text.len() {
        return Err(Refusal::NoRule);
    }
    let lines = read_rule(text).ok_or(Refusal::NoRule)?;
    let n = lines.count();
    if 32 < n {
        return Err(Refusal::TooManyLines);
    }
    write_lines(buffer, lines.as_slice());
    Ok(n)
}
