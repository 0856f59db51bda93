// What the program rule prints of its input: the answer of the call rule as a line of two numbers, and behind it the lines that the call writes.
#![tactic(auto)]

ghost use Rattle.std.specs.Prelude.{◌≡◌, [], ◌∷◌, length, drop};
ghost use Rattle.rule_text.specs.RuleCall.{rule_answer, rule_buffer};
ghost use Rattle.rule_call.specs.Ruled.{ruled_told};
ghost use Rattle.rule_output.specs.RuleOutput.{buffer, typed, number_told, lines_told, rule_output};

use job::refusal::Refusal;
use output::Output;
use rule_call::rule::rule;
use text::decimal::write_line;

// The input without one final newline.
#[tactic(auto, unfolding(crate::specs::RuleOutput::typed))]
fn typed(input: &[u8]) -> &[u8]
    ensures { result.now ≡ typed input.now }
{
    match input {
        [text @ .., b'\n'] => text,
        _ => input,
    }
}

// The call rule, with all bytes behind the first line as its buffer.
fn rule_behind(text: &[u8], out: &mut [u8]) -> Result<usize, Refusal>
    requires { (length out.old ≡ 523) × (drop 11 out.old ≡ buffer) }
    ensures told { ruled_told result ≡ rule_answer text.now buffer }
    ensures left { drop 11 out.new ≡ rule_buffer text.now buffer }
{
    rule(text, &mut out[11..523])
}

// The two numbers of the first line. By hand, since crate numbers stands above the calls on a table, and rule takes no job.
#[tactic(auto, unfolding(crate::specs::RuleOutput::number_told, crate::specs::RuleOutput::lines_told, rule_call::specs::Ruled::ruled_told))]
fn first_numbers(told: Result<usize, Refusal>) -> [usize; 2]
    ensures { result ≡ number_told (ruled_told told) ∷ lines_told (ruled_told told) ∷ [] }
{
    match told {
        Ok(lines) => [0, lines],
        Err(why) => [usize::from(why.number()), 0],
    }
}

// All that is printed.
pub fn rule_output(input: &[u8]) -> Output<523>
    ensures { result ≡ rule_output input.now }
{
    let mut bytes = [b'\n'; 523];
    let told = rule_behind(typed(input), &mut bytes);
    let numbers = first_numbers(told);
    write_line(&mut bytes, 0, &numbers);
    Output::new(bytes, 11 + 16 * numbers[1])
}
