// The call on rule text. It takes no job.
ghost use Rattle.std.specs.Prelude.{◌≡◌};
ghost use Rattle.job.specs.Answer.{numbers};
ghost use Rattle.rule_text.specs.RuleCall.{rule_answer, rule_buffer};
ghost use Rattle.numbers.specs.Stored.{stored};

use numbers::store::store_few;
use rule_call::rule::rule;

// Reads rule text, and writes its lines into a buffer of 512 bytes; a refusal leaves every byte. Own number: how many lines.
#[tactic(auto, using(crate::proofs::AnswerLaws::stored_told), unfolding(rule_call::specs::Ruled::ruled_told))]
#[unsafe(no_mangle)]
pub extern "C" fn selahmur_rule(text: &[u8], buffer: &mut [u8], out: &mut [usize])
    ensures told { out.new ≡ stored out.old (numbers (rule_answer text.now buffer.old)) }
    ensures left { buffer.new ≡ rule_buffer text.now buffer.old }
{
    store_few(out, rule(text, buffer));
}
