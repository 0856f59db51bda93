// The call read: questions 1 to 8, put to any bytes.
ghost use Rattle.std.specs.Prelude.{◌≡◌};
ghost use Rattle.job.specs.Read.{read_told, read_answer};

use job::reading::Header;
use job::refusal::Refusal;

// The numbers of line 1, or the refusal.
pub fn read(text: &[u8]) -> Result<Header, Refusal>
    ensures { read_told result ≡ read_answer text.now }
{
    reader::read::read(text)
}
