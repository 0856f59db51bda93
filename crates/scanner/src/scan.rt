// The first token of a text, behind spaces.
ghost use Rattle.std.specs.Prelude.{◌≡◌};
ghost use Rattle.scanner.specs.Scanned.{Skips, Scans};

use crate::lexeme::lexeme;
use rule_text::token::Token;
use text::field::spaces;

// A token, and the text behind it and behind the spaces there, so that no space is walked over twice.
#[derive(Clone, Copy)]
pub struct Scanned<'a> {
    pub token: Token,
    pub behind: &'a [u8],
}

// The text behind the spaces that it starts with.
#[tactic(auto, using(crate::proofs::ScanLaws::skips_spaces))]
pub fn skip_spaces(text: &[u8]) -> &[u8]
    ensures { Skips text.now result.now }
{
    &text[spaces(text)..]
}

// The first token; at the end of the text it is unknown.
pub fn first_token(text: &[u8]) -> Scanned<'_>
    ensures { Scans text.now result.token result.behind.now }
{
    let start = skip_spaces(text);
    if start.is_empty() {
        return Scanned {
            token: Token::Unknown,
            behind: start,
        };
    }
    let l = lexeme(start);
    Scanned {
        token: l.token,
        behind: skip_spaces(&start[l.width..]),
    }
}
