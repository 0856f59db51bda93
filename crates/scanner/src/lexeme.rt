// Which token a text starts with, by its first bytes: the tokens of document 02 (i) and (iii).
ghost use Rattle.std.specs.Prelude.{◌≡◌, ◌<◌, ◌≤◌, length, get_or};
ghost use Rattle.rule_text.specs.Scan as scanned;

use rule_text::token::{Lexeme, Mark, Operator, Prefix, Token};

// The byte at `at`, 0 behind the end: as in the definition, and 0 is no byte of a token, so no test below asks for the end.
fn byte(text: &[u8], at: usize) -> u8
    ensures { result ≡ get_or text.now at 0 }
{
    text.get(at).copied().unwrap_or(0)
}

// Bytes that are no token, of which one is passed, as in the definition.
const UNKNOWN: Lexeme = Lexeme {
    token: Token::Unknown,
    width: 1,
};

// A token that is no word: `!`, `&`, `|`, `=>` or a bracket.
#[tactic(auto, unfolding(rule_text::specs::Scan::symbol))]
fn symbol(c: u8, d: u8) -> Lexeme
    ensures { result ≡ scanned.symbol c d }
{
    let (token, width) = match (c, d) {
        (b'!', _) => (Token::Prefix(Prefix::Not), 1),
        (b'&', _) => (Token::Operator(Operator::And), 1),
        (b'|', _) => (Token::Operator(Operator::Or), 1),
        (b'=', b'>') => (Token::Operator(Operator::Implies), 2),
        (b'(', _) => (Token::Mark(Mark::LeftParenthesis), 1),
        (b')', _) => (Token::Mark(Mark::RightParenthesis), 1),
        (b'[', _) => (Token::Mark(Mark::LeftBracket), 1),
        (b']', _) => (Token::Mark(Mark::RightBracket), 1),
        _ => return UNKNOWN,
    };
    Lexeme { token, width }
}

// A word of one letter: `A`, `E` or `U`.
#[tactic(auto, unfolding(rule_text::specs::Scan::word1))]
fn letter(c: u8) -> Lexeme
    ensures { result ≡ scanned.word1 c }
{
    let mark = match c {
        b'A' => Mark::ForAllPaths,
        b'E' => Mark::OnSomePath,
        b'U' => Mark::Until,
        _ => return UNKNOWN,
    };
    Lexeme {
        token: Token::Mark(mark),
        width: 1,
    }
}

// A word of two: `p0` to `p9`, `AX`, `EX`, `EG` or `AG`.
#[tactic(auto, unfolding(rule_text::specs::Scan::word2))]
fn pair(c: u8, d: u8) -> Lexeme
    ensures { result ≡ scanned.word2 c d }
{
    let token = match (c, d) {
        (b'p', b'0'..=b'9') => Token::Atom(usize::from(d - b'0')),
        (b'A', b'X') => Token::Prefix(Prefix::Ax),
        (b'E', b'X') => Token::Prefix(Prefix::Ex),
        (b'E', b'G') => Token::Prefix(Prefix::Eg),
        (b'A', b'G') => Token::Prefix(Prefix::Ag),
        _ => return UNKNOWN,
    };
    Lexeme { token, width: 2 }
}

// A word of three: `p10` to `p15`. `0` is byte 48, so the number is 10 + e - 48.
#[tactic(auto, unfolding(rule_text::specs::Scan::word3))]
fn triple(c: u8, d: u8, e: u8) -> Lexeme
    ensures { result ≡ scanned.word3 c d e }
{
    match (c, d, e) {
        (b'p', b'1', b'0'..=b'5') => Lexeme {
            token: Token::Atom(usize::from(e - 38)),
            width: 3,
        },
        _ => UNKNOWN,
    }
}

// The token that starts with the first of four bytes. A word ends where its letters and digits end.
#[tactic(auto, using(crate::proofs::LexemeLaws::word_tested), unfolding(rule_text::specs::Scan::lexed))]
fn lexed(c: u8, d: u8, e: u8, f: u8) -> Lexeme
    ensures { result ≡ scanned.lexed c d e f }
{
    if !c.is_ascii_alphanumeric() {
        symbol(c, d)
    } else if !d.is_ascii_alphanumeric() {
        letter(c)
    } else if !e.is_ascii_alphanumeric() {
        pair(c, d)
    } else if !f.is_ascii_alphanumeric() {
        triple(c, d, e)
    } else {
        UNKNOWN
    }
}

// The token that the text starts with.
pub fn lexeme(text: &[u8]) -> Lexeme
    requires { 0 < length text.now }
    ensures { (result ≡ scanned.first_lexeme text.now) × (result.width ≤ length text.now) }
{
    lexed(text[0], byte(text, 1), byte(text, 2), byte(text, 3))
}
