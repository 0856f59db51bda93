// What stands at the start of a text: a mark that is expected there, or a binary operator that is strong enough.
ghost use Rattle.rule_places.specs.Places.{Marked, Follows};

use crate::binding::{binding_of, right_level};
use rule_text::token::{Mark, Operator, Token};
use scanner::scan::first_token;

// The text behind the mark, if that is the first token.
pub fn behind_mark(text: &[u8], mark: Mark) -> Option<&[u8]>
    ensures { Marked text.now mark result }
{
    let first = first_token(text);
    (first.token == Token::Mark(mark)).then_some(first.behind)
}

// A binary operator, the least strength of the operators in its right operand, and the text behind it.
#[derive(Clone, Copy)]
pub struct Infix<'a> {
    pub operator: Operator,
    pub right: usize,
    pub behind: &'a [u8],
}

// The operator that is the first token, if it is at least so strong.
// Not inlined: what it looks at would lie in the frame of `expression`, once for each bracket that is open.
#[inline(never)]
pub fn first_operator(text: &[u8], least: usize) -> Option<Infix<'_>>
    ensures { Follows text.now least result }
{
    let first = first_token(text);
    let Token::Operator(operator) = first.token else {
        return None;
    };
    let b = binding_of(operator);
    if b.strength < least {
        return None;
    }
    Some(Infix {
        operator,
        right: right_level(b),
        behind: first.behind,
    })
}
