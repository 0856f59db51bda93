// Expression, prefix form and closed form. Each reads from the start of the text that is left, keeps the lines of what it reads, and answers
// the number of its own line, or None where it isn't there. Bytes are used up at each call, or the rank falls, from expression over prefix
// form to closed form.
ghost use Rattle.std.specs.Prelude.{◌≡◌, ◌∷◌, []};
ghost use Rattle.job.specs.Rule.{quantifier};
ghost use Rattle.rule_text.specs.Lines as written;
ghost use Rattle.rule_text.specs.Scan.{tokens};
ghost use Rattle.rule_text.specs.Parse as reads;
ghost use Rattle.rule_text.specs.declared.token.Token.TheVariants as token;
ghost use Rattle.rule_reader.specs.Reads.{ReadsAs};

use job::subformula::Subformula;
use rule_lines::lines::Lines;
use rule_places::places::{behind_mark, first_operator};
use rule_text::token::{Mark, Prefix, Token};
use scanner::scan::first_token;

// The text that is left, and the lines that are kept so far.
#[derive(Drop)]
pub struct Reader<'a> {
    pub rest: &'a [u8],
    pub lines: Lines,
}

#[tactic(auto, unfolding(rule_text::specs::Lines::prefix_line))]
fn prefix_line(p: Prefix, a: usize) -> Subformula
    ensures { result ≡ written.prefix_line p a }
{
    match p {
        Prefix::Not => Subformula::Not(a),
        Prefix::Ax => Subformula::Ax(a),
        Prefix::Ex => Subformula::Ex(a),
        Prefix::Eg => Subformula::Eg(a),
        Prefix::Ag => Subformula::Ag(a),
    }
}

#[tactic(auto, unfolding(rule_text::specs::Lines::until_line))]
fn until_line(all: bool, a: usize, b: usize) -> Subformula
    ensures { result ≡ written.until_line (quantifier all) a b }
{
    if all {
        Subformula::Au(a, b)
    } else {
        Subformula::Eu(a, b)
    }
}

impl<'a> Reader<'a> {
    // Nothing of the text is read.
    pub fn new(text: &'a [u8]) -> Self
        ensures { (result.rest.now ≡ text.now) × (result.lines ≡ []) }
    {
        Reader {
            rest: text,
            lines: Lines::new(),
        }
    }

    // An expression of operators that are at least so strong.
    #[cycle(form)]
    pub fn expression(&mut self, least: usize) -> Option<usize>
        ensures { ReadsAs self.old.rest.now 1 (reads.parse (reads.expression least) (tokens self.old.rest.now))
            self.old.lines result self.new.rest.now self.new.lines }
    {
        let mut left = self.prefix_form()?;
        // no iterator, since each turn reads on from where the one before has stopped
        while let Some(infix) = first_operator(self.rest, least) {
            self.rest = infix.behind;
            let a = self.lines.keep_left(infix.operator, left);
            let b = self.expression(infix.right)?;
            left = self.lines.keep_joined(infix.operator, a, b);
        }
        Some(left)
    }

    // A closed form behind prefix operators.
    #[cycle(form)]
    fn prefix_form(&mut self) -> Option<usize>
        ensures { ReadsAs self.old.rest.now 1 (reads.parse reads.prefix_form (tokens self.old.rest.now))
            self.old.lines result self.new.rest.now self.new.lines }
    {
        let first = first_token(self.rest);
        let Token::Prefix(p) = first.token else {
            return self.closed_form();
        };
        self.rest = first.behind;
        let f = self.prefix_form()?;
        Some(self.lines.keep(prefix_line(p, f)))
    }

    // A closed form: an atom, or what starts with `(`, `A` or `E`.
    #[cycle(form)]
    fn closed_form(&mut self) -> Option<usize>
        ensures { ReadsAs self.old.rest.now 1 (reads.parse reads.closed_form (tokens self.old.rest.now))
            self.old.lines result self.new.rest.now self.new.lines }
    {
        let first = first_token(self.rest);
        self.rest = first.behind;
        match first.token {
            Token::Atom(j) => Some(self.lines.keep(Subformula::Atom(j))),
            Token::Mark(mark) => self.marked_form(mark),
            Token::Prefix(_) | Token::Operator(_) | Token::Unknown => None,
        }
    }

    // A closed form behind its first mark.
    #[cycle(form)]
    fn marked_form(&mut self, mark: Mark) -> Option<usize>
        ensures { ReadsAs self.old.rest.now 0 (reads.parse reads.closed_form (token.Mark mark ∷ tokens self.old.rest.now))
            self.old.lines result self.new.rest.now self.new.lines }
    {
        match mark {
            Mark::LeftParenthesis => self.parenthesized(),
            Mark::ForAllPaths => self.until_form(true),
            Mark::OnSomePath => self.until_form(false),
            Mark::Until | Mark::RightParenthesis | Mark::LeftBracket | Mark::RightBracket => None,
        }
    }

    // What stands behind `(`: an expression and `)`.
    #[cycle(form)]
    fn parenthesized(&mut self) -> Option<usize>
        ensures { ReadsAs self.old.rest.now 0 (reads.parse reads.parenthesized (tokens self.old.rest.now))
            self.old.lines result self.new.rest.now self.new.lines }
    {
        let inner = self.expression(1)?;
        self.rest = behind_mark(self.rest, Mark::RightParenthesis)?;
        Some(inner)
    }

    // What stands behind `A` or `E`: `[`, two expressions with `U` between them, and `]`.
    #[cycle(form)]
    fn until_form(&mut self, all: bool) -> Option<usize>
        ensures { ReadsAs self.old.rest.now 0 (reads.parse (reads.until_form (quantifier all)) (tokens self.old.rest.now))
            self.old.lines result self.new.rest.now self.new.lines }
    {
        self.rest = behind_mark(self.rest, Mark::LeftBracket)?;
        let f = self.expression(1)?;
        self.rest = behind_mark(self.rest, Mark::Until)?;
        let g = self.expression(1)?;
        self.rest = behind_mark(self.rest, Mark::RightBracket)?;
        Some(self.lines.keep(until_line(all, f, g)))
    }
}
