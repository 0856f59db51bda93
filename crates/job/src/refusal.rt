// Why a call is refused: the first question that is answered no. Each case has a number, by which callers know it.
ghost use Rattle.std.specs.Prelude.{◌≡◌, [], ◌∷◌};
ghost use Rattle.job.specs.Refused.{number_of, line_of_refusal};

// A case about the lines of a text has the line, counted from 1.
#[derive(Clone, Copy, Debug, PartialEq, Eq)]
pub enum Refusal {
    LineOne,
    Ranges,
    TextLength,
    MalformedLine(usize),
    StateLine(usize),
    EdgeLine(usize),
    NoEdgeOut(usize),
    SubformulaLine(usize),
    TableLength,
    Cells,
    Node,
    StateOrSubformula,
    NotTemporal,
    OwnerEmpty,
    Value,
    NotBorder,
    OtherValue,
    OutsideFragment,
    NotSettled,
    NothingOpen,
    RuleBuffer,
    NoRule,
    TooManyLines,
    PageBuffer,
    Marks,
    NoneMarked,
}

impl Refusal {
    pub fn number(self) -> u8
        ensures { result ≡ number_of self }
    {
        match self {
            Refusal::LineOne => 1,
            Refusal::Ranges => 2,
            Refusal::TextLength => 3,
            Refusal::MalformedLine(_) => 4,
            Refusal::StateLine(_) => 5,
            Refusal::EdgeLine(_) => 6,
            Refusal::NoEdgeOut(_) => 7,
            Refusal::SubformulaLine(_) => 8,
            Refusal::TableLength => 9,
            Refusal::Cells => 10,
            Refusal::Node => 11,
            Refusal::StateOrSubformula => 12,
            Refusal::NotTemporal => 13,
            Refusal::OwnerEmpty => 14,
            Refusal::Value => 15,
            Refusal::NotBorder => 16,
            Refusal::OtherValue => 17,
            Refusal::OutsideFragment => 18,
            Refusal::NotSettled => 19,
            Refusal::NothingOpen => 20,
            Refusal::RuleBuffer => 21,
            Refusal::NoRule => 22,
            Refusal::TooManyLines => 23,
            Refusal::PageBuffer => 24,
            Refusal::Marks => 25,
            Refusal::NoneMarked => 26,
        }
    }

    // The line that it is about, 0 for none, as callers are told.
    pub fn line(self) -> usize
        ensures { result ≡ line_of_refusal self }
    {
        match self {
            Refusal::LineOne | Refusal::Ranges | Refusal::TextLength => 1,
            Refusal::MalformedLine(line)
            | Refusal::StateLine(line)
            | Refusal::EdgeLine(line)
            | Refusal::NoEdgeOut(line)
            | Refusal::SubformulaLine(line) => line,
            _ => 0,
        }
    }

    // Number and line, as they are told.
    pub fn numbers(self) -> [usize; 2]
        ensures { result ≡ number_of self ∷ line_of_refusal self ∷ [] }
    {
        [usize::from(self.number()), self.line()]
    }
}
