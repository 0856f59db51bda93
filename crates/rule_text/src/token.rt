// The tokens of rule text.

#[derive(Clone, Copy, Debug, PartialEq, Eq)]
pub enum Prefix {
    Not,
    Ax,
    Ex,
    Eg,
    Ag,
}

#[derive(Clone, Copy, Debug, PartialEq, Eq)]
pub enum Operator {
    And,
    Or,
    Implies,
}

// `A`, `E`, `U` and the brackets
#[derive(Clone, Copy, Debug, PartialEq, Eq)]
pub enum Mark {
    ForAllPaths,
    OnSomePath,
    Until,
    LeftParenthesis,
    RightParenthesis,
    LeftBracket,
    RightBracket,
}

#[derive(Clone, Copy, Debug, PartialEq, Eq)]
pub enum Token {
    Atom(usize),
    Prefix(Prefix),
    Operator(Operator),
    Mark(Mark),
    // bytes that are no token: a case, and no `None`, so that the tokens of any text are a list
    Unknown,
}

// A token, and how many bytes spell it.
#[derive(Clone, Copy, Debug, PartialEq, Eq)]
pub struct Lexeme {
    pub token: Token,
    pub width: usize,
}
