// What a text's line 1 says.

// The numbers of line 1.
#[derive(Clone, Copy, Debug, PartialEq, Eq)]
pub struct Header {
    pub states: usize,
    pub edges: usize,
    pub subformulas: usize,
    pub nodes: usize,
}
