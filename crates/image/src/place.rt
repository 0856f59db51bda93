// Where a state stands in a node's fragment.

// A border state is one with no edge out of it there; an inner one has an edge. A byte, since a space has 2,048 of them.
#[derive(Clone, Copy, Debug, PartialEq, Eq)]
#[repr(u8)]
pub enum Place {
    Outside,
    Border,
    Inner,
}
