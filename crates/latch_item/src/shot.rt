// A tree at one moment.

/// The root and height of a tree. It is plain data: that a seat refers to the root, and for how long, is for the caller to keep.
#[derive(Clone, Copy, Debug)]
pub struct Shot {
    /// The row of the root, none of an empty tree.
    pub root: Option<u32>,
    /// How many levels of nodes there are.
    pub height: u32,
}
