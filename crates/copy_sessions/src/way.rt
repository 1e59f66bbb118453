// Which way a copy goes.

/// Which way a copy goes.
#[derive(Clone, Copy)]
pub enum Way {
    /// From a folder into the tree.
    In,
    /// From the tree into a folder.
    Out,
}
