// Places in texts.

/// A place in a text: `offset` bytes stand before it; lines and columns count from 1, in bytes.
#[derive(Clone, Copy, PartialEq, Eq, Debug)]
pub struct Place {
    /// How many bytes stand before it.
    pub offset: u32,
    /// Which line it is on: one more than the newlines before it.
    pub line: u32,
    /// One more than the bytes before it on its line.
    pub column: u32,
}
