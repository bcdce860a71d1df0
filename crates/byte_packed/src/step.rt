//! The steps of packed rows.

/// Some bytes that stand in the window at its place, so many, and then one more byte. If the number is 255, no bytes: the rows after it
/// begin at another place of the window.
#[derive(Clone, Copy)]
pub struct Step {
    pub copied: u8,
    pub byte: u8,
}

/// The number that stands for a jump.
pub const JUMP: u8 = 255;
