//! What the lines of a certificate say and begin.

use call_sets::CarSet;
use lift_text::TextFault;
use search_model::{Leaf, PriceOf, WorthOf};

/// The first word of a line.
#[derive(Clone, Copy)]
pub(crate) enum LineWord {
    Certificate,
    Split,
    Leaf,
    Price,
    Worth,
    End,
}

/// What a line after the first one says.
#[derive(Clone, Copy)]
pub(crate) enum Entry {
    /// A split, with the part of its first subtree.
    Split { call: u32, part: CarSet },
    /// A leaf begins.
    Leaf,
    /// A price of the last leaf.
    Price(PriceOf),
    /// A worth of the last leaf.
    Worth(WorthOf),
    /// The tree ends.
    End,
}

/// What the lines that were read began, and what is not handed out yet.
#[derive(Drop)]
pub enum Begun {
    /// Nothing: a twig is due.
    Nothing,
    /// A split.
    Split { call: u32, part: CarSet },
    /// A leaf, to which prices and worths may be added.
    Leaf(Leaf),
    /// The last line was read.
    End,
    /// A call failed, and this is what it answered.
    Failed(TextFault),
}
