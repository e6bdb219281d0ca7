//! Trees of a search.

use search_model::{Items, Twig};

/// One whole binary tree, its twigs in preorder: after a split come the twigs of its first part and then
/// those of its second part.
#[derive(Drop)]
pub struct Tree {
    pub twigs: Items<Twig>,
}
