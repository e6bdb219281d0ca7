//! The certificate of what a search answers, and the bound that it proves.
//!
//! # What is promised
//!
//! - `certify` gives the tree of a search that has ended with the claims that are due, within a limit of
//!   their sum, and the bound that it proves (`IsCertified`, in `specs/Certified.antt`). It is the search's
//!   own tree and bound exactly where the claims that are due in it sum to no more than the limit allows;
//!   else the search's tree with worths lowered to the first of three lesser bounds at which they fit, or
//!   at worst one leaf at the prices with which a search starts, with that lesser bound (`IsCutTo`). The
//!   tree is no longer than the search's and has a text. Or it is out of memory.
//!
//! With a limit that is enough for any search within some limits (`AreClaimsEnough`) the bound is the
//! search's (`proofs/Enough.antt`). `proofs/KnownTrees.antt` shows that the tree has a text, and that one
//! of a search within the default limits is not too long.
#![tactic(auto)]

mod certifying;

pub use certifying::certify;
