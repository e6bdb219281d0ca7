//! The certificate section of a text: read twig by twig, and written.
//!
//! Prices and worths are in thousandths of a cost unit. Cars and calls have ids in the text and are indexes
//! in a tree.
//!
//! # What is promised
//!
//! - `TreeReader::begin`, `TreeReader::next` and `read_cert` accept exactly the lists of lines that stand for
//!   a whole tree (`StandsFor`), with claims up to 10^10 in all, and give its twigs in preorder. All twigs
//!   handed out are a front of a whole tree of the snapshot's calls and cars; else the first bad line is told
//!   with its one code. What follows stays unread. The text of a tree within its ranges, of a snapshot whose
//!   ids are below 2^32, is read as that tree again (`written`).
//! - `write_cert` appends the canonical text of any twigs whose calls and cars are those of the snapshot
//!   (`AreTwigsKnown`); when out of memory nothing was appended.
//!
//! # How the reader keeps count
//!
//! `begin` reads the first line, `next` a twig, and none once the tree is whole and its `end` was read, and
//! from then on (`at_end`, `ended`). Of a tree it keeps how many places are open and the claims so far,
//! however deep the tree is; a leaf is handed out with the line after its last price or worth, and what that
//! line began is kept (`Begun`). The contract of `next` is for every text that the reader began at and all
//! twigs that were handed out (`HasRead`): `HandsOut` says that the twigs with the next one are a front of a
//! whole tree, within the snapshot and their ranges (`IsFront`); at the end, that the lines between are those
//! of these twigs and that the tree is whole (`IsSaid`, `IsWithin`); and of a refusal, that the first bad
//! line of the whole section is that one (`IsRefused`). So a caller's loop carries `HasRead` alone;
//! `proofs/AgainLemmas.antt` and `proofs/ReaderLemmas.antt` turn the end of it into the outcome of the whole
//! section, and lines of a tree into that tree. `read_cert` is such a loop, and has the clauses of
//! `read_answer`. How long a text is at most, by the number of its leaves and of the prices and worths of
//! each, is told in `proofs/LengthLemmas.antt`.
#![tactic(auto)]

mod kinds;
mod pieces;
mod readers;
mod reading;
mod said;
mod writing;

pub use readers::TreeReader;
pub use reading::read_cert;
pub use writing::write_cert;
