//! The input of the check of certificates: a case, an answer to it and a certificate, one after the other.
//!
//! # What is promised
//!
//! - `read_check` gives, of a text that is a case, an answer to it and a certificate, and of no other
//!   (`IsCheckAlone`), the snapshot, the stated cost and bound, and the verdict on them all (`IsChecked`);
//!   else the first bad line with its one code (`IsCheckFault`: in the case, in the answer after a right
//!   case, in the certificate after a right answer, or after them all), also where an earlier line makes the
//!   verdict a no.
//! - `read_certified` gives, of an answer to a snapshot and a certificate, the answer and the verdict, and
//!   leaves unread what follows (`IsCertified`); else the first bad line (`IsPairFault`).
//! - `write_verdict` appends the lines of a verdict; when out of memory nothing was appended.
//! - `text_laws` has what a program needs that writes such a text (`specs/Laws.antt`). A feasible plan with
//!   the boards of each stop by rising index is feasible and costs the same (`ByIndexLaw`). Such a plan of a
//!   case with its cost and a bound has a text of at most 200,000 bytes (`StatedTextLaw`). After the text of
//!   a case that ends with a line feed more may follow (`AppendLaw`). A case, an answer, a certificate and a
//!   comment line, written one after the other, are read as these (`AgainLaw`).
//!
//! The certificate is never whole in memory: `read_piece` takes at most 256 twigs from the `TreeReader`,
//! `check_piece` hands them to the `Checker`, and the loop over pieces (`check_tree`) carries that both are
//! in step (`StandsAt`: the twigs that were handed out are those that the checker has seen). The text is read
//! to its end before the verdict is asked, so a bad line after a failing leaf is still the answer. The proof
//! goes layer by layer (`specs/Layers.antt`, `proofs/LayerLemmas.antt`).
#![tactic(auto)]

mod checked;
mod laws;
mod reading;
mod verdicts;

pub use checked::Checked;
pub use laws::text_laws;
pub use reading::{Certified, read_certified, read_check};
pub use verdicts::{put_reason, write_verdict};
