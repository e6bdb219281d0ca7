//! Tests of what no whole command shows, from the values that all else rests on to texts that are written
//! again. They stand apart from the crates that they test, since a crate with tests is proved twice, and
//! together, since each program of tests has costs of its own.
//!
//! - `values`: streams of bytes, prices, travel times, the worked cases of the definitions (which the proof of
//!   this crate computes), work that is drawn from a line, and what texts are made of.
//! - `search`: what a search for a cheapest plan rests on, with a walk over all partial tours of a car.
//! - `plans`: snapshots, their plans and the worlds of days, and what the builds of parts refuse.
//! - `texts`: texts that are written again, what stays unread, certificates twig by twig and at once, a day with
//!   another planner, and workers side by side.
//!
//! A helper that answers a `bool` says no, and one that answers an `Option` has none, when out of memory or
//! where a text is refused, so that its test fails. With few early returns, and few values to drop at them,
//! the tests are proved fast.
#![tactic(auto)]

#[cfg(test)]
mod plans;
#[cfg(test)]
mod search;
#[cfg(test)]
mod texts;
#[cfg(test)]
mod values;
