//! Tests of what a search for a cheapest plan rests on: nodes and their splits, which partial tours can be
//! extended, and completion bounds, among them a walk over all partial tours of a car that compares the
//! running sums with `bound`.

mod bounds;
mod extensions;
mod nodes;
mod sums;
mod walks;
