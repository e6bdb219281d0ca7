//! Tests of texts that are written again, of what stays unread, of certificates twig by twig and at once, of a
//! day with another planner, and of workers side by side.

mod answers;
mod buildings;
mod certificates;
mod days;
mod makers;
mod sections;
mod sized;
mod snapshots;
mod whole_trees;
mod words;
mod workers;
