//! Tests of the values that all else rests on, and of the definitions beside them: streams of bytes, prices,
//! travel times, the worked cases of the definitions, work that is drawn from a line, and what texts are made
//! of: lines, words, numbers and figures.

mod definitions;
mod failures;
mod items;
mod lines;
mod numbers;
mod prices;
mod reports;
mod rows;
mod streams;
mod travel;
mod workers;
