//! Tests of the texts: words, scripts, those of seeds, limits, and logs line by line.
//!
//! Each table is one text, and each of its lines a row.
#![tactic(auto)]

#[cfg(test)]
mod limits;
#[cfg(test)]
mod log_lines;
#[cfg(test)]
mod logs;
#[cfg(test)]
mod rows;
#[cfg(test)]
mod scripts;
#[cfg(test)]
mod seeds;
#[cfg(test)]
mod words;
