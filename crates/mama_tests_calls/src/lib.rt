//! Tests of a run on one thread, its log and its verdict, by the calls beneath the top call; and of a lane whose puts are made
//! again.
#![tactic(auto)]

#[cfg(test)]
mod going_on;
#[cfg(test)]
mod lanes;
#[cfg(test)]
mod scripts;
