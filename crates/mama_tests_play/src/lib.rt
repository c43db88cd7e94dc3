//! Tests of runs on threads, by the call and through the top call.
#![tactic(auto)]

#[cfg(test)]
mod call;
#[cfg(test)]
mod keeper;
#[cfg(test)]
mod meeting;
#[cfg(test)]
mod morning;
#[cfg(test)]
mod roll;
#[cfg(test)]
mod scripts;
#[cfg(test)]
mod soaks;
#[cfg(test)]
mod storm;
#[cfg(test)]
mod watching;
#[cfg(test)]
mod words;
