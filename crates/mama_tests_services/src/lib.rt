//! Tests of the bridge and of the timer service: what each puts on every lane by worked journals, as logs have them.
#![tactic(auto)]

#[cfg(test)]
mod bridge;
#[cfg(test)]
mod lanes;
#[cfg(test)]
mod rows;
#[cfg(test)]
mod timers;
