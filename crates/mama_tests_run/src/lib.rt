//! Tests of whole scripts and logs through the top call.
#![tactic(auto)]

#[cfg(test)]
mod check;
#[cfg(test)]
mod damaged;
#[cfg(test)]
mod failing;
#[cfg(test)]
mod followed;
#[cfg(test)]
mod limits;
#[cfg(test)]
mod played;
#[cfg(test)]
mod refused;
#[cfg(test)]
mod rewritten;
#[cfg(test)]
mod serial;
#[cfg(test)]
mod worlds;
