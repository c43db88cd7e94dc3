//! The tests of what queues do: the strategy of a subscription, listeners and their plans, and the serving of a queue,
//! with bytes that spell no message among what it takes; and of its groups and watches.
#![tactic(auto)]

#[cfg(test)]
mod broken;
#[cfg(test)]
mod groups;
#[cfg(test)]
mod notes;
// not of the tests alone, since specs/ names its struct
mod orderer;
#[cfg(test)]
mod plans;
#[cfg(test)]
mod serving;
#[cfg(test)]
mod strategies;
#[cfg(test)]
mod watches;
