//! Tests of plain data and of what moves it: outboxes, slots, sources and sinks, messages, their payloads and packets,
//! links, events, publishers and clients.
//!
//! Each table is one text, and each of its lines a row.
#![tactic(auto)]

#[cfg(test)]
mod clients;
#[cfg(test)]
mod edges;
#[cfg(test)]
mod events;
pub mod item;
#[cfg(test)]
mod links;
#[cfg(test)]
mod messages;
#[cfg(test)]
mod packets;
#[cfg(test)]
mod payloads;
#[cfg(test)]
mod publishers;
#[cfg(test)]
mod rows;
#[cfg(test)]
mod slots;
#[cfg(test)]
mod vectors;
