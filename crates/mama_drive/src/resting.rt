ghost use Rattle.std.specs.Prelude.{◌≡◌, ◌||◌, ℕ, ◌<◌, ◌≤◌, [], nat_le, map, length, slice_index_or, true};
ghost use Rattle.std.specs.List.{list_all};
ghost use Rattle.mama_event.specs.Ports.{publishers_of};
ghost use Rattle.mama_seats.specs.Sender.{steps_in};
ghost use Rattle.mama_drive.specs.Scene.{Advances, Rounds, ArePassed, CanRest, rested_stand, rested_sender, IsPlayed, world_in};

use crate::system::System;
use mama_seats::{ClientSeat, PublisherSeat};

impl<'a> System<'a> {
    /// Whether every client and every publisher has made all its steps.
    pub(crate) fn is_played(&self) -> bool
        ensures { result ≡ true → IsPlayed self.now }
    {
        are_clients_over(self.clients.as_slice()) && are_publishers_over(self.publishers.as_slice())
    }

    /// The first publisher from this number on that has not made all its steps, or their count, where nothing waits;
    /// otherwise this number.
    pub(crate) fn next_sender(&self, from: u32) -> u32
        ensures { from ≤ publishers_of self.now.shape → ArePassed from result self.now }
    {
        if !self.is_quiet() {
            return from;
        }
        next_left(self.publishers.as_slice(), from as usize) as u32
    }

    /// How many rounds are surely left in which every client and every publisher pauses. The first that does not ends the
    /// search.
    pub(crate) fn pause(&self) -> u32 {
        let mut least = u32::MAX;
        for seat in &self.clients {
            match seat.pause() {
                Some(0) => return 0,
                Some(pause) => least = least.min(pause),
                None => {}
            }
        }
        for seat in &self.publishers {
            match seat.pause() {
                Some(0) => return 0,
                Some(pause) => least = least.min(pause),
                None => {}
            }
        }
        least
    }

    /// Whether nothing happens in as many rounds.
    pub(crate) fn can_rest(&self, rounds: u32) -> bool
        ensures { result ≡ true → CanRest rounds self.now }
    {
        if !self.is_quiet() {
            return false;
        }
        if !are_clients_idle(self.clients.as_slice(), rounds) {
            return false;
        }
        are_publishers_idle(self.publishers.as_slice(), rounds)
    }

    /// Makes as many rounds, in which nothing happens.
    pub(crate) fn rest(&mut self, rounds: u32)
        requires { CanRest rounds self.old }
        ensures rounds { Advances (Rounds rounds) self.old self.new }
        ensures clients { self.new.clients ≡ map (rested_stand rounds) self.old.clients }
        ensures journals { world_in self.new ≡ world_in self.old }
    {
        rest_clients(&mut self.clients, rounds);
        rest_publishers(&mut self.publishers, rounds);
    }
}

/// The first publisher from this number on that has not made all its steps, or their count.
fn next_left(seats: &[PublisherSeat], from: usize) -> usize
    ensures within { result ≤ length seats.now }
    ensures above { from ≤ length seats.now → from ≤ result }
    ensures over { (n : ℕ) → n < result → from ≤ n → slice_index_or (map steps_in seats.now) n [] ≡ [] }
{
    for next in from..seats.len() {
        if !seats[next].is_over() {
            return next;
        }
    }
    seats.len()
}

/// Whether in as many steps no client does anything.
fn are_clients_idle(seats: &[ClientSeat], steps: u32) -> bool
    ensures { result ≡ list_all (λ seat. seat.over || nat_le steps seat.pause) seats.now }
{
    seats.iter().all(|seat| seat.is_idle(steps))
}

/// Whether in as many steps no publisher does anything.
fn are_publishers_idle(seats: &[PublisherSeat], steps: u32) -> bool
    ensures { result ≡ list_all (λ seat. seat.over || nat_le steps seat.pause) seats.now }
{
    seats.iter().all(|seat| seat.is_idle(steps))
}

/// Each client passes over as many steps of its pause.
fn rest_clients(seats: &mut Vec<ClientSeat>, steps: u32)
    ensures { seats.new.items ≡ map (rested_stand steps) seats.old.items }
{
    for i in 0..seats.len() {
        seats[i].rest(steps);
    }
}

/// Each publisher passes over as many steps of its pause.
fn rest_publishers(seats: &mut Vec<PublisherSeat>, steps: u32)
    ensures { seats.new.items ≡ map (rested_sender steps) seats.old.items }
{
    for i in 0..seats.len() {
        seats[i].rest(steps);
    }
}

/// Whether every client has made all its steps.
fn are_clients_over(seats: &[ClientSeat]) -> bool
    ensures { result ≡ list_all (λ seat. seat.over) seats.now }
{
    seats.iter().all(|seat| seat.is_over())
}

/// Whether every publisher has made all its steps.
fn are_publishers_over(seats: &[PublisherSeat]) -> bool
    ensures { result ≡ list_all (λ seat. seat.over) seats.now }
{
    seats.iter().all(|seat| seat.is_over())
}
