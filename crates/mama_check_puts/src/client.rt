ghost use Rattle.std.specs.Prelude.{◌≡◌, ◌<◌, ◌++◌, ◌∷◌, [], OnOk, IfOk};
ghost use Rattle.mama_event.specs.declared.to_bridge.BridgeNote.TheVariants as bridge;
ghost use Rattle.mama_event.specs.declared.to_timers.TimersNote.TheVariants as timers;
ghost use Rattle.mama_check_order.specs.Numbered.{from_entry};
ghost use Rattle.mama_script.specs.declared.client.ClientLine.TheVariants as line;
ghost use Rattle.mama_rules_rounds.specs.Client.{bridge_part, timers_part, first_moment, later_moments};
ghost use Rattle.mama_script.specs.declared.client.ClientLine.{ClientLine};
ghost use Rattle.mama_plans.specs.Put.{note_of};
ghost use Rattle.mama_plans.specs.Names.{DoesLine};
ghost use Rattle.mama_check_puts.specs.Client.{client_put_to_bridge, client_put_to_timers, Tells};

use crate::notes::{bridge_note, timers_note};
use mama_event::{BridgeNote, ObjectId, TimersNote, ToService, ToTimers};
use mama_memory::OutOfMemory;
use mama_plans::{Doing, Names};
use mama_script::ClientLine;
use std::alloc::Global;

/// What a client put to the bridge and to the timer service, each event with the number of the line that put it.
#[derive(Debug, Drop)]
pub struct ClientPuts {
    pub to_bridge: Vec<(usize, BridgeNote)>,
    pub to_timers: Vec<(usize, TimersNote)>,
}

/// What the client of a number put by its lines, where there are so many queues and its clock told these moments. Lines
/// are counted from 0; a pause is one that puts nothing, and the one after the last puts that the client is done. The error
/// is want of memory, and comes also where [`Names::line`] finds no number left.
pub fn puts_of_client(
    alloc: Global,
    number: u32,
    queues: u32,
    moments: &[u64],
    lines: &[ClientLine],
) -> Result<ClientPuts, OutOfMemory>
    ensures bridge { IfOk result (λ puts. puts.to_bridge.items ≡ client_put_to_bridge queues number moments.now lines.now) }
    ensures timers { IfOk result (λ puts. puts.to_timers.items ≡ client_put_to_timers queues number moments.now lines.now) }
{
    let mut teller = Teller {
        number,
        queues,
        names: Names::none(),
        moments,
        place: 0,
        puts: ClientPuts {
            to_bridge: Vec::new(alloc),
            to_timers: Vec::new(alloc),
        },
    };
    for line in lines {
        teller.tell(line)?;
    }
    let place = teller.place;
    let mut puts = teller.puts;
    last_words(&mut puts, place)?;
    Ok(puts)
}

/// A client that does its lines again: what it has named, the moments that its clock has still to tell, the number of its
/// next line, and what it put.
#[derive(Drop)]
struct Teller<'a> {
    number: u32,
    queues: u32,
    names: Names,
    moments: &'a [u64],
    place: usize,
    puts: ClientPuts,
}

/// The next moment that a clock tells, and those after it; 0 where none is left.
fn next_moment<'a>(moments: &'a [u64]) -> (u64, &'a [u64])
    ensures moment { result.0 ≡ first_moment moments.now }
    ensures rest { result.1.now ≡ later_moments moments.now }
{
    match moments.split_first() {
        Some((moment, rest)) => (*moment, rest),
        None => (0, moments),
    }
}

/// Adds what a line put.
fn add(puts: &mut ClientPuts, place: usize, put: ToService<ObjectId>) -> Result<(), OutOfMemory>
    ensures bridge { OnOk result (puts.new.to_bridge.items ≡ puts.old.to_bridge.items ++ from_entry place (bridge_part (note_of put))) }
    ensures timers { OnOk result (puts.new.to_timers.items ≡ puts.old.to_timers.items ++ from_entry place (timers_part (note_of put))) }
{
    match put {
        ToService::Bridge(event) => {
            let note = bridge_note(event)?;
            puts.to_bridge.push((place, note))?
        }
        ToService::Timers(event) => puts.to_timers.push((place, timers_note(event)))?,
    }
    Ok(())
}

/// Adds what is put after the last line: it tells the timer service, and then the bridge, that the client is done.
fn last_words(puts: &mut ClientPuts, place: usize) -> Result<(), OutOfMemory>
    ensures bridge { OnOk result (puts.new.to_bridge.items ≡ puts.old.to_bridge.items ++ (place, bridge.ClientDone) ∷ []) }
    ensures timers { OnOk result (puts.new.to_timers.items ≡ puts.old.to_timers.items ++ (place, timers.ClientDone) ∷ []) }
{
    puts.to_timers.push((place, TimersNote::ClientDone))?;
    puts.to_bridge.push((place, BridgeNote::ClientDone))?;
    Ok(())
}

impl<'a> Teller<'a> {
    /// Does a line.
    fn tell(&mut self, line: &ClientLine) -> Result<(), OutOfMemory>
        requires { self.old.place < usize.MAX }
        ensures { OnOk result (Tells self.old self.new line.now) }
    {
        match self.names.line(self.number, self.queues, line)? {
            Doing::Puts(put, names) => {
                self.say(put, names)?;
                Ok(())
            }
            Doing::Pauses(steps) => {
                self.pause(steps);
                Ok(())
            }
            Doing::ReadsClock => {
                self.read()?;
                Ok(())
            }
        }
    }

    /// Passes over a pause of so many steps.
    fn pause(&mut self, steps: u32)
        requires { self.old.place < usize.MAX }
        ensures { Tells self.old self.new (line.Pause steps) }
    {
        self.place += 1;
    }

    /// Tells what the clock says.
    fn read(&mut self) -> Result<(), OutOfMemory>
        requires { self.old.place < usize.MAX }
        ensures { OnOk result (Tells self.old self.new line.NowClock) }
    {
        let (moment, rest) = next_moment(self.moments);
        add(
            &mut self.puts,
            self.place,
            ToService::Timers(ToTimers::Now { moment }),
        )?;
        self.moments = rest;
        self.place += 1;
        Ok(())
    }

    /// Puts an event, and has then named so much.
    fn say(&mut self, put: ToService<ObjectId>, names: Names) -> Result<(), OutOfMemory>
        requires { self.old.place < usize.MAX }
        ensures { OnOk result ((l : ClientLine) → DoesLine self.old.queues self.old.number self.old.names names l (note_of put) → Tells self.old self.new l) }
    {
        add(&mut self.puts, self.place, put)?;
        self.names = names;
        self.place += 1;
        Ok(())
    }
}
