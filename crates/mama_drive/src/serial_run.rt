ghost use Rattle.std.specs.Prelude.{◌≡◌, Option, List, ℕ, true, false, IfOk, IfErr, OnOk, OnErr};
ghost use Rattle.mama_script.specs.Script.{ScriptData};
ghost use Rattle.mama_rules_rounds.specs.Round.{IsRound};
ghost use Rattle.mama_seats.specs.Moments.{AreHeard};
ghost use Rattle.mama_drive.specs.declared.place.Place.TheVariants as places;
ghost use Rattle.mama_drive.specs.Scene.{IsPlayed};
ghost use Rattle.mama_drive.specs.Grown.{HasGrown};
ghost use Rattle.mama_drive.specs.Place.{GoesHearing, IsEnd};
ghost use Rattle.mama_drive.specs.Course.{begun, IsUnderWay, IsGoneOn};

use crate::place::{Place, next_place};
use crate::recording::Parts;
use crate::run::Run;
use mama_edge::Clock;
use mama_memory::OutOfMemory;
use mama_record::RunRecord;
use mama_script::Script;
use std::alloc::Global;
use std::marker::Model;

/// The run of a script on one thread, which may be gone on with after want of memory: it always stands between two turns.
#[derive(Drop)]
pub struct SerialRun<'a> {
    run: Run<'a>,
    place: Place,
    /// The parts of its record, once it is at its end.
    parts: Option<Parts>,
}

impl<'a> Model for SerialRun<'a> {
    ghost use Rattle.mama_drive.specs.Course.{Course};

    ghost Value = { Course };

    ghost use Rattle.std.specs.Prelude.{is_some, IfSome};
    ghost use Rattle.mama_drive.specs.Place.{IsEnd};

    ghost view = { λ s. record { scene = s.run; at = s.place; over = is_some s.parts } };

    ghost invariant = { λ s. IfSome s.parts (IsEnd s.run s.place) };
}

impl<'a> SerialRun<'a> {
    /// The run of a script at its beginning.
    pub fn new(alloc: Global, script: &'a Script) -> Result<SerialRun<'a>, OutOfMemory>
        ensures beginning { IfOk result (λ run. run ≡ begun script.now) }
        ensures under_way { IfOk result (λ run. (told : Option (List ℕ)) → IsUnderWay script.now told told run) }
    {
        let first = Run::new(alloc, script)?;
        Ok(SerialRun {
            run: first,
            place: Place::Rounds,
            parts: None,
        })
    }

    /// Goes on to the end of the run. The error is want of memory: then the run stands between two turns, and the next
    /// call goes on from there. A moment that was read is kept, and is not read again; and where the clock tells what is
    /// left to it, the moments that a call reads are what the clock answers in as many calls.
    pub fn go<C: Clock>(&mut self, clock: &mut C) -> Result<(), OutOfMemory>
        ensures gone_on { IsGoneOn (C.left clock.old) (C.left clock.new) self.old self.new }
        ensures kept { HasGrown self.old.scene self.new.scene }
        ensures end { OnOk result (self.new.over ≡ true) }
        ensures going { OnErr result (self.new.over ≡ false) }
    {
        if self.parts.is_some() {
            return Ok(());
        }
        let parts = play(&mut self.run, &mut self.place, clock)?;
        self.parts = Some(parts);
        Ok(())
    }

    /// The record of the run, or the run itself where it is not at its end. It takes no memory. Whatever calls were
    /// refused, the record is that of the rounds of its script for the moments that it names.
    pub fn into_record(self) -> Result<RunRecord, SerialRun<'a>>
        ensures rounds { IfOk result (λ run. (script : ScriptData) (told left : Option (List ℕ)) → IsUnderWay script told left self.entry → IsRound script run) }
        ensures clock { IfOk result (λ run. (script : ScriptData) (told left : Option (List ℕ)) → IsUnderWay script told left self.entry → AreHeard told left script.clients run.clients) }
        ensures end { OnOk result (self.entry.over ≡ true) }
        ensures going { OnErr result (self.entry.over ≡ false) }
        ensures back { IfErr result (λ run. run ≡ self.entry) }
    {
        let SerialRun { run, place, parts } = self;
        match parts {
            Some(parts) => Ok(run.record_with(parts)),
            None => Err(SerialRun {
                run,
                place,
                parts: None,
            }),
        }
    }
}

/// Goes on until every client and every publisher has made all its steps, and gives the parts of the record. The loop ends
/// after at most 2^64 - 1 turns, which no run reaches: that end answers want of memory too. Every other such answer is of
/// an allocation that failed.
fn play<C: Clock>(run: &mut Run, place: &mut Place, clock: &mut C) -> Result<Parts, OutOfMemory>
    ensures on { GoesHearing (C.left clock.old) (C.left clock.new) place.old run.old place.new run.new }
    ensures end { IfOk result (IsEnd run.new place.new) }
{
    for _ in 0..u64::MAX {
        if is_played(run, *place) {
            return run.parts();
        }
        *place = next_place(run, *place, clock)?;
    }
    Err(OutOfMemory)
}

/// Whether the run is between two rounds, and every client and every publisher has made all its steps.
fn is_played(run: &Run, place: Place) -> bool
    ensures rounds { result ≡ true → place ≡ places.Rounds }
    ensures played { result ≡ true → IsPlayed run.now }
{
    match place {
        Place::Rounds => run.is_played(),
        _ => false,
    }
}
