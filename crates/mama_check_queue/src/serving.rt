ghost use Rattle.std.specs.Prelude.{◌≡◌, ℕ, suc, ◌<◌, length, map, IfOk, if◌then◌else◌};
ghost use Rattle.mama_rules_queue.specs.Queue.{is_fin};
ghost use Rattle.mama_record.specs.RunView.{events_of};
ghost use Rattle.mama_check_queue.specs.Recorded.{AreOf, journals_of};
ghost use Rattle.mama_check_queue.specs.Listed.{AreListed, AreAllListed};

use crate::lists::{Lists, called};
use crate::objects::Objects;
use crate::orders::OrderBook;
use crate::puts::{Puts, is_last};
use crate::replay::Replay;
use crate::served::ServedQueue;
use mama_event::{GroupRow, QueueNote, WatchRow};
use mama_memory::OutOfMemory;
use mama_plans::Plans;
use std::alloc::Global;

/// How many `Fin`s there were after this entry.
fn counted(fins: usize, note: &QueueNote) -> usize
    requires { fins < usize.MAX }
    ensures { (port : ℕ) → result ≡ (if is_fin (port, note.now) then suc fins else fins) }
{
    if is_last(note) { fins + 1 } else { fins }
}

/// Serves the journal of a queue again, where the orders of plans are in this book.
fn serve_by<'a>(
    alloc: Global,
    plans: &'a Plans,
    book: &OrderBook,
    groups: &'a [(u32, GroupRow)],
    watches: &'a [(u32, WatchRow)],
    journal: &'a [(u32, QueueNote)],
) -> Result<ServedQueue<'a>, OutOfMemory>
    requires book { book.now ≡ plans.now }
    requires listed { AreListed groups.now watches.now }
    ensures { IfOk result (λ served. served ≡ record { objects = plans.now; groups = groups.now; watches = watches.now; journal = journal.now }) }
{
    let mut replay = Replay {
        objects: Objects::new(alloc),
        puts: Puts::new(alloc),
    };
    let mut lists = Lists::new(alloc, groups, watches)?;
    let mut fins: usize = 0;
    for (entry, (_, note)) in journal.iter().enumerate() {
        let before = called(&replay.objects, note);
        replay.serve(alloc, book, entry, note)?;
        replay.puts.put_end(entry, note, fins)?;
        let wish = lists.follow(&replay.objects, note, before)?;
        replay.puts.put_wish(entry, wish)?;
        fins = counted(fins, note);
    }
    let (heard, noted) = lists.into_parts();
    Ok(ServedQueue {
        plans,
        journal,
        objects: replay.objects,
        puts: replay.puts,
        groups,
        watches,
        heard,
        noted,
    })
}

/// Serves the journals of all queues again, where listeners give the orders of their objects' plans, and the groups and the
/// watches of each queue stand with their numbers. The journals may be any lists of entries.
pub fn serve_all<'a>(
    alloc: Global,
    plans: &'a Plans,
    groups: &'a [Vec<(u32, GroupRow)>],
    watches: &'a [Vec<(u32, WatchRow)>],
    journals: &'a [Vec<(u32, QueueNote)>],
) -> Result<Vec<ServedQueue<'a>>, OutOfMemory>
    requires groups { length groups.now ≡ length journals.now }
    requires watches { length watches.now ≡ length journals.now }
    requires listed { AreAllListed (map (λ list. list.items) groups.now) (map (λ list. list.items) watches.now) }
    ensures journals { IfOk result (λ served. journals_of served.items ≡ events_of journals.now) }
    ensures objects { IfOk result (λ served. AreOf plans.now served.items) }
    ensures groups { IfOk result (λ served. map (λ s. s.groups) served.items ≡ map (λ list. list.items) groups.now) }
    ensures watches { IfOk result (λ served. map (λ s. s.watches) served.items ≡ map (λ list. list.items) watches.now) }
{
    let book = OrderBook::new(alloc, plans)?;
    let mut all = Vec::new(alloc);
    for queue in 0..journals.len() {
        let served = serve_by(
            alloc,
            plans,
            &book,
            &groups[queue],
            &watches[queue],
            &journals[queue],
        )?;
        all.push(served)?;
    }
    Ok(all)
}
