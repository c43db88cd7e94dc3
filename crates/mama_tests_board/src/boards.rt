//! A board on one thread, and one that is read in another thread while its writer goes on.
ghost use Rattle.std.specs.Prelude.{◌≡◌, false, IfOk, OnOk};

use mama_board::{Board, ImageReader, MOST_PLACES, Told, open_board};
use mama_event::{ImageHead, Quality, SubId};
use mama_memory::OutOfMemory;
use mama_msg::{Field, Msg, Name, Value};
use std::alloc::Global;
use std::sync::Wait;
use std::sync::atomic::{AtomicU64, Ordering};
use std::test::Fail;
use std::thread;
use std::thread::Threads;

const SUB: SubId = SubId {
    client: 0,
    number: 0,
};

const OTHER: SubId = SubId {
    client: 0,
    number: 1,
};

// After so many turns each loop of a thread ends.
const MOST_TURNS: u64 = 50_000_000;

// So many sets of which each `Told` is kept are the most that a board takes, beside its reader.
const MOST_KEPT: u32 = 31;

// A body with one number.
fn body_of(alloc: Global, number: u32) -> Result<Msg, OutOfMemory> {
    let mut body = Msg::new(alloc);
    let Some(field) = Field::new(1, Name::default(), Value::U32(number)) else {
        return Ok(body);
    };
    match body.add(field) {
        Ok(()) => Ok(body),
        Err(_) => Err(OutOfMemory),
    }
}

// Sets an image with this last update, which its body has too.
fn set_last<R: Wait + Copy + Drop>(
    rt: R,
    alloc: Global,
    board: &mut Board<R>,
    last: u32,
) -> Result<Told, OutOfMemory>
    requires { board.old.sealed ≡ false }
    ensures open { board.new.sealed ≡ false }
    ensures queue { board.new.queue ≡ board.old.queue }
    ensures told { IfOk result (λ told. told.queue ≡ board.old.queue) }
{
    let body = body_of(alloc, last)?;
    let head = ImageHead {
        sender: 1,
        last,
        quality: Quality::Ok,
    };
    board.set(rt, SUB, head, &body)
}

// Seals.
fn seal<R: Wait + Copy + Drop>(rt: R, board: &mut Board<R>) -> Result<Told, OutOfMemory>
    requires { board.old.sealed ≡ false }
    ensures { IfOk result (λ told. told.queue ≡ board.old.queue) }
{
    board.seal(rt)
}

// The last update in an image, or that there is no image.
fn last_of<R: Copy>(rt: R, reader: &mut ImageReader, sub: SubId) -> Result<Option<u32>, OutOfMemory>
    ensures { reader.new.queue ≡ reader.old.queue }
{
    match reader.fixed(rt, sub) {
        Ok(Some(head)) => Ok(Some(head.last)),
        Ok(None) => Ok(None),
        Err(OutOfMemory) => Err(OutOfMemory),
    }
}

// Learns, and then answers the last update in the image.
fn learn_and_look<R: Copy>(
    rt: R,
    reader: &mut ImageReader,
    told: Told,
) -> Result<Option<u32>, OutOfMemory>
    requires { told.queue ≡ reader.old.queue }
    ensures { reader.new.queue ≡ reader.old.queue }
{
    reader.learn(told);
    last_of(rt, reader, SUB)
}

// The number in the body of the image, or that there is no image or no number.
fn number_of<R: Copy>(rt: R, reader: &mut ImageReader) -> Result<Option<u32>, OutOfMemory>
    ensures { reader.new.queue ≡ reader.old.queue }
{
    match reader.read(rt, SUB) {
        Ok(Some((_, body))) => Ok(body.get_u32(&Name::default(), 1).ok()),
        Ok(None) => Ok(None),
        Err(OutOfMemory) => Err(OutOfMemory),
    }
}

#[test]
fn a_reader_answers_what_it_learnt(rt: HostRuntime) -> Result<(), Fail> {
    let (mut board, mut reader) = open_board(rt, rt.alloc(), 0)?;
    assert_eq!(rt; last_of(rt, &mut reader, SUB)?, None);
    let told = set_last(rt, rt.alloc(), &mut board, 0)?;
    assert_eq!(rt; learn_and_look(rt, &mut reader, told)?, Some(0));
    let told = set_last(rt, rt.alloc(), &mut board, 2)?;
    assert_eq!(rt; learn_and_look(rt, &mut reader, told)?, Some(2));
    assert_eq!(rt; number_of(rt, &mut reader)?, Some(2));
    assert_eq!(rt; last_of(rt, &mut reader, OTHER)?, None);
    let told = seal(rt, &mut board)?;
    assert_eq!(rt; learn_and_look(rt, &mut reader, told)?, Some(2));
    Ok(())
}

#[test]
fn a_reader_never_goes_back(rt: HostRuntime) -> Result<(), Fail> {
    let (mut board, mut reader) = open_board(rt, rt.alloc(), 0)?;
    let first = set_last(rt, rt.alloc(), &mut board, 1)?;
    // That a look finds a set of which the reader was not told, and no other, is so on one thread. No clause says it.
    assert_eq!(rt; last_of(rt, &mut reader, SUB)?, Some(1));
    let second = set_last(rt, rt.alloc(), &mut board, 2)?;
    assert_eq!(rt; learn_and_look(rt, &mut reader, second)?, Some(2));
    assert_eq!(rt; learn_and_look(rt, &mut reader, first)?, Some(2));
    Ok(())
}

#[test]
fn a_reader_goes_on_from_what_it_learnt(rt: HostRuntime) -> Result<(), Fail> {
    let (mut board, mut reader) = open_board(rt, rt.alloc(), 0)?;
    let first = set_last(rt, rt.alloc(), &mut board, 1)?;
    let second = set_last(rt, rt.alloc(), &mut board, 2)?;
    // The second set may be seen or not: both begin with what was told.
    let found = learn_and_look(rt, &mut reader, first)?;
    assert!(rt; found == Some(1) || found == Some(2));
    assert_eq!(rt; learn_and_look(rt, &mut reader, second)?, Some(2));
    Ok(())
}

// Sets images from the second on while places are free, and keeps what is told of each.
fn fill<R: Wait + Copy + Drop>(
    rt: R,
    alloc: Global,
    board: &mut Board<R>,
) -> Result<Vec<Told>, OutOfMemory>
    requires { board.old.sealed ≡ false }
    ensures { board.new.sealed ≡ false }
{
    let mut kept = Vec::new(alloc);
    for last in 1..MOST_KEPT {
        kept.push(set_last(rt, alloc, board, last)?)?;
    }
    Ok(kept)
}

// Whether a set is refused.
fn is_refused<R: Wait + Copy + Drop>(rt: R, alloc: Global, board: &mut Board<R>) -> bool
    requires { board.old.sealed ≡ false }
    ensures { board.new.sealed ≡ false }
{
    set_last(rt, alloc, board, 100).is_err()
}

// A `Told` takes a place until it is learnt or dropped.
#[test]
fn a_set_is_refused_while_all_places_are_taken(rt: HostRuntime) -> Result<(), Fail> {
    let (mut board, mut reader) = open_board(rt, rt.alloc(), 0)?;
    let first = set_last(rt, rt.alloc(), &mut board, 0)?;
    let kept = fill(rt, rt.alloc(), &mut board)?;
    assert_eq!(rt; kept.len() + 2, MOST_PLACES);
    assert_eq!(rt; last_of(rt, &mut reader, SUB)?, Some(30));
    assert!(rt; is_refused(rt, rt.alloc(), &mut board));
    assert_eq!(rt; learn_and_look(rt, &mut reader, first)?, Some(30));
    let _told = set_last(rt, rt.alloc(), &mut board, 31)?;
    assert_eq!(rt; last_of(rt, &mut reader, SUB)?, Some(31));
    assert!(rt; is_refused(rt, rt.alloc(), &mut board));
    assert_eq!(rt; last_of(rt, &mut reader, SUB)?, Some(31));
    drop(kept);
    let _last = set_last(rt, rt.alloc(), &mut board, 32)?;
    assert_eq!(rt; last_of(rt, &mut reader, SUB)?, Some(32));
    Ok(())
}

// No clause says it.
#[test]
fn each_look_is_refused_once_the_board_is_gone(rt: HostRuntime) -> Result<(), Fail> {
    let (mut board, mut reader) = open_board(rt, rt.alloc(), 0)?;
    let told = set_last(rt, rt.alloc(), &mut board, 1)?;
    assert_eq!(rt; learn_and_look(rt, &mut reader, told)?, Some(1));
    drop(board);
    assert_eq!(rt; last_of(rt, &mut reader, SUB), Err(OutOfMemory));
    assert_eq!(rt; number_of(rt, &mut reader), Err(OutOfMemory));
    Ok(())
}

// Waits until the number is at least this, for so many turns, and says whether it came to that.
fn await_number(seen: &AtomicU64, number: u64) -> bool {
    for _ in 0..MOST_TURNS {
        if seen.load(Ordering::SeqCst) >= number {
            return true;
        }
        thread::yield_now();
    }
    false
}

// Sets an image once an image was seen, and seals once this one was. It answers what the seal told, and whether both
// waits ended since the images were seen.
fn write_on<R: Wait + Copy + Drop>(
    rt: R,
    alloc: Global,
    mut board: Board<R>,
    seen: &AtomicU64,
) -> Result<(Board<R>, Told, bool), OutOfMemory>
    requires { board.sealed ≡ false }
    ensures { IfOk result (λ r. r.1.queue ≡ board.queue) }
{
    let first = await_number(seen, 1);
    let _ = set_last(rt, alloc, &mut board, 2)?;
    let second = await_number(seen, 2);
    let told = seal(rt, &mut board)?;
    Ok((board, told, first && second))
}

// Looks until the image has at least this last update, for so many turns. It answers the last update, 0 where there is no
// image yet, and whether it ever was less than before.
fn look_until<R: Copy>(
    rt: R,
    reader: &mut ImageReader,
    least: u32,
) -> Result<(u32, bool), OutOfMemory>
    ensures { reader.new.queue ≡ reader.old.queue }
{
    let mut found = 0u32;
    let mut back = false;
    for _ in 0..MOST_TURNS {
        let last = last_of(rt, reader, SUB)?.unwrap_or(0);
        back = back || last < found;
        found = last;
        if found >= least {
            break;
        }
        thread::yield_now();
    }
    Ok((found, back))
}

// Learns, and looks until it found two images, each of which it tells. It answers the last updates in them, and whether
// an image ever was older than the one before, or the first look showed none of what was learnt.
fn look_on<R: Copy>(
    rt: R,
    mut reader: ImageReader,
    told: Told,
    seen: &AtomicU64,
) -> Result<(ImageReader, u32, u32, bool), OutOfMemory>
    requires { told.queue ≡ reader.queue }
    ensures { IfOk result (λ r. r.0.queue ≡ reader.queue) }
{
    reader.learn(told);
    let learnt = last_of(rt, &mut reader, SUB)?.unwrap_or(0);
    let (first, back) = look_until(rt, &mut reader, 1)?;
    seen.store(1, Ordering::SeqCst);
    let (second, again) = look_until(rt, &mut reader, 2)?;
    seen.store(2, Ordering::SeqCst);
    let back = back || again || second < first || learnt < 1;
    Ok((reader, first, second, back))
}

// The writer in one thread, and the reader in another.
fn both<R: Threads + Wait + Copy + Drop + Sync + Send>(
    rt: R,
    alloc: Global,
    board: Board<R>,
    reader: ImageReader,
    told: Told,
    seen: &AtomicU64,
) -> (
    Result<(Board<R>, Told, bool), OutOfMemory>,
    Result<(ImageReader, u32, u32, bool), OutOfMemory>,
)
    requires open { board.sealed ≡ false }
    requires queue { told.queue ≡ reader.queue }
    ensures board { IfOk result.0 (λ r. r.1.queue ≡ board.queue) }
    ensures reader { IfOk result.1 (λ r. r.0.queue ≡ reader.queue) }
{
    thread::join(
        &rt,
        move || -> Result<(Board<R>, Told, bool), OutOfMemory>
            requires { board.sealed ≡ false }
            ensures { IfOk result (λ r. r.1.queue ≡ board.queue) }
        { write_on(rt, alloc, board, seen) },
        move || -> Result<(ImageReader, u32, u32, bool), OutOfMemory>
            requires { told.queue ≡ reader.queue }
            ensures { IfOk result (λ r. r.0.queue ≡ reader.queue) }
        { look_on(rt, reader, told, seen) },
    )
}

#[test]
fn a_reader_sees_images_while_the_writer_goes_on(rt: HostRuntime) -> Result<(), Fail> {
    let (mut board, reader) = open_board(rt, rt.alloc(), 0)?;
    let told = set_last(rt, rt.alloc(), &mut board, 1)?;
    let seen = AtomicU64::new(0);
    let (wrote, looked) = both(rt, rt.alloc(), board, reader, told, &seen);
    let (_board, told, were_seen) = wrote?;
    let (mut reader, first, second, back) = looked?;
    assert!(rt; were_seen);
    assert_eq!(rt; (first, second, back), (1, 2, false));
    assert_eq!(rt; learn_and_look(rt, &mut reader, told)?, Some(2));
    Ok(())
}
