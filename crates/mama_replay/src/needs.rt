ghost use Rattle.std.specs.Prelude.{◌≡◌, ◌+◌, ◌<◌, ◌^◌, [], ◌++◌, map, suc, slice_index_or, if◌then◌else◌, IfOk, OnOk};
ghost use Rattle.mama_replay.specs.Followed as followed;
ghost use Rattle.mama_replay.specs.Needs as steps;
ghost use Rattle.mama_replay.specs.Needs.{step_numbers, all_numbers, renumbered, line_needs, client_needs, step_needs};

use mama_check_order::Need;
use mama_memory::OutOfMemory;
use mama_script::{ClientLine, ClientLines};
use std::alloc::Global;

/// Whether a line only waits. It is no step.
fn is_pause(line: &ClientLine) -> bool
    ensures { result ≡ followed.is_pause line.now }
{
    match line {
        ClientLine::Pause(_) => true,
        ClientLine::Sub { .. }
        | ClientLine::Timer { .. }
        | ClientLine::Inbox { .. }
        | ClientLine::Order(_)
        | ClientLine::Now(_)
        | ClientLine::NowClock => false,
    }
}

/// What all steps need, where needs has what all entries need, and a line of a client that only waits is no step.
pub(crate) fn needs_of_steps(
    alloc: Global,
    clients: &[ClientLines],
    needs: &[Vec<Option<Need>>],
) -> Result<Vec<Vec<Option<Need>>>, OutOfMemory>
    ensures { IfOk result (λ all. map (λ actor. actor.items) all.items ≡ step_needs clients.now (map (λ actor. actor.items) needs.now)) }
{
    let numbers = numbers_of_all(alloc, clients)?;
    let mut all = Vec::new(alloc);
    for (actor, own) in needs.iter().enumerate() {
        all.push(needs_at(alloc, clients, &numbers, actor, own.as_slice())?)?;
    }
    Ok(all)
}

/// What the steps of an actor need, by its number and what its entries need.
fn needs_at(
    alloc: Global,
    clients: &[ClientLines],
    numbers: &[Vec<usize>],
    actor: usize,
    own: &[Option<Need>],
) -> Result<Vec<Option<Need>>, OutOfMemory>
    requires { map (λ client. client.items) numbers.now ≡ all_numbers clients.now }
    ensures { IfOk result (λ needs. needs.items ≡ steps.needs_at clients.now actor own.now) }
{
    if actor < clients.len() {
        needs_of_client(alloc, &clients[actor])
    } else {
        with_numbers(alloc, numbers, own)
    }
}

/// What the steps of a client need, which is nothing: its lines that are steps, and that it is done.
fn needs_of_client(alloc: Global, lines: &ClientLines) -> Result<Vec<Option<Need>>, OutOfMemory>
    ensures { IfOk result (λ needs. needs.items ≡ client_needs lines.now) }
{
    needs_of_lines(alloc, lines.as_slice())
}

fn needs_of_lines(alloc: Global, lines: &[ClientLine]) -> Result<Vec<Option<Need>>, OutOfMemory>
    ensures { IfOk result (λ needs. needs.items ≡ client_needs lines.now) }
{
    let mut needs = Vec::new(alloc);
    for line in lines {
        add_line(&mut needs, line)?;
    }
    needs.push(None)?;
    Ok(needs)
}

/// Adds what a line of a client needs, if it is a step.
fn add_line(needs: &mut Vec<Option<Need>>, line: &ClientLine) -> Result<(), OutOfMemory>
    ensures { OnOk result (needs.new.items ≡ needs.old.items ++ line_needs line.now) }
{
    if is_pause(line) {
        return Ok(());
    }
    needs.push(None)?;
    Ok(())
}

/// The number of the step at each line of each client, and at that it is done.
fn numbers_of_all(alloc: Global, clients: &[ClientLines]) -> Result<Vec<Vec<usize>>, OutOfMemory>
    ensures { IfOk result (λ numbers. map (λ client. client.items) numbers.items ≡ all_numbers clients.now) }
{
    let mut numbers = Vec::new(alloc);
    for lines in clients {
        numbers.push(numbers_of(alloc, lines.as_slice())?)?;
    }
    Ok(numbers)
}

/// The same of one client: how many steps come before each line.
fn numbers_of(alloc: Global, lines: &[ClientLine]) -> Result<Vec<usize>, OutOfMemory>
    ensures { IfOk result (λ numbers. numbers.items ≡ step_numbers lines.now) }
{
    let mut numbers = Vec::new(alloc);
    let mut number: usize = 0;
    for line in lines {
        numbers.push(number)?;
        number = after_line(number, line);
    }
    numbers.push(number)?;
    Ok(numbers)
}

/// How many steps come before the next line.
fn after_line(number: usize, line: &ClientLine) -> usize
    requires { number + 1 < 2 ^ 64 }
    ensures { result ≡ (if followed.is_pause line.now then number else suc number) }
{
    if is_pause(line) { number } else { number + 1 }
}

/// What the entries of an actor need, by the numbers of the steps.
fn with_numbers(
    alloc: Global,
    numbers: &[Vec<usize>],
    needs: &[Option<Need>],
) -> Result<Vec<Option<Need>>, OutOfMemory>
    ensures { IfOk result (λ all. all.items ≡ map (renumbered (map (λ client. client.items) numbers.now)) needs.now) }
{
    let mut all = Vec::with_capacity(alloc, needs.len())?;
    for need in needs {
        all.push(with_number(numbers, *need))?;
    }
    Ok(all)
}

/// What an entry needs, by the number of the step.
fn with_number(numbers: &[Vec<usize>], need: Option<Need>) -> Option<Need>
    ensures { result ≡ renumbered (map (λ client. client.items) numbers.now) need }
{
    match need {
        None => None,
        Some(need) => Some(Need {
            actor: need.actor,
            entry: number_of(numbers, need),
        }),
    }
}

/// The number of a step that is needed. Only clients do more lines than they make steps.
fn number_of(numbers: &[Vec<usize>], need: Need) -> usize
    ensures { result ≡ slice_index_or (slice_index_or (map (λ client. client.items) numbers.now) need.actor []) need.entry need.entry }
{
    match numbers.get(need.actor) {
        None => need.entry,
        Some(own) => match own.get(need.entry) {
            None => need.entry,
            Some(number) => *number,
        },
    }
}
