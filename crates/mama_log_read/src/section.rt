ghost use Rattle.std.specs.Prelude.{◌≡◌, ◌++◌, ◌<◌, ◌^◌, map, length, OnOk, IfOk};
ghost use Rattle.std.specs.List.{All};
ghost use Rattle.mama_event.specs.Ports.{queues_of};
ghost use Rattle.mama_rules_legal.specs.Form.{objects_of};
ghost use Rattle.mama_log_read.specs.Section as log;
ghost use Rattle.mama_log_read.specs.declared.section.Section.TheVariants.{Client, Publisher, Queue, Object, Group, Watch, Strategy as StrategyOf};
ghost use Rattle.mama_edge.specs.Decimal.{decimal};

use mama_edge::print_u64;
use mama_event::{InboxId, ObjectId, Strategy, SubId, TimerId};
use mama_memory::OutOfMemory;
use mama_plans::plans_of;
use mama_script::Script;
use mama_words::{Version, print_object_id, print_strategy};
use std::alloc::Global;

/// A section of a log, by the line that begins it.
#[derive(Clone, Copy, Debug, PartialEq, Eq)]
pub enum Section {
    Title(Version),
    Strategy(Strategy),
    Client(u64),
    Publisher(u64),
    Bridge,
    Timers,
    Queue(u64),
    Object(ObjectId),
    Group(u32),
    Watch(u32),
    Images,
    End,
}

/// How many lines the line tells that begins a section.
#[derive(Clone, Copy, Debug, PartialEq, Eq)]
pub enum Told {
    Nothing,
    Lines(u64),
}

impl Section {
    /// Whether the line that begins the section tells how many lines are behind it.
    pub fn has_count(self, version: Version) -> bool
        ensures { result ≡ log.has_count version self }
    {
        match (version, self) {
            (Version::One, _) => false,
            (_, Section::Title(_)) => false,
            (_, Section::Strategy(_)) => false,
            (_, Section::End) => false,
            _ => true,
        }
    }
}

fn put_number(word: &[u8], number: u64, out: &mut Vec<u8>) -> Result<(), OutOfMemory>
    ensures { OnOk result (out.new.items ≡ out.old.items ++ (word.now ++ decimal number)) }
{
    out.extend_from_slice(word)?;
    print_u64(number, out)
}

fn put_object(object: ObjectId, out: &mut Vec<u8>) -> Result<(), OutOfMemory>
    ensures { OnOk result (out.new.items ≡ out.old.items ++ log.head_of (Object object)) }
{
    out.extend_from_slice(b"on ")?;
    print_object_id(object, out)
}

fn put_strategy(strategy: Strategy, out: &mut Vec<u8>) -> Result<(), OutOfMemory>
    ensures { OnOk result (out.new.items ≡ out.old.items ++ log.head_of (StrategyOf strategy)) }
{
    out.extend_from_slice(b"strategy ")?;
    print_strategy(strategy, out)
}

fn put_word(word: &[u8], out: &mut Vec<u8>) -> Result<(), OutOfMemory>
    ensures { OnOk result (out.new.items ≡ out.old.items ++ word.now) }
{
    Ok(out.extend_from_slice(word)?)
}

fn put_head(section: Section, out: &mut Vec<u8>) -> Result<(), OutOfMemory>
    ensures { OnOk result (out.new.items ≡ out.old.items ++ log.head_of section) }
{
    match section {
        Section::Title(Version::One) => put_word(b"mama log 1", out),
        Section::Title(Version::Two) => put_word(b"mama log 2", out),
        Section::Strategy(strategy) => put_strategy(strategy, out),
        Section::Client(number) => put_number(b"client ", number, out),
        Section::Publisher(number) => put_number(b"publisher ", number, out),
        Section::Bridge => put_word(b"bridge", out),
        Section::Timers => put_word(b"timers", out),
        Section::Queue(number) => put_number(b"queue ", number, out),
        Section::Object(object) => put_object(object, out),
        Section::Group(number) => put_number(b"group ", u64::from(number), out),
        Section::Watch(number) => put_number(b"watch ", u64::from(number), out),
        Section::Images => put_word(b"images", out),
        Section::End => put_word(b"end", out),
    }
}

/// The line that begins a section, without its line feed, and without the number of lines that version 2 tells in it.
pub fn head_line(alloc: Global, section: Section) -> Result<Vec<u8>, OutOfMemory>
    ensures { IfOk result (λ head. head.items ≡ log.head_of section) }
{
    let mut out = Vec::new(alloc);
    put_head(section, &mut out)?;
    Ok(out)
}

// The object, whose line is one line.
fn on_one_line(object: ObjectId) -> ObjectId
    ensures same { result ≡ object }
    ensures plain { log.HasPlainHead (Object object) }
{
    match object {
        ObjectId::Sub(id) => ObjectId::Sub(SubId {
            client: id.client,
            number: id.number,
        }),
        ObjectId::Timer(id) => ObjectId::Timer(TimerId {
            client: id.client,
            number: id.number,
        }),
        ObjectId::Inbox(id) => ObjectId::Inbox(InboxId {
            client: id.client,
            number: id.number,
        }),
    }
}

/// The objects of a script in the order of its log.
pub fn objects_in(alloc: Global, script: &Script) -> Result<Vec<ObjectId>, OutOfMemory>
    ensures named { IfOk result (λ objects. objects.items ≡ objects_of script.now) }
    ensures plain { IfOk result (λ objects. All (λ o. log.HasPlainHead (Object o)) objects.items) }
{
    let plans = plans_of(alloc, script)?;
    let mut objects = Vec::new(alloc);
    for planned in plans.objects() {
        objects.push(on_one_line(planned.object))?;
    }
    Ok(objects)
}

fn add_clients(sections: &mut Vec<Section>, count: usize) -> Result<(), OutOfMemory>
    ensures { OnOk result (sections.new.items ≡ sections.old.items ++ log.numbered_from Client 0 count) }
{
    for number in 0..count {
        sections.push(Section::Client(number as u64))?;
    }
    Ok(())
}

fn add_publishers(sections: &mut Vec<Section>, count: usize) -> Result<(), OutOfMemory>
    ensures { OnOk result (sections.new.items ≡ sections.old.items ++ log.numbered_from Publisher 0 count) }
{
    for number in 0..count {
        sections.push(Section::Publisher(number as u64))?;
    }
    Ok(())
}

fn add_queues(sections: &mut Vec<Section>, count: u32) -> Result<(), OutOfMemory>
    ensures { OnOk result (sections.new.items ≡ sections.old.items ++ log.numbered_from Queue 0 count) }
{
    for number in 0..count {
        sections.push(Section::Queue(number as u64))?;
    }
    Ok(())
}

fn add_objects(sections: &mut Vec<Section>, objects: &[ObjectId]) -> Result<(), OutOfMemory>
    ensures { OnOk result (sections.new.items ≡ sections.old.items ++ map Object objects.now) }
{
    for object in objects {
        sections.push(Section::Object(*object))?;
    }
    Ok(())
}

fn add_groups(sections: &mut Vec<Section>, count: usize) -> Result<(), OutOfMemory>
    requires { count < 2 ^ 32 }
    ensures { OnOk result (sections.new.items ≡ sections.old.items ++ log.numbered_from Group 0 count) }
{
    for number in 0..count {
        sections.push(Section::Group(number as u32))?;
    }
    Ok(())
}

fn add_watches(sections: &mut Vec<Section>, count: usize) -> Result<(), OutOfMemory>
    requires { count < 2 ^ 32 }
    ensures { OnOk result (sections.new.items ≡ sections.old.items ++ log.numbered_from Watch 0 count) }
{
    for number in 0..count {
        sections.push(Section::Watch(number as u32))?;
    }
    Ok(())
}

// The sections that tell the version and the strategy.
fn add_titles(
    sections: &mut Vec<Section>,
    version: Version,
    strategy: Strategy,
) -> Result<(), OutOfMemory>
    ensures { OnOk result (sections.new.items ≡ sections.old.items ++ log.titles version strategy) }
{
    sections.push(Section::Title(version))?;
    match version {
        Version::One => Ok(()),
        Version::Two => Ok(sections.push(Section::Strategy(strategy))?),
    }
}

fn list_sections(
    alloc: Global,
    version: Version,
    strategy: Strategy,
    clients: usize,
    publishers: usize,
    queues: u32,
    objects: &[ObjectId],
    groups: usize,
    watches: usize,
) -> Result<Vec<Section>, OutOfMemory>
    requires few_groups { groups < 2 ^ 32 }
    requires few_watches { watches < 2 ^ 32 }
    ensures { IfOk result (λ sections. sections.items ≡ log.sections_with version strategy clients publishers queues objects.now groups watches) }
{
    let mut sections = Vec::new(alloc);
    add_titles(&mut sections, version, strategy)?;
    add_clients(&mut sections, clients)?;
    add_publishers(&mut sections, publishers)?;
    sections.push(Section::Bridge)?;
    sections.push(Section::Timers)?;
    add_queues(&mut sections, queues)?;
    add_objects(&mut sections, objects)?;
    add_groups(&mut sections, groups)?;
    add_watches(&mut sections, watches)?;
    sections.push(Section::Images)?;
    sections.push(Section::End)?;
    Ok(sections)
}

/// The sections of a log of a script in a version, in order.
pub fn sections_in(
    alloc: Global,
    version: Version,
    script: &Script,
    objects: &[ObjectId],
) -> Result<Vec<Section>, OutOfMemory>
    ensures listed { IfOk result (λ sections. sections.items ≡ log.sections_with version script.now.shape.strategy (length script.now.clients) (length script.now.publishers) (queues_of script.now.shape) objects.now (length script.now.groups) (length script.now.watches)) }
    ensures plain { IfOk result (λ sections. All (λ o. log.HasPlainHead (Object o)) objects.now → All (λ s. log.HasPlainHead s) sections.items) }
{
    let queues = script.shape().bounds.queues;
    let strategy = script.shape().strategy;
    let clients = script.clients().len();
    let publishers = script.publishers().len();
    let groups = script.groups().len();
    let watches = script.watches().len();
    list_sections(
        alloc, version, strategy, clients, publishers, queues, objects, groups, watches,
    )
}
