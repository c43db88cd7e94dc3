ghost use Rattle.std.specs.Prelude.{◌≡◌, [], ◌∷◌, ◌++◌, IfOk};
ghost use Rattle.mama_log_read.specs.declared.section.Section.TheVariants as kind;
ghost use Rattle.mama_log_read.specs.Part.{nothing};
ghost use Rattle.mama_log_read.specs.Reading.{IsPartRead};

use crate::calls::read_calls;
use crate::entries::{
    read_bridge_entries, read_group_notes, read_moments, read_publisher_entries,
    read_queue_entries, read_timers_entries, read_watch_notes,
};
use crate::images::read_images;
use crate::section::Section;
use mama_event::{
    BridgeNote, CallNote, GroupNote, ImageHead, ObjectId, PublisherEntry, QueueNote, SubId,
    TimersNote, WatchNote,
};
use mama_log_line::Names;
use mama_memory::OutOfMemory;
use mama_msg::Msg;
use mama_record::RunRecord;
use std::alloc::Global;
use std::marker::Model;

/// A record of a run as far as its log was read.
#[derive(Drop)]
pub struct Built {
    clients: Vec<Vec<u64>>,
    publishers: Vec<Vec<PublisherEntry>>,
    bridge: Vec<(u32, BridgeNote)>,
    timers: Vec<(u32, TimersNote)>,
    queues: Vec<Vec<(u32, QueueNote)>>,
    calls: Vec<(ObjectId, Vec<CallNote>)>,
    images: Vec<(SubId, ImageHead, Msg)>,
    groups: Vec<(u32, Vec<GroupNote>)>,
    watches: Vec<(u32, Vec<WatchNote>)>,
}

impl Model for Built {
    ghost use Rattle.mama_record.specs.RunData.{RunData};

    ghost Value = { RunData };

    ghost use Rattle.mama_record.specs.RunView.{moments_of, entries_of, events_of, calls_of, images_of, groups_of, watches_of};

    ghost view = { λ b. record {
      clients = moments_of b.clients.items;
      publishers = entries_of b.publishers.items;
      bridge = b.bridge.items;
      timers = b.timers.items;
      queues = events_of b.queues.items;
      calls = calls_of b.calls.items;
      images = images_of b.images.items;
      groups = groups_of b.groups.items;
      watches = watches_of b.watches.items;
    } };
}

impl Built {
    /// A record of which nothing was read yet.
    pub fn new(alloc: Global) -> Built
        ensures { result ≡ nothing }
    {
        Built {
            clients: Vec::new(alloc),
            publishers: Vec::new(alloc),
            bridge: Vec::new(alloc),
            timers: Vec::new(alloc),
            queues: Vec::new(alloc),
            calls: Vec::new(alloc),
            images: Vec::new(alloc),
            groups: Vec::new(alloc),
            watches: Vec::new(alloc),
        }
    }

    /// The record, where all was read.
    pub fn finish(self) -> RunRecord
        ensures { result ≡ self }
    {
        let Built {
            clients,
            publishers,
            bridge,
            timers,
            queues,
            calls,
            images,
            groups,
            watches,
        } = self;
        RunRecord::new(
            clients, publishers, bridge, timers, queues, calls, images, groups, watches,
        )
    }

    fn read_client<'a>(
        &mut self,
        alloc: Global,
        names: &Names,
        objects: &[ObjectId],
        number: u64,
        text: &'a [u8],
    ) -> Result<&'a [u8], OutOfMemory>
        ensures { IfOk result (λ rest. IsPartRead names.now objects.now (kind.Client number) text.now self.old self.new rest.now) }
    {
        let (moments, rest) = read_moments(alloc, text)?;
        self.clients.push(moments)?;
        Ok(rest)
    }

    fn read_publisher<'a>(
        &mut self,
        alloc: Global,
        names: &Names,
        objects: &[ObjectId],
        number: u64,
        text: &'a [u8],
    ) -> Result<&'a [u8], OutOfMemory>
        ensures { IfOk result (λ rest. IsPartRead names.now objects.now (kind.Publisher number) text.now self.old self.new rest.now) }
    {
        let (entries, rest) = read_publisher_entries(alloc, names, text)?;
        self.publishers.push(entries)?;
        Ok(rest)
    }

    fn read_bridge<'a>(
        &mut self,
        alloc: Global,
        names: &Names,
        objects: &[ObjectId],
        text: &'a [u8],
    ) -> Result<&'a [u8], OutOfMemory>
        ensures { IfOk result (λ rest. IsPartRead names.now objects.now kind.Bridge text.now self.old self.new rest.now) }
    {
        let (entries, rest) = read_bridge_entries(alloc, names, text)?;
        self.bridge = entries;
        Ok(rest)
    }

    fn read_timers<'a>(
        &mut self,
        alloc: Global,
        names: &Names,
        objects: &[ObjectId],
        text: &'a [u8],
    ) -> Result<&'a [u8], OutOfMemory>
        ensures { IfOk result (λ rest. IsPartRead names.now objects.now kind.Timers text.now self.old self.new rest.now) }
    {
        let (entries, rest) = read_timers_entries(alloc, names, text)?;
        self.timers = entries;
        Ok(rest)
    }

    fn read_queue<'a>(
        &mut self,
        alloc: Global,
        names: &Names,
        objects: &[ObjectId],
        number: u64,
        text: &'a [u8],
    ) -> Result<&'a [u8], OutOfMemory>
        ensures { IfOk result (λ rest. IsPartRead names.now objects.now (kind.Queue number) text.now self.old self.new rest.now) }
    {
        let (entries, rest) = read_queue_entries(alloc, names, text)?;
        self.queues.push(entries)?;
        Ok(rest)
    }

    fn read_object<'a>(
        &mut self,
        alloc: Global,
        names: &Names,
        objects: &[ObjectId],
        object: ObjectId,
        text: &'a [u8],
    ) -> Result<&'a [u8], OutOfMemory>
        ensures { IfOk result (λ rest. IsPartRead names.now objects.now (kind.Object object) text.now self.old self.new rest.now) }
    {
        let (calls, rest) = read_calls(alloc, names, object, text)?;
        self.calls.push((object, calls))?;
        Ok(rest)
    }

    fn read_group<'a>(
        &mut self,
        alloc: Global,
        names: &Names,
        objects: &[ObjectId],
        number: u32,
        text: &'a [u8],
    ) -> Result<&'a [u8], OutOfMemory>
        ensures { IfOk result (λ rest. IsPartRead names.now objects.now (kind.Group number) text.now self.old self.new rest.now) }
    {
        let (notes, rest) = read_group_notes(alloc, names, text)?;
        self.groups.push((number, notes))?;
        Ok(rest)
    }

    fn read_watch<'a>(
        &mut self,
        alloc: Global,
        names: &Names,
        objects: &[ObjectId],
        number: u32,
        text: &'a [u8],
    ) -> Result<&'a [u8], OutOfMemory>
        ensures { IfOk result (λ rest. IsPartRead names.now objects.now (kind.Watch number) text.now self.old self.new rest.now) }
    {
        let (notes, rest) = read_watch_notes(alloc, text)?;
        self.watches.push((number, notes))?;
        Ok(rest)
    }

    fn read_images<'a>(
        &mut self,
        alloc: Global,
        names: &Names,
        objects: &[ObjectId],
        text: &'a [u8],
    ) -> Result<&'a [u8], OutOfMemory>
        ensures { IfOk result (λ rest. IsPartRead names.now objects.now kind.Images text.now self.old self.new rest.now) }
    {
        let (images, rest) = read_images(alloc, names, objects, text)?;
        self.images = images;
        Ok(rest)
    }

    /// Reads the entries of a section, as many as stand at the head of a text, and gives what stands behind them.
    pub fn read<'a>(
        &mut self,
        alloc: Global,
        names: &Names,
        objects: &[ObjectId],
        section: Section,
        text: &'a [u8],
    ) -> Result<&'a [u8], OutOfMemory>
        ensures { IfOk result (λ rest. IsPartRead names.now objects.now section text.now self.old self.new rest.now) }
    {
        match section {
            Section::Title(_) => Ok(text),
            Section::Strategy(_) => Ok(text),
            Section::Client(number) => self.read_client(alloc, names, objects, number, text),
            Section::Publisher(number) => self.read_publisher(alloc, names, objects, number, text),
            Section::Bridge => self.read_bridge(alloc, names, objects, text),
            Section::Timers => self.read_timers(alloc, names, objects, text),
            Section::Queue(number) => self.read_queue(alloc, names, objects, number, text),
            Section::Object(object) => self.read_object(alloc, names, objects, object, text),
            Section::Group(number) => self.read_group(alloc, names, objects, number, text),
            Section::Watch(number) => self.read_watch(alloc, names, objects, number, text),
            Section::Images => self.read_images(alloc, names, objects, text),
            Section::End => Ok(text),
        }
    }
}
