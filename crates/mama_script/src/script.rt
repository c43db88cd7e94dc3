ghost use Rattle.std.specs.Prelude.{◌≡◌};
ghost use Rattle.mama_script.specs.Equality.{same_shape};

use crate::client::ClientLines;
use crate::publisher::PublisherPart;
use crate::tree::Parts;
use mama_event::{GroupRow, Shape, WatchRow};
use mama_msg::TextValue;
use mama_words::Version;
use std::marker::Model;

// Whether two shapes count the same.
fn same_shape(a: &Shape, b: &Shape) -> bool
    ensures { result ≡ same_shape a.now b.now }
{
    a.clients == b.clients
        && a.publisher_topics.as_slice() == b.publisher_topics.as_slice()
        && a.bounds == b.bounds
        && a.strategy == b.strategy
}

/// A script: how many actors there are, and what each does. It always is the value of a text that is accepted.
#[derive(Drop)]
pub struct Script {
    version: Version,
    shape: Shape,
    topics: Vec<TextValue>,
    publishers: Vec<PublisherPart>,
    clients: Vec<ClientLines>,
    groups: Vec<GroupRow>,
    watches: Vec<WatchRow>,
}

impl Model for Script {
    ghost use Rattle.mama_script.specs.Script.{ScriptData};

    ghost Value = { ScriptData };

    ghost use Rattle.mama_script.specs.Tree.{IsScript};

    ghost view = { λ s. record { version = s.version; shape = s.shape; topics = s.topics.items; publishers = s.publishers.items; clients = s.clients.items; groups = s.groups.items; watches = s.watches.items } };

    ghost invariant = { λ s. IsScript (record { version = s.version; shape = s.shape; topics = s.topics.items; publishers = s.publishers.items; clients = s.clients.items; groups = s.groups.items; watches = s.watches.items }) };
}

impl PartialEq for Script {
    ghost use Rattle.std.specs.Cmp.{partial_equiv_from_equiv};
    ghost use Rattle.mama_script.specs.Equality.{same_script};
    ghost use Rattle.mama_script.specs.EqualityLaws.{same_script_equivalence};

    ghost eq = { same_script };

    ghost laws = { partial_equiv_from_equiv same_script_equivalence };

    fn eq(&self, other: &Script) -> bool
        ensures { result ≡ same_script self.now other.now }
    {
        self.version == other.version
            && same_shape(&self.shape, &other.shape)
            && self.topics == other.topics
            && self.publishers == other.publishers
            && self.clients == other.clients
            && self.groups == other.groups
            && self.watches == other.watches
    }
}

impl Eq for Script {
    ghost use Rattle.mama_script.specs.EqualityLaws.{same_script_equivalence};

    ghost laws = { same_script_equivalence };
}

impl Script {
    ghost use Rattle.mama_script.specs.Taken.{script_of_parts};
    ghost use Rattle.mama_script.specs.Tree.{IsScript, in_two};
    ghost use Rattle.mama_script.specs.Within.{IsWithin};

    // The script of these parts, which an accepted text says.
    pub(crate) fn new(parts: Parts) -> Script
        requires { IsScript (script_of_parts parts) }
        ensures { result ≡ script_of_parts parts }
    {
        let Parts {
            version,
            shape,
            topics,
            publishers,
            clients,
            groups,
            watches,
        } = parts;
        Script {
            version,
            shape,
            topics,
            publishers,
            clients,
            groups,
            watches,
        }
    }

    /// How many actors of each kind there are, and the topic of each publisher. A script is one that a text spells: the
    /// topics, queues and objects that its lines name are there, and its counts are within the limits.
    pub fn shape(&self) -> &Shape
        ensures value { result.now ≡ self.now.shape }
        ensures script { IsScript self.now }
        ensures within { IsWithin self.now }
    {
        &self.shape
    }

    /// The version of its text. A script of version 1 has the first strategy.
    pub fn version(&self) -> Version
        ensures { result ≡ self.now.version }
    {
        self.version
    }

    /// The same script in version 2. A script of version 1 has the first strategy, which version 2 tells.
    pub fn into_two(self) -> Script
        ensures { result ≡ in_two self }
    {
        let Script {
            version: _,
            shape,
            topics,
            publishers,
            clients,
            groups,
            watches,
        } = self;
        Script {
            version: Version::Two,
            shape,
            topics,
            publishers,
            clients,
            groups,
            watches,
        }
    }

    /// The names of the topics, in order of the topics' numbers.
    pub fn topics(&self) -> &[TextValue]
        ensures { result.now ≡ self.now.topics }
    {
        self.topics.as_slice()
    }

    /// The publishers in order of their numbers.
    pub fn publishers(&self) -> &[PublisherPart]
        ensures { result.now ≡ self.now.publishers }
    {
        self.publishers.as_slice()
    }

    /// The lines of each client, in order of the clients' numbers.
    pub fn clients(&self) -> &[ClientLines]
        ensures { result.now ≡ self.now.clients }
    {
        self.clients.as_slice()
    }

    /// The groups in order of their numbers; a script of version 1 has none. Each has members, and no subscription is a member
    /// twice.
    pub fn groups(&self) -> &[GroupRow]
        ensures { result.now ≡ self.now.groups }
    {
        self.groups.as_slice()
    }

    /// The watches in order of their numbers; a script of version 1 has none. No subscription and no timer is in two.
    pub fn watches(&self) -> &[WatchRow]
        ensures { result.now ≡ self.now.watches }
    {
        self.watches.as_slice()
    }
}
