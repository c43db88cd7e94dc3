ghost use Rattle.std.specs.Prelude.{◌≡◌};
ghost use Rattle.mama_words.specs.Named.{named_in};
ghost use Rattle.mama_script.specs.Head as words;
ghost use Rattle.mama_script.specs.HeadText.{head_text};
ghost use Rattle.mama_script.specs.Before.{opening};

use mama_words::Version;

/// The first word of a line.
#[derive(Clone, Copy, Debug, PartialEq, Eq)]
pub enum Head {
    Strategy,
    Queues,
    Topic,
    Publisher,
    Update,
    Recap,
    Pause,
    Client,
    Sub,
    Timer,
    Inbox,
    Fault,
    At,
    Stop,
    Disarm,
    Close,
    Ask,
    Now,
    Group,
    Watch,
}

/// Where a line stands, by the lines before it.
#[derive(Clone, Copy, Debug, PartialEq, Eq)]
pub enum Place {
    /// Behind the first line of version 2.
    Strategy,
    /// Behind the first line of version 1, or the strategy.
    Start,
    /// Behind the queues, or a topic.
    Topics,
    /// In a publisher's section.
    Publisher,
    /// In a client's section.
    Client,
    /// Behind a subscription or an inbox, or one of its faults.
    Linked,
    /// Behind a timer, or an order of any object's plan.
    Planned,
    /// Behind a group.
    Groups,
    /// Behind a watch.
    Watches,
}

impl Head {
    const ALL: [Head; 20] = [
        Head::Strategy,
        Head::Queues,
        Head::Topic,
        Head::Publisher,
        Head::Update,
        Head::Recap,
        Head::Pause,
        Head::Client,
        Head::Sub,
        Head::Timer,
        Head::Inbox,
        Head::Fault,
        Head::At,
        Head::Stop,
        Head::Disarm,
        Head::Close,
        Head::Ask,
        Head::Now,
        Head::Group,
        Head::Watch,
    ];

    // The word.
    fn text(self) -> &'static [u8]
        ensures { result.now ≡ head_text self }
    {
        match self {
            Head::Strategy => b"strategy",
            Head::Queues => b"queues",
            Head::Topic => b"topic",
            Head::Publisher => b"publisher",
            Head::Update => b"update",
            Head::Recap => b"recap",
            Head::Pause => b"pause",
            Head::Client => b"client",
            Head::Sub => b"sub",
            Head::Timer => b"timer",
            Head::Inbox => b"inbox",
            Head::Fault => b"fault",
            Head::At => b"at",
            Head::Stop => b"stop",
            Head::Disarm => b"disarm",
            Head::Close => b"close",
            Head::Ask => b"ask",
            Head::Now => b"now",
            Head::Group => b"group",
            Head::Watch => b"watch",
        }
    }
}

// The first of these heads whose word it is.
#[tactic(auto, using(mama_words::proofs::Named::named_more))]
fn named(word: &[u8], heads: &[Head]) -> Option<Head>
    ensures { result ≡ named_in head_text word.now heads.now }
{
    for head in heads {
        if word == head.text() {
            return Some(*head);
        }
    }
    None
}

/// What a first word begins.
#[tactic(auto, using(crate::proofs::Heads::head_named))]
pub fn read_head(word: &[u8]) -> Option<Head>
    ensures { result ≡ words.head_in word.now }
{
    named(word, &Head::ALL)
}

fn is_strategy(head: Head) -> bool
    ensures { result ≡ words.is_strategy head }
{
    match head {
        Head::Strategy => true,
        _ => false,
    }
}

fn is_opening(head: Head) -> bool
    ensures { result ≡ words.is_opening head }
{
    match head {
        Head::Queues => true,
        _ => false,
    }
}

fn follows_topic(head: Head) -> bool
    ensures { result ≡ words.follows_topic head }
{
    match head {
        Head::Topic | Head::Publisher | Head::Client => true,
        _ => false,
    }
}

fn follows_publisher(head: Head) -> bool
    ensures { result ≡ words.follows_publisher head }
{
    match head {
        Head::Update | Head::Recap | Head::Pause | Head::Publisher | Head::Client => true,
        _ => false,
    }
}

fn follows_client(head: Head) -> bool
    ensures { result ≡ words.follows_client head }
{
    match head {
        Head::Sub | Head::Timer | Head::Inbox | Head::Stop | Head::Disarm | Head::Close => true,
        Head::Ask | Head::Now | Head::Pause | Head::Client | Head::Group | Head::Watch => true,
        _ => false,
    }
}

fn follows_plan(head: Head) -> bool
    ensures { result ≡ words.follows_plan head }
{
    match head {
        Head::At => true,
        _ => follows_client(head),
    }
}

fn follows_link(head: Head) -> bool
    ensures { result ≡ words.follows_link head }
{
    match head {
        Head::Fault => true,
        _ => follows_plan(head),
    }
}

fn follows_group(head: Head) -> bool
    ensures { result ≡ words.follows_group head }
{
    match head {
        Head::Group | Head::Watch => true,
        _ => false,
    }
}

fn follows_watch(head: Head) -> bool
    ensures { result ≡ words.follows_watch head }
{
    match head {
        Head::Watch => true,
        _ => false,
    }
}

impl Head {
    /// Whether lines of this version begin so.
    pub fn is_known(self, version: Version) -> bool
        ensures { result ≡ words.knows version self }
    {
        match version {
            Version::One => !follows_group(self),
            Version::Two => true,
        }
    }
}

impl Place {
    /// Where the line behind the first stands.
    pub fn opening(version: Version) -> Place
        ensures { result ≡ opening version }
    {
        match version {
            Version::One => Place::Start,
            Version::Two => Place::Strategy,
        }
    }

    /// Whether a line that begins so may stand here.
    pub fn allows(self, head: Head) -> bool
        ensures { result ≡ words.allows self head }
    {
        match self {
            Place::Strategy => is_strategy(head),
            Place::Start => is_opening(head),
            Place::Topics => follows_topic(head),
            Place::Publisher => follows_publisher(head),
            Place::Client => follows_client(head),
            Place::Linked => follows_link(head),
            Place::Planned => follows_plan(head),
            Place::Groups => follows_group(head),
            Place::Watches => follows_watch(head),
        }
    }

    /// Whether a script may end here.
    pub fn may_end(self) -> bool
        ensures { result ≡ words.may_end self }
    {
        match self {
            Place::Strategy | Place::Start | Place::Topics | Place::Publisher => false,
            Place::Client | Place::Linked | Place::Planned => true,
            Place::Groups | Place::Watches => true,
        }
    }
}
