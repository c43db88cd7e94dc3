ghost use Rattle.std.specs.Prelude.{◌≡◌};
ghost use Rattle.mama_words.specs.Named.{named_in};
ghost use Rattle.mama_log_line.specs.Head.{head_text, head_in};

/// The word that a line of a log begins with, or an entry behind its port.
#[derive(Clone, Copy, Debug, PartialEq, Eq)]
pub enum Head {
    Send,
    Done,
    Want,
    Ask,
    Settle,
    Fin,
    Join,
    Leave,
    Open,
    Close,
    Publish,
    Image,
    Reply,
    Recap,
    Settled,
    Bye,
    Arm,
    Disarm,
    Now,
    Create,
    Data,
    Bad,
    BadReply,
    Tick,
    Gone,
    Msg,
    Gap,
    Quality,
    Request,
    Late,
    Error,
    Destroy,
    Order,
    Clock,
    State,
    Retry,
    Timeout,
}

impl Head {
    // Those come first that most lines of a log begin with.
    const ALL: [Head; 37] = [
        Head::Data,
        Head::Msg,
        Head::Publish,
        Head::Send,
        Head::Tick,
        Head::Order,
        Head::Done,
        Head::Want,
        Head::Ask,
        Head::Settle,
        Head::Fin,
        Head::Join,
        Head::Leave,
        Head::Open,
        Head::Close,
        Head::Image,
        Head::Reply,
        Head::Recap,
        Head::Settled,
        Head::Bye,
        Head::Arm,
        Head::Disarm,
        Head::Now,
        Head::Create,
        Head::Bad,
        Head::BadReply,
        Head::Gone,
        Head::Gap,
        Head::Quality,
        Head::Request,
        Head::Late,
        Head::Error,
        Head::Destroy,
        Head::Clock,
        Head::State,
        Head::Retry,
        Head::Timeout,
    ];

    // The word.
    fn text(self) -> &'static [u8]
        ensures { result.now ≡ head_text self }
    {
        match self {
            Head::Send => b"send",
            Head::Done => b"done",
            Head::Want => b"want",
            Head::Ask => b"ask",
            Head::Settle => b"settle",
            Head::Fin => b"fin",
            Head::Join => b"join",
            Head::Leave => b"leave",
            Head::Open => b"open",
            Head::Close => b"close",
            Head::Publish => b"publish",
            Head::Image => b"image",
            Head::Reply => b"reply",
            Head::Recap => b"recap",
            Head::Settled => b"settled",
            Head::Bye => b"bye",
            Head::Arm => b"arm",
            Head::Disarm => b"disarm",
            Head::Now => b"now",
            Head::Create => b"create",
            Head::Data => b"data",
            Head::Bad => b"bad",
            Head::BadReply => b"badreply",
            Head::Tick => b"tick",
            Head::Gone => b"gone",
            Head::Msg => b"msg",
            Head::Gap => b"gap",
            Head::Quality => b"quality",
            Head::Request => b"request",
            Head::Late => b"late",
            Head::Error => b"error",
            Head::Destroy => b"destroy",
            Head::Order => b"order",
            Head::Clock => b"clock",
            Head::State => b"state",
            Head::Retry => b"retry",
            Head::Timeout => b"timeout",
        }
    }
}

// The first of these heads whose word it is.
#[tactic(auto, using(mama_words::proofs::Named::named_more))]
fn named(word: &[u8], heads: &[Head]) -> Option<Head>
    ensures { result ≡ named_in head_text word.now heads.now }
{
    for head in heads {
        if word == head.text() {
            return Some(*head);
        }
    }
    None
}

/// What a word begins.
#[tactic(auto, unfolding(crate::specs::Head::head_in))]
pub fn read_head(word: &[u8]) -> Option<Head>
    ensures { result ≡ head_in word.now }
{
    named(word, &Head::ALL)
}
