// The feed: "Records, little-endian: tag u8, payload length u16, payload." One plain function, on a feed and a place, reads a record.
#![tactic(auto)]

ghost use Rattle.std.specs.Prelude.{◌≡◌, ◌+◌, ◌-◌, ◌≤◌, ◌<◌, length, Err};
ghost use Rattle.std.specs.Iterator.{at_most};
ghost use Rattle.feed.specs.Feed.{longest, tag_number, length_allowed, quark_at, open_at, set_at, Payload, payload_at, head_at, reading, reading_at, Decodes, GoesOn};

use layout::Quark;
use record::Refusal;

// A record, with the numbers of its tag.
#[derive(Clone, Copy, Debug, PartialEq, Eq)]
pub enum Record {
    Open {
        start: u64,
        attributes: u32,
        k: u32,
        c: u32,
        n: u32,
    },
    Set {
        t: u64,
        quark: Quark,
        value: i64,
    },
    Remove {
        t: u64,
        quark: Quark,
    },
    Increment {
        t: u64,
        quark: Quark,
    },
    Add,
    Finish {
        t: u64,
    },
    Single {
        t: u64,
        quark: Quark,
    },
    Full {
        t: u64,
    },
}

// What stands at a place, a record or what refuses it, with the next place.
#[derive(Clone, Copy, Debug, PartialEq, Eq)]
pub struct Reading {
    pub what: Result<Record, Refusal>,
    pub next: usize,
}

// The first three bytes of a record: its tag, not judged yet, and its payload's length.
#[derive(Clone, Copy, Debug, PartialEq, Eq)]
struct Head {
    tag: u8,
    n: usize,
}

// A tag that is known.
#[derive(Clone, Copy, Debug, PartialEq, Eq)]
enum Tag {
    Open,
    Set,
    Remove,
    Increment,
    Add,
    Finish,
    Single,
    Full,
}

pub const LONGEST: usize = 65536;

// ---- a record's tag and its length

// "12: unknown tag"
impl TryFrom<u8> for Tag {
    type Error = Refusal;

    ghost try_from_gives = { Decodes };

    #[tactic(auto, unfolding(crate::specs::Feed::tag_known))]
    fn try_from(byte: u8) -> Result<Self, Refusal> {
        match byte {
            1 => Ok(Tag::Open),
            2 => Ok(Tag::Set),
            3 => Ok(Tag::Remove),
            4 => Ok(Tag::Increment),
            5 => Ok(Tag::Add),
            6 => Ok(Tag::Finish),
            7 => Ok(Tag::Single),
            8 => Ok(Tag::Full),
            _ => Err(Refusal::NoTag),
        }
    }
}

impl Tag {
    // "13: wrong length for the tag"
    #[tactic(auto, unfolding(crate::specs::Feed::length_allowed))]
    fn allows_length(self, n: usize) -> bool
        ensures { result ≡ length_allowed (tag_number self) n }
    {
        match self {
            Tag::Open | Tag::Set => n == 20,
            Tag::Remove | Tag::Increment | Tag::Single => n == 12,
            Tag::Finish | Tag::Full => n == 8,
            Tag::Add => n == 0,
        }
    }
}

// ---- a payload

fn quark_at(feed: &[u8], at: usize) -> Quark
    requires { at + 4 ≤ length feed.now }
    ensures { result ≡ quark_at feed.now at }
{
    Quark(words::get(feed, at, 4) as u32)
}

#[tactic(auto, unfolding(crate::specs::Feed::open_at))]
fn open_at(feed: &[u8], at: usize) -> Record
    requires { at + 20 ≤ length feed.now }
    ensures { result ≡ open_at feed.now at }
{
    Record::Open {
        start: words::get(feed, at, 8),
        attributes: words::get(feed, at + 8, 4) as u32,
        k: words::get(feed, at + 12, 2) as u32,
        c: words::get(feed, at + 14, 2) as u32,
        n: words::get(feed, at + 16, 4) as u32,
    }
}

#[tactic(auto, unfolding(crate::specs::Feed::set_at))]
fn set_at(feed: &[u8], at: usize) -> Record
    requires { at + 20 ≤ length feed.now }
    ensures { result ≡ set_at feed.now at }
{
    Record::Set {
        t: words::get(feed, at, 8),
        quark: quark_at(feed, at + 8),
        value: words::signed(words::get(feed, at + 12, 8)),
    }
}

// The payload that stands at a place, whole, of a length that its tag allows.
#[tactic(auto, unfolding(crate::specs::Feed::payload_at, crate::specs::Feed::length_allowed))]
fn payload(feed: &[u8], tag: Tag, at: usize) -> Record
    requires { Payload feed.now (tag_number tag) at }
    ensures { result ≡ payload_at feed.now (tag_number tag) at }
{
    match tag {
        Tag::Open => open_at(feed, at),
        Tag::Set => set_at(feed, at),
        Tag::Remove => Record::Remove {
            t: words::get(feed, at, 8),
            quark: quark_at(feed, at + 8),
        },
        Tag::Increment => Record::Increment {
            t: words::get(feed, at, 8),
            quark: quark_at(feed, at + 8),
        },
        Tag::Add => Record::Add,
        Tag::Finish => Record::Finish {
            t: words::get(feed, at, 8),
        },
        Tag::Single => Record::Single {
            t: words::get(feed, at, 8),
            quark: quark_at(feed, at + 8),
        },
        Tag::Full => Record::Full {
            t: words::get(feed, at, 8),
        },
    }
}

// ---- a record

// None, which is 14: fewer than three bytes are left, or the payload goes past the feed's end.
#[tactic(auto, unfolding(crate::specs::Feed::head_at, words::specs::Words::num))]
fn head_at(feed: &[u8], place: usize) -> Option<Head>
    requires { (place < length feed.now) × (length feed.now ≤ longest) }
    ensures { result ≡ head_at feed.now place }
{
    let left = feed.len() - place;
    if left < 3 {
        return None;
    }
    let n = words::get(feed, place + 1, 2) as usize;
    if left < 3 + n {
        return None;
    }
    let tag = feed[place];
    Some(Head { tag, n })
}

fn refused(why: Refusal, next: usize) -> Option<Reading>
    ensures { result ≡ reading (Err why) next }
{
    Some(Reading {
        what: Err(why),
        next,
    })
}

// What stands at a place of a feed. The order is 16, 14, 12, 13; a place at or past the end has no record left.
#[tactic(auto, unfolding(crate::specs::Feed::head_at, crate::specs::Feed::whole_at, crate::specs::Feed::tag_known, crate::specs::Feed::length_allowed, crate::specs::Feed::reading_at))]
pub fn record_at(feed: &[u8], place: usize) -> Option<Reading>
    ensures { result ≡ reading_at feed.now place }
{
    let end = feed.len();
    if end <= place {
        return None;
    }
    if LONGEST < end {
        return refused(Refusal::LongFeed, end);
    }
    let Some(Head { tag, n }) = head_at(feed, place) else {
        return refused(Refusal::Cut, end);
    };
    let at = place + 3;
    let next = at + n;
    // "A record with an unknown tag is answered 12 and passed over."
    let Ok(tag) = Tag::try_from(tag) else {
        return refused(Refusal::NoTag, next);
    };
    if !tag.allows_length(n) {
        return refused(Refusal::WrongLength, next);
    }
    Some(Reading {
        what: Ok(payload(feed, tag, at)),
        next,
    })
}

// ---- the reader

// "The reader holds the feed's bytes and its place; a plain function on feed and place does the reading for it."
#[derive(Clone, Copy, Debug, PartialEq, Eq)]
pub struct Feed<'a> {
    pub bytes: &'a [u8],
    pub place: usize,
}

impl<'a> Feed<'a> {
    // A reader at a feed's start.
    pub fn new(bytes: &'a [u8]) -> Self
        ensures { (result.bytes ≡ bytes.entry) × (result.place ≡ 0) }
    {
        Feed { bytes, place: 0 }
    }

    // The reader at another place of the same feed.
    pub fn moved(self, place: usize) -> Self
        ensures { (result.bytes ≡ self.entry.bytes) × (result.place ≡ place) }
    {
        Feed { place, ..self }
    }
}

// One record after the other, each as it was read or what refused it.
impl Iterator for Feed<'_> {
    type Item = Result<Record, Refusal>;

    ghost next_gives = { λ f r g. GoesOn f.bytes.now f.place r g.bytes.now g.place };

    ghost remaining = { λ f. at_most (length f.bytes.now - f.place) };

    #[tactic(auto, using(crate::proofs::Places::goes_ahead))]
    fn next(&mut self) -> Option<Result<Record, Refusal>> {
        let Reading { what, next } = record_at(self.bytes, self.place)?;
        self.place = next;
        Some(what)
    }
}

// The reader's way for a caller that has a plain slice and a number.
pub fn read_at(bytes: &[u8], place: usize) -> Option<Reading>
    ensures { result ≡ reading_at bytes.now place }
{
    let mut feed = Feed::new(bytes).moved(place);
    let what = feed.next()?;
    Some(Reading {
        what,
        next: feed.place,
    })
}
