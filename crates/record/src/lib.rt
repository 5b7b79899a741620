// The record of a history: its numbers and its open branch; and what a call says.
#![tactic(auto)]

pub mod sound; // sound.rt: when a record is sound, and buffers long enough for it
pub mod moves; // moves.rt: the only ways in which a record changes

ghost use Rattle.std.specs.Prelude.{◌≡◌};
ghost use Rattle.record.specs.Refusals.{number_of};

use layout::Shape;

// "The open branch is kept in the record by value, one entry for each of the sixteen levels": as arrays of sixteen, the form that the specification names. Whoever keeps a history holds its record by value, and a call
// is lent it. A place and the counts are narrower in a node: here a caller may hand in any number, and soundness tests it.
#[derive(Clone, Copy, Debug, Default, PartialEq, Eq)]
pub struct Branch {
    pub places: [u64; 16],
    pub starts: [u64; 16],
    pub intervals: [u64; 16],
    pub children: [u64; 16],
    pub last_ends: [u64; 16],
}

// The levels from low to top are open and top is the root's; once finished, low is top + 1, and none is open. `finished` is a number of the definition, as it was: the root's place is read of the branch even then.
#[derive(Clone, Copy, Debug, Default, PartialEq, Eq)]
pub struct History {
    pub shape: Shape,
    pub start: u64,
    pub latest: u64,
    pub largest_end: u64,
    pub attributes: u64,
    pub used: u64,
    pub low: u64,
    pub top: u64,
    pub finished: bool,
    pub branch: Branch,
}

// "What a call says": a name for each number of the table but 0, which is `Ok`.
#[derive(Clone, Copy, Debug, PartialEq, Eq)]
pub enum Refusal {
    Numbers = 1,
    Short = 2,
    Damaged = 3,
    Finished = 4,
    Early = 5,
    Outside = 6,
    NoQuark = 7,
    TableFull = 8,
    Top = 9,
    Deep = 10,
    NoRoom = 11,
    NoTag = 12,
    WrongLength = 13,
    Cut = 14,
    NotOpen = 15,
    LongFeed = 16,
}

// The number of what a call said: 0 is no refusal, so it is a function of the `Result`.
#[tactic(auto, unfolding(crate::specs::Refusals::number_of))]
pub fn number(said: Result<(), Refusal>) -> u32
    ensures { result ≡ number_of said }
{
    match said {
        Ok(()) => 0,
        Err(why) => why as u32,
    }
}
