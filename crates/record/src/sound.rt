// When a record is sound, clause by clause as the specification lists them, and when lent buffers are long enough for it.
ghost use Rattle.std.specs.Prelude.{◌≡◌, ◌&&◌, ◌||◌, leb, ◌+◌, ◌-◌, ◌*◌, ◌/◌, ◌≤◌, ◌<◌};
ghost use Rattle.layout.specs.Layout.{node_size, entry_size};
ghost use Rattle.record.specs.Sound.{shape_allowed, numbers_sound, level_sound, apart, levels_sound, starts_fall, last_end_sound, branch_sound, sound, admitted};
ghost use Rattle.record.specs.Firm.{Shaped};

use crate::{History, Refusal};
use layout::Shape;

// "Start and event times 0 to 2^63-1."
pub const LAST_TIME: u64 = 9223372036854775807;

// "K intervals per node, at least 1; C children, 2 to 50. Node size at most 65,536 bytes. N nodes, 1 to 65,536."
#[tactic(auto, unfolding(crate::specs::Sound::shape_allowed))]
pub fn shape_allowed(s: Shape) -> bool
    ensures { result ≡ shape_allowed s }
{
    let size = layout::node_size(s);
    (1 <= s.k) & (2 <= s.c) & (s.c <= 50) & (size <= 65536) & (1 <= s.n) & (s.n <= 65536)
}

// "nodes under N times size, table under the attribute count (not once finished)"
pub fn long_enough(s: Shape, attributes: u64, finished: bool, nodes: usize, table: usize) -> bool
    requires { (s.n ≤ 65536) × (node_size s ≤ 65536) }
    ensures { result ≡ leb (s.n * node_size s) nodes && (finished || leb attributes (table / entry_size)) }
{
    let size = layout::node_size(s);
    let entries = table / layout::ENTRY;
    ((s.n as usize) * size <= nodes) & (finished | (attributes <= entries as u64))
}

// Where the node at a place stands: "Node i stands at i times the node size."
pub fn stands_at(place: u32, s: Shape) -> usize
    requires { (place < s.n) × Shaped s }
    ensures { (result ≡ place * node_size s) × (result + node_size s ≤ s.n * node_size s) }
{
    let size = layout::node_size(s);
    place as usize * size
}

impl History {
    // "its shape is allowed, numbers are within limits, the used count 1 to N, start is at or below latest, S lies in that span"
    // `&&`, not `&`: each test is then one compare and branch, never taken in a sound record. Start against latest is not among them: S lies between the two.
    #[tactic(auto, unfolding(crate::specs::Sound::numbers_sound))]
    fn numbers_sound(&self) -> bool
        ensures { result ≡ numbers_sound self.now }
    {
        self.attributes <= 4096
            && self.latest <= LAST_TIME
            && self.start <= self.largest_end
            && self.largest_end <= self.latest
            && self.top <= 15
            && 1 <= self.used
            && self.used <= u64::from(self.shape.n)
    }

    // Levels are numbers and no type with an invariant, here and in moves.rt: a record may be damaged, and its `low` and `top` any.

    // "open counts within K and C, places below the used count, every open level above 0 has a child": `&&` as above
    #[tactic(auto, unfolding(crate::specs::Sound::level_sound))]
    fn level_sound(&self, level: u64) -> bool
        requires { level < 16 }
        ensures { result ≡ level_sound self.now.branch self.now.shape self.now.used level }
    {
        let i = level as usize;
        self.branch.intervals[i] <= u64::from(self.shape.k)
            && self.branch.places[i] < self.used
            && self.branch.children[i] <= u64::from(self.shape.c)
            && (level == 0 || 1 <= self.branch.children[i])
    }

    // "places differ": that of a level from those of the levels above it, up to top
    fn apart(&self, level: u64) -> bool
        requires { (level ≤ self.now.top) × (self.now.top < 16) }
        ensures { result ≡ apart self.now.branch level (self.now.top - level) }
    {
        let place = self.branch.places[level as usize];
        for above in level + 1..=self.top {
            if self.branch.places[above as usize] == place {
                return false;
            }
        }
        true
    }

    // the open levels
    fn levels_sound(&self) -> bool
        requires { (self.now.low ≤ self.now.top) × (self.now.top < 16) }
        ensures { result ≡ levels_sound self.now.branch self.now.shape self.now.used self.now.low self.now.top }
    {
        for level in self.low..=self.top {
            if !self.level_sound(level) {
                return false;
            }
            if !self.apart(level) {
                return false;
            }
        }
        true
    }

    // "starts not growing upwards": from level low up to top
    fn starts_fall(&self) -> bool
        requires { (self.now.low ≤ self.now.top) × (self.now.top < 16) }
        ensures { result ≡ starts_fall self.now.branch self.now.low self.now.top }
    {
        for level in self.low..self.top {
            let i = level as usize;
            if self.branch.starts[i] < self.branch.starts[i + 1] {
                return false;
            }
        }
        true
    }

    // "the last-child end of an open level without open child lies in that span": only the lowest open level has no open child
    #[tactic(auto, unfolding(crate::specs::Sound::last_end_sound))]
    fn last_end_sound(&self) -> bool
        requires { self.now.low < 16 }
        ensures { result ≡ last_end_sound self.now.branch self.now.low self.now.start self.now.latest }
    {
        let end = self.branch.last_ends[self.low as usize];
        (self.low == 0) | ((self.start <= end) & (end <= self.latest))
    }

    // "open levels run unbroken up to the root (none once finished) with starts not growing upwards and the root's equal to the history's"
    #[tactic(auto, unfolding(crate::specs::Sound::branch_sound))]
    fn branch_sound(&self) -> bool
        requires { self.now.top < 16 }
        ensures { result ≡ branch_sound self.now }
    {
        let top = self.top as usize;
        if self.finished {
            return (self.low == self.top + 1) & (self.branch.places[top] < self.used);
        }
        if self.top < self.low {
            return false;
        }
        if self.branch.starts[top] != self.start {
            return false;
        }
        self.last_end_sound() && self.starts_fall() && self.levels_sound()
    }

    #[tactic(auto, unfolding(crate::specs::Sound::sound))]
    pub fn is_sound(&self) -> bool
        ensures { result ≡ sound self.now }
    {
        shape_allowed(self.shape) && self.numbers_sound() && self.branch_sound()
    }

    // "3 record, 2": the head of every call.
    #[tactic(auto, unfolding(crate::specs::Sound::admitted, crate::specs::Sound::long_enough))]
    pub fn admit(&self, nodes: usize, table: usize) -> Result<(), Refusal>
        ensures { result ≡ admitted self.now nodes table }
    {
        if !self.is_sound() {
            return Err(Refusal::Damaged);
        }
        if !long_enough(self.shape, self.attributes, self.finished, nodes, table) {
            return Err(Refusal::Short);
        }
        Ok(())
    }
}
