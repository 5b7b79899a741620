// The four ways in which record and node bytes change together, the header of an open level, and an interval whose header is left.
ghost use Rattle.std.specs.Prelude.{◌≡◌, cond, ◌+◌, ◌*◌, ◌≤◌, ◌<◌};
ghost use Rattle.layout.specs.Layout.{node_size};
ghost use Rattle.record.specs.Levels.{place_at, intervals_at, children_at};
ghost use Rattle.record.specs.Firm.{Shaped, Firm};
ghost use Rattle.build.specs.Moves.{held, parent_at, head_of, stands_at, put_head, put_new, Fitting, Standing, Room, close, raise, make, added, store};

use layout::{Child, Entry, Header, Seq};
use record::History;

// "end u64 (2^64-1 while open)"
pub const OPEN_END: u64 = u64::MAX;

// "parent u32 (2^32-1 for none)"
pub const NO_PARENT: u32 = u32::MAX;

#[tactic(auto, unfolding(crate::specs::Moves::parent_at))]
fn parent_of(h: &History, level: u64) -> Seq
    requires { Fitting h.now.branch h.now.top level }
    ensures { result ≡ parent_at h.now level }
{
    if level < h.top {
        return Seq(h.branch.places[level as usize + 1] as u32);
    }
    Seq(NO_PARENT)
}

// "What is written into open nodes comes from the record, not from node bytes." The state is the node's byte: 1 open, 2 closed.
#[tactic(auto, unfolding(crate::specs::Moves::head_of))]
fn head_of(h: &History, level: u64, end: u64, state: u8) -> Header
    requires { Fitting h.now.branch h.now.top level }
    ensures { result ≡ head_of h.now level end state }
{
    let parent = parent_of(h, level);
    let i = level as usize;
    Header {
        start: h.branch.starts[i],
        end,
        sequence: Seq(h.branch.places[i] as u32),
        parent,
        intervals: h.branch.intervals[i] as u16,
        children: h.branch.children[i] as u16,
        level: level as u8,
        state,
    }
}

#[tactic(auto, unfolding(crate::specs::Moves::stands_at))]
fn place_of(h: &History, level: u64) -> usize
    requires { (level < 16) × (place_at h.now.branch level < h.now.shape.n) × Shaped h.now.shape }
    ensures { (result ≡ stands_at h.now level) × (result + node_size h.now.shape ≤ h.now.shape.n * node_size h.now.shape) }
{
    record::sound::stands_at(h.branch.places[level as usize] as u32, h.shape)
}

// "A header that changes is written whole." It is promised of every end and every state.
#[tactic(auto, unfolding(crate::specs::Moves::put_head))]
pub fn put_head(nodes: &mut [u8], h: &History, level: u64, end: u64, state: u8)
    requires { Standing h.now level nodes.old }
    ensures { nodes.new ≡ put_head h.now level end state nodes.old }
{
    let at = place_of(h, level);
    layout::put_header(nodes, at, head_of(h, level, end, state));
}

// A new node, whole.
#[tactic(auto, unfolding(crate::specs::Moves::put_new))]
pub fn put_new(nodes: &mut [u8], h: &History, level: u64, first: Option<Child>)
    requires { Standing h.now level nodes.old }
    ensures { nodes.new ≡ put_new h.now level first nodes.old }
{
    let at = place_of(h, level);
    let head = head_of(h, level, OPEN_END, 1);
    layout::put_node(nodes, at, h.shape, head, first);
}

// ---- the four moves, and an entry alone

// What each asks, `Firm` and `Room`, is no invariant of a type: a host lends any record and any buffer, and the calls answer what is wrong with them. A struct of both would be a third thing lent, of which a clause speaks by ghost names.

// "Closing gives the node .. the end S": the lowest level, under an open one.
#[tactic(auto, unfolding(crate::specs::Moves::close))]
pub fn close(nodes: &mut [u8], h: &mut History)
    requires { Firm h.old × Room h.old nodes.old × (h.old.low < h.old.top) }
    ensures { held h.new nodes.new ≡ close (held h.old nodes.old) }
{
    put_head(nodes, h, h.low, h.largest_end, 2);
    h.close();
}

// "If the root was closed, a new root is made first .. with the old root as its only child, which learns its parent in the same call."
pub fn raise(nodes: &mut [u8], h: &mut History)
    requires { Firm h.old × Room h.old nodes.old × (h.old.low ≡ h.old.top) × (h.old.top < 15) × (h.old.used < h.old.shape.n) }
    ensures { held h.new nodes.new ≡ raise (held h.old nodes.old) }
{
    let root = h.top;
    let end = h.largest_end;
    let i = root as usize;
    let child = Child {
        sequence: Seq(h.branch.places[i] as u32),
        start: h.branch.starts[i],
    };
    h.raise();
    put_head(nodes, h, root, end, 2);
    put_new(nodes, h, root + 1, Some(child));
}

// A node of a chain under the lowest level: the parent's header and its new child entry, and the new node whole.
pub fn make(nodes: &mut [u8], h: &mut History, start: u64, level: u64)
    requires { Firm h.old × Room h.old nodes.old × (h.old.low ≡ level + 1) × (children_at h.old.branch (level + 1) < h.old.shape.c) × (h.old.used < h.old.shape.n) }
    ensures { held h.new nodes.new ≡ make start level (held h.old nodes.old) }
{
    let up = level + 1;
    let slot = layout::child_at(h.branch.children[up as usize] as u32);
    let at = place_of(h, up);
    let child = Child {
        sequence: Seq(h.used as u32),
        start,
    };
    h.make(start, level);
    put_head(nodes, h, up, OPEN_END, 1);
    layout::put_child(nodes, at + slot, child);
    put_new(nodes, h, level, None);
}

// A level takes an interval: its header, unless that is left to the caller, and the entry.
fn take<const HEADER: bool>(nodes: &mut [u8], h: &mut History, e: Entry, level: u64)
    requires { Firm h.old × Room h.old nodes.old × (h.old.low ≤ level) × (level ≤ h.old.top) × (intervals_at h.old.branch level < h.old.shape.k) }
    ensures { held h.new nodes.new ≡ cond HEADER (store e level (held h.old nodes.old)) (added e level (held h.old nodes.old)) }
{
    let slot = layout::entry_at(h.shape, h.branch.intervals[level as usize] as u32);
    let at = place_of(h, level);
    h.store(level);
    if HEADER {
        put_head(nodes, h, level, OPEN_END, 1);
    }
    layout::put_entry(nodes, at + slot, e);
}

// An interval in an open node whose header is left to the caller: one header is enough for a run of intervals.
pub fn add(nodes: &mut [u8], h: &mut History, e: Entry, level: u64)
    requires { Firm h.old × Room h.old nodes.old × (h.old.low ≤ level) × (level ≤ h.old.top) × (intervals_at h.old.branch level < h.old.shape.k) }
    ensures { held h.new nodes.new ≡ added e level (held h.old nodes.old) }
{
    take::<false>(nodes, h, e, level);
}

// A level takes an interval: its header, and the entry.
pub fn store(nodes: &mut [u8], h: &mut History, e: Entry, level: u64)
    requires { Firm h.old × Room h.old nodes.old × (h.old.low ≤ level) × (level ≤ h.old.top) × (intervals_at h.old.branch level < h.old.shape.k) }
    ensures { held h.new nodes.new ≡ store e level (held h.old nodes.old) }
{
    take::<true>(nodes, h, e, level);
}
