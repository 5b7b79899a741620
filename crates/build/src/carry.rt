// A plan carried out, by whichever moves: on record and node bytes, or on the record alone.
ghost use Rattle.std.specs.Prelude.{◌≡◌, ◌+◌, ◌≤◌, ◌<◌, length};
ghost use Rattle.std.proofs.Common.{rules};
ghost use Rattle.record.specs.Sound.{last_time};
ghost use Rattle.record.specs.Levels.{intervals_at, children_at};
ghost use Rattle.record.specs.Firm.{Firm};
ghost use Rattle.settle.specs.Settle.{settle, plan_refusal};
ghost use Rattle.build.specs.Moves.{Held, held, Room, close, raise, make, store};
ghost use Rattle.build.specs.Feasible.{Feasible};
ghost use Rattle.build.specs.Carried.{Climbing, Descending, Hanging};
ghost use Rattle.build.specs.Write.{rise, climb, descend, chained, written, inserted};

use crate::moves;
use layout::Entry;
use record::{History, Refusal};
use settle::Plan;

// How the four moves are made. `room` says on which record and buffer they may be, and by `kept` each leaves room for the next.
pub trait Moves {
    ghost room: { Held → Type 0 };

    fn close(nodes: &mut [u8], h: &mut History)
        requires { Firm h.old × room (held h.old nodes.old) × (h.old.low < h.old.top) }
        ensures { held h.new nodes.new ≡ close (held h.old nodes.old) };

    fn raise(nodes: &mut [u8], h: &mut History)
        requires { Firm h.old × room (held h.old nodes.old) × (h.old.low ≡ h.old.top) × (h.old.top < 15) × (h.old.used < h.old.shape.n) }
        ensures { held h.new nodes.new ≡ raise (held h.old nodes.old) };

    fn make(nodes: &mut [u8], h: &mut History, start: u64, level: u64)
        requires { Firm h.old × room (held h.old nodes.old) × (h.old.low ≡ level + 1) × (children_at h.old.branch (level + 1) < h.old.shape.c) × (h.old.used < h.old.shape.n) }
        ensures { held h.new nodes.new ≡ make start level (held h.old nodes.old) };

    fn store(nodes: &mut [u8], h: &mut History, e: Entry, level: u64)
        requires { Firm h.old × room (held h.old nodes.old) × (h.old.low ≤ level) × (level ≤ h.old.top) × (intervals_at h.old.branch level < h.old.shape.k) }
        ensures { held h.new nodes.new ≡ store e level (held h.old nodes.old) };

    ghost kept: { (σ τ : Held) → τ.history.shape ≡ σ.history.shape → length τ.nodes ≡ length σ.nodes → room σ → room τ };
}

// Record and node bytes change together.
pub struct OnNodes;

impl Moves for OnNodes {
    ghost room = { λ σ. Room σ.history σ.nodes };

    ghost kept = { Prim.search rules };

    fn close(nodes: &mut [u8], h: &mut History) {
        moves::close(nodes, h);
    }

    fn raise(nodes: &mut [u8], h: &mut History) {
        moves::raise(nodes, h);
    }

    fn make(nodes: &mut [u8], h: &mut History, start: u64, level: u64) {
        moves::make(nodes, h, start, level);
    }

    fn store(nodes: &mut [u8], h: &mut History, e: Entry, level: u64) {
        moves::store(nodes, h, e, level);
    }
}

// The record alone. Its buffer is the empty one, in which nothing can be written: so the definitions of the moves hold here too.
pub struct OnRecord;

impl Moves for OnRecord {
    ghost room = { λ σ. length σ.nodes ≡ 0 };

    ghost kept = { Prim.search rules };

    fn close(_nodes: &mut [u8], h: &mut History) {
        h.close();
    }

    fn raise(_nodes: &mut [u8], h: &mut History) {
        h.raise();
    }

    fn make(_nodes: &mut [u8], h: &mut History, start: u64, level: u64) {
        h.make(start, level);
    }

    fn store(_nodes: &mut [u8], h: &mut History, _e: Entry, level: u64) {
        h.store(level);
    }
}

// One level up: the lowest closes, under a new root if it was the root.
fn rise<M: Moves>(nodes: &mut [u8], h: &mut History)
    requires { Climbing h.old 1 × M.room (held h.old nodes.old) }
    ensures { held h.new nodes.new ≡ rise (held h.old nodes.old) }
{
    if h.low < h.top {
        M::close(nodes, h);
    } else {
        M::raise(nodes, h);
    }
}

fn climb<M: Moves>(nodes: &mut [u8], h: &mut History, n: u64)
    requires { Climbing h.old n × M.room (held h.old nodes.old) }
    ensures { held h.new nodes.new ≡ climb n (held h.old nodes.old) }
{
    for i in 0..n {
        rise::<M>(nodes, h);
    }
}

// "a chain of new nodes down to level 0, all starting" at start
fn descend<M: Moves>(nodes: &mut [u8], h: &mut History, start: u64, n: u64)
    requires { Descending h.old n × M.room (held h.old nodes.old) }
    ensures { held h.new nodes.new ≡ descend start n (held h.old nodes.old) }
{
    for level in (0..n).rev() {
        M::make(nodes, h, start, level);
    }
}

// "all starting one after that last end, and store in the lowest"
fn chain<M: Moves>(nodes: &mut [u8], h: &mut History, e: Entry, level: u64)
    requires { Hanging h.old level × M.room (held h.old nodes.old) }
    ensures { held h.new nodes.new ≡ chained e level (held h.old nodes.old) }
{
    let start = h.branch.last_ends[level as usize] + 1;
    descend::<M>(nodes, h, start, level);
    M::store(nodes, h, e, 0);
}

// An interval stored by the plan: S takes its end when all that had to close is closed.
fn carry<M: Moves>(nodes: &mut [u8], h: &mut History, p: Plan, e: Entry)
    requires { Firm h.old × M.room (held h.old nodes.old) × Feasible h.old p × (e.end ≤ last_time) }
    ensures { held h.new nodes.new ≡ written e p (held h.old nodes.old) }
{
    climb::<M>(nodes, h, p.closes);
    h.stretch(e.end);
    if p.chain {
        chain::<M>(nodes, h, e, p.level);
    } else {
        M::store(nodes, h, e, p.level);
    }
}

// Stores an interval, or does nothing where depth or room would not do.
pub fn insert<M: Moves>(nodes: &mut [u8], h: &mut History, e: Entry) -> Result<(), Refusal>
    requires { Firm h.old × M.room (held h.old nodes.old) × (e.end ≤ last_time) }
    ensures { (result ≡ plan_refusal h.old (settle h.old e.start)) × (held h.new nodes.new ≡ inserted e (held h.old nodes.old)) }
{
    let level = settle::seek(h, e.start);
    if settle::takes(h, e.start, level) {
        h.stretch(e.end);
        M::store(nodes, h, e, level);
        return Ok(());
    }
    let p = settle::settle(h, e.start, level);
    settle::admit(h, p)?;
    carry::<M>(nodes, h, p, e);
    Ok(())
}
