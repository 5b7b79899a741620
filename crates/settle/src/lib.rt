// Where an interval goes, and whether there is depth and room for it. "To store an interval starting at s, take the lowest open node with start at or below s."
#![tactic(auto)]

ghost use Rattle.std.specs.Prelude.{◌≡◌, ℕ, ◌-◌, ◌≤◌, ◌<◌};
ghost use Rattle.settle.specs.Settle.{ruled, ask_up, lowest, taken, settle, needed, plan_refusal};

use record::{History, Refusal};

// What is to be done to store an interval: close so many levels from the lowest up (one above the root is a new root),
// then make a chain below `level` and store in its lowest node, or store in `level`: `level` says where in both cases.
#[derive(Clone, Copy, Debug, PartialEq, Eq)]
pub struct Plan {
    pub closes: u64,
    pub level: u64,
    pub chain: bool,
}

// What rules 1 and 2 say of a node.
#[derive(Clone, Copy, Debug, PartialEq, Eq)]
pub enum Verdict {
    Here,
    Chain,
    Close,
}

// "1. If it is above level 0, has no open child, and s is after its last child's end: a child is due. With fewer than C children, make a chain ..
// With C children, close it. 2. Otherwise store in it if it has fewer than K intervals, else close it."
#[tactic(auto, unfolding(crate::specs::Settle::ruled))]
fn rule(h: &History, s: u64, level: u64, child: bool, last: u64) -> Verdict
    requires { level < 16 }
    ensures { result ≡ ruled h.now.branch h.now.shape s level child last }
{
    let i = level as usize;
    if !child & (0 < level) & (last < s) {
        if h.branch.children[i] < u64::from(h.shape.c) {
            return Verdict::Chain;
        }
        return Verdict::Close;
    }
    if h.branch.intervals[i] < u64::from(h.shape.k) {
        return Verdict::Here;
    }
    Verdict::Close
}

// "Then the same question is put again to the parent": the number of open levels left falls. Tells the level that stores or grows the chain, one above the
// root's for a new root.
fn ask(h: &History, s: u64, level: u64, child: bool, last: u64) -> u64
    requires { (h.now.low ≤ level) × (level ≤ h.now.top) × (h.now.top < 16) }
    ensures { (closes : ℕ) → result ≡ (ask_up (h.now.top - level) h.now s level child last closes).level }
{
    match rule(h, s, level, child, last) {
        Verdict::Here => level,
        Verdict::Chain => level,
        Verdict::Close => {
            if level == h.top {
                return level + 1;
            }
            ask(h, s, level + 1, false, h.largest_end) // "Closing gives the node .. the end S", and it is the parent's last child
        }
    }
}

// The lowest open level with start at or below s, or the root's.
pub fn seek(h: &History, s: u64) -> u64
    requires { (h.now.low ≤ h.now.top) × (h.now.top < 16) }
    ensures { (result ≡ lowest (h.now.top - h.now.low) h.now.branch s h.now.low) × (h.now.low ≤ result) × (result ≤ h.now.top) }
{
    for level in h.low..h.top {
        if h.branch.starts[level as usize] <= s {
            return level;
        }
    }
    h.top
}

// Whether rule 2 has the interval stored in this open node, as most are: then nothing closes, no node is made, and no plan is needed.
#[tactic(auto, unfolding(crate::specs::Settle::taken))]
pub fn takes(h: &History, s: u64, level: u64) -> bool
    requires { level < 16 }
    ensures { result ≡ taken h.now s level }
{
    let i = level as usize;
    if !(h.low < level) & (0 < level) & (h.branch.last_ends[i] < s) {
        return false;
    }
    h.branch.intervals[i] < u64::from(h.shape.k)
}

// What is to be done to store an interval that starts at s, from the lowest open level with start at or below s.
pub fn settle(h: &History, s: u64, level: u64) -> Plan
    requires { (level ≡ lowest (h.now.top - h.now.low) h.now.branch s h.now.low) × (h.now.low ≤ level) × (level ≤ h.now.top) × (h.now.top < 16) }
    ensures { result ≡ settle h.now s }
{
    let last = h.branch.last_ends[level as usize];
    let child = h.low < level;
    let taker = ask(h, s, level, child, last);
    if taker == level {
        // nothing closes: by rule 1 it grows a chain where a child is due, else by rule 2 it stores
        return Plan {
            closes: 0,
            level,
            chain: !child & (0 < level) & (last < s),
        };
    }
    // the levels below it close, and its last child ends at S: by rule 1 it grows a chain where s is after that, else by rule 2 it stores
    Plan {
        closes: taker - h.low,
        level: taker,
        chain: h.largest_end < s,
    }
}

// "Depth and room count what the rule would need": the new root and the whole chain of a plan.
#[tactic(auto, unfolding(crate::specs::Settle::needed))]
fn count(top: u64, p: Plan) -> u64
    requires { p.level < 16 }
    ensures { result ≡ needed top p }
{
    let root = if top < p.level { 1 } else { 0 };
    let chain = if p.chain { p.level } else { 0 };
    root + chain
}

// "Depth at most 16", N nodes: depth before room.
#[tactic(auto, unfolding(crate::specs::Settle::plan_refusal))]
pub fn admit(h: &History, p: Plan) -> Result<(), Refusal>
    requires { h.now.used ≤ h.now.shape.n }
    ensures { result ≡ plan_refusal h.now p }
{
    if 15 < p.level {
        return Err(Refusal::Deep);
    }
    if u64::from(h.shape.n) - h.used < count(h.top, p) {
        return Err(Refusal::NoRoom);
    }
    Ok(())
}
