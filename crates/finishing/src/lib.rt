// Finishing a history. What it comes to is defined with the other calls (calls/specs/Finish.antt).
#![tactic(auto)]

ghost use Rattle.std.specs.Prelude.{◌≡◌, ◌/◌, ◌≤◌, length};
ghost use Rattle.layout.specs.Layout.{entry_size};
ghost use Rattle.record.specs.Sound.{last_time};
ghost use Rattle.record.specs.Firm.{Firm};
ghost use Rattle.build.specs.Moves.{held, Room};
ghost use Rattle.build.specs.Write.{inserted};
ghost use Rattle.calls.specs.Outcome.{Comes};
ghost use Rattle.calls.specs.Finish.{all_sound, trial, finish_refusal, stored_from, finish_of};
ghost use Rattle.finishing.specs.Due.{Due, caught_up};

use layout::{Entry, Quark};
use record::{History, Refusal};

// Every entry below the attribute count is read, and all have to be sound. (A full question tests them in the loop in which it notes them.)
fn all_sound(h: &History, table: &[u8]) -> bool
    requires { (h.now.attributes ≤ length table.now / entry_size) × (h.now.attributes ≤ 4096) }
    ensures { result ≡ all_sound h.now table.now }
{
    for q in 0..h.attributes as u32 {
        let o = transient::read_ongoing(table, Quark(q));
        if !transient::ongoing_sound(o, h.start, h.latest) {
            return false;
        }
    }
    true
}

// The trial run: "In finish the first interval in quark order that breaks either decides, depth before room." It has the record by value,
// a copy: nothing is written.
fn trial(h: History, table: &[u8], t: u64) -> Result<(), Refusal>
    requires { Firm h × (h.attributes ≤ length table.now / entry_size) × (h.attributes ≤ 4096) × (t ≤ last_time) }
    ensures { result ≡ trial h.attributes 0 table.now t h }
{
    let mut g = h;
    for q in 0..h.attributes as u32 {
        let o = transient::read_ongoing(table, Quark(q));
        build::trial::tried(&mut g, o.start, t)?;
    }
    Ok(())
}

// The header of the level that is due, if there is one, open (1). (Why `Firm` and `Room` are asked and no type's invariant: build/src/moves.rt.)
#[tactic(auto, unfolding(crate::specs::Due::caught_up))]
fn write_due(nodes: &mut [u8], h: &History, due: Option<u64>)
    requires { Firm h.now × Room h.now nodes.old × Due h.now due }
    ensures { nodes.new ≡ caught_up h.now due nodes.old }
{
    if let Some(level) = due {
        build::moves::put_head(nodes, h, level, build::moves::OPEN_END, 1);
    }
}

// One interval. Where an open node takes it, that node's header is left to be written and its level returned: the next mostly goes into the same node,
// and one header is enough for the run.
fn store_one(nodes: &mut [u8], h: &mut History, e: Entry, due: Option<u64>) -> Option<u64>
    requires { Firm h.old × Room h.old nodes.old × Due h.old due × (e.end ≤ last_time) }
    ensures { Due h.new result × (held h.new (caught_up h.new result nodes.new) ≡ inserted e (held h.old (caught_up h.old due nodes.old))) }
{
    let level = settle::seek(h, e.start);
    if settle::takes(h, e.start, level) {
        if due != Some(level) {
            write_due(nodes, h, due);
        }
        h.stretch(e.end);
        build::moves::add(nodes, h, e, level);
        return Some(level);
    }
    write_due(nodes, h, due);
    let _ = build::write::insert(nodes, h, e); // the trial has shown that none is refused
    None
}

// "Finish at T stores, in quark order, every ongoing interval with end T."
fn store_all(nodes: &mut [u8], table: &[u8], h: &mut History, t: u64)
    requires { Firm h.old × Room h.old nodes.old × (h.old.attributes ≤ length table.now / entry_size) × (h.old.attributes ≤ 4096) × (t ≤ last_time) }
    ensures { held h.new nodes.new ≡ stored_from h.old.attributes 0 table.now t (held h.old nodes.old) }
{
    let mut due = None;
    for q in 0..h.attributes as u32 {
        let o = transient::read_ongoing(table, Quark(q));
        let e = transient::ongoing_entry(Quark(q), o, t);
        due = store_one(nodes, h, e, due);
    }
    write_due(nodes, h, due);
}

fn admit(h: &History, t: u64, nodes: usize, table: &[u8]) -> Result<(), Refusal>
    ensures { result ≡ finish_refusal h.now t nodes table.now }
{
    h.admit(nodes, table.len())?;
    if h.finished {
        return Err(Refusal::Finished);
    }
    if !all_sound(h, table) {
        return Err(Refusal::Damaged);
    }
    if record::sound::LAST_TIME < t {
        return Err(Refusal::Outside);
    }
    if t < h.latest {
        return Err(Refusal::Early);
    }
    trial(*h, table, t)
}

// Finishes a history at t. Every refusal is found before the first write; the table is only read.
pub fn finish(h: &mut History, t: u64, nodes: &mut [u8], table: &[u8]) -> Result<(), Refusal>
    ensures { Comes result h.new nodes.new table.now (finish_of h.old t nodes.old table.now) }
{
    admit(h, t, nodes.len(), table)?;
    store_all(nodes, table, h, t);
    build::write::close_all(nodes, h, t);
    h.finish(t);
    Ok(())
}
