// Set, remove and increment.
ghost use Rattle.std.specs.Prelude.{◌≡◌, ◌<◌};
ghost use Rattle.transient.specs.declared.Change.TheVariants.{Set, Remove, Increment};
ghost use Rattle.transient.specs.declared.Decision.TheVariants.{Ended};
ghost use Rattle.transient.specs.Transient.{decide};
ghost use Rattle.calls.specs.Outcome.{Comes};
ghost use Rattle.calls.specs.Change.{change_of};
ghost use Rattle.calls.specs.Parts.{unasked, untimely, carried_out, Due};

use layout::Quark;
use record::{History, Refusal};
use transient::{Change, Decision, Ongoing};

// The refusals that need neither the ongoing entry nor the nodes: 3 record, 2, 4, 7.
fn unasked(h: &History, quark: Quark, nodes: usize, table: usize) -> Result<(), Refusal>
    ensures { result ≡ unasked h.now quark nodes table }
{
    h.admit(nodes, table)?;
    if h.finished {
        return Err(Refusal::Finished);
    }
    if h.attributes <= u64::from(quark.0) {
        return Err(Refusal::NoQuark);
    }
    Ok(())
}

// 3 entry, 6, 5.
#[tactic(auto, unfolding(crate::specs::Parts::untimely))]
fn untimely(h: &History, o: Ongoing, t: u64) -> Result<(), Refusal>
    ensures { result ≡ untimely h.now o t }
{
    if !transient::ongoing_sound(o, h.start, h.latest) {
        return Err(Refusal::Damaged);
    }
    if record::sound::LAST_TIME < t {
        return Err(Refusal::Outside);
    }
    if t < h.latest {
        return Err(Refusal::Early);
    }
    Ok(())
}

// "Otherwise the interval from the ongoing start to t-1, ends included, is stored and the new state is ongoing from t."
fn store(
    h: &mut History,
    t: u64,
    quark: Quark,
    o: Ongoing,
    next: Ongoing,
    nodes: &mut [u8],
    table: &mut [u8],
) -> Result<(), Refusal>
    requires { Due h.old t quark o nodes.old table.old × (o.start < t) }
    ensures { Comes result h.new nodes.new table.new (carried_out h.old t quark o nodes.old table.old (Ended next)) }
{
    let e = transient::ongoing_entry(quark, o, t - 1);
    build::write::insert(nodes, h, e)?;
    transient::put_ongoing(table, quark, next);
    h.at_time(t);
    Ok(())
}

// What a change that is due does: refused 9, nothing but the time, replaced, or stored.
fn carry(
    h: &mut History,
    t: u64,
    quark: Quark,
    o: Ongoing,
    what: Change,
    nodes: &mut [u8],
    table: &mut [u8],
) -> Result<(), Refusal>
    requires { Due h.old t quark o nodes.old table.old }
    ensures { Comes result h.new nodes.new table.new (carried_out h.old t quark o nodes.old table.old (decide o t what)) }
{
    match transient::decide(o, t, what) {
        Decision::Top => Err(Refusal::Top),
        Decision::Same => {
            h.at_time(t);
            Ok(())
        }
        Decision::Replaced(next) => {
            transient::put_ongoing(table, quark, next);
            h.at_time(t);
            Ok(())
        }
        Decision::Ended(next) => store(h, t, quark, o, next, nodes, table),
    }
}

fn change(
    h: &mut History,
    t: u64,
    quark: Quark,
    what: Change,
    nodes: &mut [u8],
    table: &mut [u8],
) -> Result<(), Refusal>
    ensures { Comes result h.new nodes.new table.new (change_of h.old t quark what nodes.old table.old) }
{
    unasked(h, quark, nodes.len(), table.len())?;
    let o = transient::read_ongoing(table, quark);
    untimely(h, o, t)?;
    carry(h, t, quark, o, what, nodes, table)
}

pub fn set(
    h: &mut History,
    t: u64,
    quark: Quark,
    value: i64,
    nodes: &mut [u8],
    table: &mut [u8],
) -> Result<(), Refusal>
    ensures { Comes result h.new nodes.new table.new (change_of h.old t quark (Set value) nodes.old table.old) }
{
    change(h, t, quark, Change::Set(value), nodes, table)
}

pub fn remove(
    h: &mut History,
    t: u64,
    quark: Quark,
    nodes: &mut [u8],
    table: &mut [u8],
) -> Result<(), Refusal>
    ensures { Comes result h.new nodes.new table.new (change_of h.old t quark Remove nodes.old table.old) }
{
    change(h, t, quark, Change::Remove, nodes, table)
}

pub fn increment(
    h: &mut History,
    t: u64,
    quark: Quark,
    nodes: &mut [u8],
    table: &mut [u8],
) -> Result<(), Refusal>
    ensures { Comes result h.new nodes.new table.new (change_of h.old t quark Increment nodes.old table.old) }
{
    change(h, t, quark, Change::Increment, nodes, table)
}
