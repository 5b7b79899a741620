// Opening a history.
ghost use Rattle.std.specs.Prelude.{◌≡◌, ◌*◌, ◌≤◌, length};
ghost use Rattle.layout.specs.Layout.{entry_size};
ghost use Rattle.calls.specs.Outcome.{Comes};
ghost use Rattle.calls.specs.Open.{opened, table_opened, open_refusal, open_on};

use layout::{Quark, Shape};
use record::{Branch, History, Refusal};

// The record of a history that begins. The shape is a parameter here and below: there is no record yet that has it.
#[tactic(auto, unfolding(crate::specs::Open::opened))]
fn begin(start: u64, attributes: u32, shape: Shape) -> History
    ensures { result ≡ opened start attributes shape }
{
    let mut starts = [0u64; 16];
    starts[0] = start;
    History {
        shape,
        start,
        latest: start,
        largest_end: start,
        attributes: u64::from(attributes),
        used: 1,
        low: 0,
        top: 0,
        finished: false,
        branch: Branch {
            places: [0; 16],
            starts,
            intervals: [0; 16],
            children: [0; 16],
            last_ends: [0; 16],
        },
    }
}

fn admit(
    start: u64,
    attributes: u32,
    shape: Shape,
    nodes: usize,
    table: usize,
) -> Result<(), Refusal>
    ensures { result ≡ open_refusal start attributes shape nodes table }
{
    let allowed = record::sound::shape_allowed(shape);
    if !(allowed & (start <= record::sound::LAST_TIME) & (attributes <= 4096)) {
        return Err(Refusal::Numbers);
    }
    if !record::sound::long_enough(shape, u64::from(attributes), false, nodes, table) {
        return Err(Refusal::Short);
    }
    Ok(())
}

// "At opening .. it is null from the history's start."
fn open_table(table: &mut [u8], start: u64, attributes: u32)
    requires { attributes * entry_size ≤ length table.old }
    ensures { table.new ≡ table_opened start attributes 0 table.old }
{
    for q in 0..attributes {
        transient::put_ongoing(table, Quark(q), transient::begins(start));
    }
}

// Opens a history: its record, node 0 and the first entries of the table are written, nothing else. Refused, the record is as it came.
pub fn open(
    start: u64,
    attributes: u32,
    shape: Shape,
    h: &mut History,
    nodes: &mut [u8],
    table: &mut [u8],
) -> Result<(), Refusal>
    ensures { Comes result h.new nodes.new table.new (open_on h.old start attributes shape nodes.old table.old) }
{
    admit(start, attributes, shape, nodes.len(), table.len())?;
    *h = begin(start, attributes, shape);
    build::write::plant(nodes, h);
    open_table(table, start, attributes);
    Ok(())
}
