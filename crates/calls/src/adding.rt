// Adding an attribute.
ghost use Rattle.std.specs.Prelude.{◌≡◌};
ghost use Rattle.calls.specs.Outcome.{Comes};
ghost use Rattle.calls.specs.Add.{add_refusal, add_of};

use layout::Quark;
use record::{History, Refusal};

fn admit(h: &History, nodes: usize, table: usize) -> Result<(), Refusal>
    ensures { result ≡ add_refusal h.now nodes table }
{
    h.admit(nodes, table)?;
    if h.finished {
        return Err(Refusal::Finished);
    }
    let entries = (table / layout::ENTRY) as u64;
    if (entries <= h.attributes) | (4096 <= h.attributes) {
        return Err(Refusal::TableFull);
    }
    Ok(())
}

// Adds an attribute, "null from the history's start". The nodes are only measured.
pub fn add(h: &mut History, nodes: &[u8], table: &mut [u8]) -> Result<(), Refusal>
    ensures { Comes result h.new nodes.now table.new (add_of h.old nodes.now table.old) }
{
    admit(h, nodes.len(), table.len())?;
    let quark = Quark(h.attributes as u32);
    transient::put_ongoing(table, quark, transient::begins(h.start));
    h.add_attribute();
    Ok(())
}
