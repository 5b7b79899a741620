// An interval stored in record and nodes; opening; closing all.
ghost use Rattle.std.specs.Prelude.{◌≡◌, ◌+◌, ◌-◌, ◌≤◌};
ghost use Rattle.record.specs.Sound.{last_time};
ghost use Rattle.record.specs.Firm.{Firm};
ghost use Rattle.settle.specs.Settle.{settle, plan_refusal};
ghost use Rattle.build.specs.Moves.{held, Room, Standing};
ghost use Rattle.build.specs.Write.{inserted, close_all, planted};

use crate::carry::{self, OnNodes};
use crate::moves;
use layout::Entry;
use record::{History, Refusal};

// Stores an interval, or does nothing where depth or room would not do. (Why `Firm` and `Room` are asked and no type's invariant: moves.rt.)
pub fn insert(nodes: &mut [u8], h: &mut History, e: Entry) -> Result<(), Refusal>
    requires { Firm h.old × Room h.old nodes.old × (e.end ≤ last_time) }
    ensures { (result ≡ plan_refusal h.old (settle h.old e.start)) × (held h.new nodes.new ≡ inserted e (held h.old nodes.old)) }
{
    carry::insert::<OnNodes>(nodes, h, e)
}

// "then closes all open nodes with end T"
pub fn close_all(nodes: &mut [u8], h: &History, t: u64)
    requires { Firm h.now × Room h.now nodes.old }
    ensures { nodes.new ≡ close_all h.now t (h.now.top + 1 - h.now.low) h.now.low nodes.old }
{
    for level in h.low..=h.top {
        moves::put_head(nodes, h, level, t, 2);
    }
}

// "Opening makes node 0: level 0, open, empty, starting at the history's start."
#[tactic(auto, unfolding(crate::specs::Write::planted))]
pub fn plant(nodes: &mut [u8], h: &History)
    requires { Standing h.now 0 nodes.old }
    ensures { nodes.new ≡ planted h.now nodes.old }
{
    moves::put_new(nodes, h, 0, None);
}
