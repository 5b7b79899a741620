// An interval tried on the record alone: what finish does before it writes.
ghost use Rattle.std.specs.Prelude.{◌≡◌, ◌≤◌};
ghost use Rattle.record.specs.Sound.{last_time};
ghost use Rattle.record.specs.Firm.{Firm};
ghost use Rattle.build.specs.Trial.{tried};

use crate::carry::{self, OnRecord};
use layout::{Entry, Quark};
use record::{History, Refusal};

// An interval from s to end tried on the record.
pub fn tried(h: &mut History, s: u64, end: u64) -> Result<(), Refusal>
    requires { Firm h.old × (end ≤ last_time) }
    ensures { (result ≡ (tried h.old s end).refusal) × (h.new ≡ (tried h.old s end).history) }
{
    // all that the record takes from an entry is its start and its end
    let e = Entry {
        quark: Quark(0),
        kind: 0,
        start: s,
        end,
        value: 0,
    };
    carry::insert::<OnRecord>(&mut [], h, e)
}
