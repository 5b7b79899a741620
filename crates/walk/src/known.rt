// What a question knows of a history besides its bytes.
ghost use Rattle.std.specs.Prelude.{◌≡◌, ◌≤◌, true};
ghost use Rattle.layout.specs.Layout.{node_size};
ghost use Rattle.record.specs.Sound.{sound};
ghost use Rattle.walk.specs.View.{view_of, view_sound, long_for, asked};

use crate::View;
use layout::Seq;
use record::History;

#[tactic(auto, using(crate::proofs::Admitted::sound_few, crate::proofs::Admitted::sound_top, crate::proofs::Admitted::sound_used, crate::proofs::Admitted::sound_place), unfolding(crate::specs::View::view_of))]
pub fn view_of(h: &History) -> View
    requires { sound h.now ≡ true }
    ensures { result ≡ view_of h.now }
{
    View {
        shape: h.shape,
        start: h.start,
        latest: h.latest,
        attributes: h.attributes as u32,
        used: h.used as u32,
        root: Seq(h.branch.places[h.top as usize] as u32),
        level: h.top as u32,
        finished: h.finished,
    }
}

// The tests of the record that the exported numbers allow.
#[tactic(auto, unfolding(crate::specs::View::view_sound))]
pub fn view_sound(v: View) -> bool
    ensures { result ≡ view_sound v }
{
    record::sound::shape_allowed(v.shape)
        & (v.attributes <= 4096)
        & (v.latest <= record::sound::LAST_TIME)
        & (v.start <= v.latest)
        & (1 <= v.used)
        & (v.used <= v.shape.n)
        & (v.level <= 15)
        & (v.root.0 < v.used)
}

// "nodes under N times size, table under the attribute count (not once finished)"
#[tactic(auto, unfolding(crate::specs::View::long_for))]
pub fn long_for(v: View, nodes: usize, table: usize) -> bool
    requires { (v.shape.n ≤ 65536) × (node_size v.shape ≤ 65536) }
    ensures { result ≡ long_for v nodes table }
{
    record::sound::long_enough(v.shape, u64::from(v.attributes), v.finished, nodes, table)
}

// "in a query, before start or after latest"
#[tactic(auto, unfolding(crate::specs::View::asked))]
pub fn asked(v: View, t: u64) -> bool
    ensures { result ≡ asked v t }
{
    (v.start <= t) & (t <= v.latest)
}
