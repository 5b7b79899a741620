// The single question: one attribute's state at t.
ghost use Rattle.std.specs.Prelude.{◌≡◌, ◌+◌, ◌*◌, ◌/◌, ◌≤◌, ◌<◌, true, false, length, is_some, IfSome};
ghost use Rattle.layout.specs.Layout.{entry_size};
ghost use Rattle.record.specs.Sound.{sound};
ghost use Rattle.walk.specs.View.{view_of, Roomy};
ghost use Rattle.walk.specs.Rules.{kept};
ghost use Rattle.walk.specs.Walk.{all_sound, walk_of};
ghost use Rattle.questions.specs.Found.{more, look, shown, found_of};
ghost use Rattle.questions.specs.Single.{said, walked_single, view_single, single_of};

use crate::Answer;
use layout::{Header, Quark};
use record::{History, Refusal};
use walk::{View, known, rules, steps};

// What was found for a quark: 0 nothing, p + 1 the one entry at byte p, MANY more than one. One number: with an enum the same loop in plain Rust takes 5 to 9 in a hundred more instructions.
const MANY: u64 = 0xffff_ffff;

// One more, at byte p, after s was found.
#[tactic(auto, unfolding(crate::specs::Found::more))]
fn more(s: u64, p: usize) -> u64
    requires { p < 18446744073709551615 }
    ensures { result ≡ more s p }
{
    if s == 0 { p as u64 + 1 } else { MANY }
}

// What is found after `found` among a node's entries, if all of them keep R6. Each is read once, for R6 and for the quark asked, up to the first that does not fit; the kinds and the nulls' values are tested at the end, for all of them at once.
// What would be found is made before it is asked whether the entry covers t, and then taken or left: there is nothing for a processor to guess.
fn look(
    nodes: &[u8],
    attributes: u32,
    h: Header,
    quark: Quark,
    t: u64,
    at: usize,
    n: u32,
    found: u64,
) -> Option<u64>
    requires { (at + entry_size * n ≤ length nodes.now) × (at + entry_size * n ≤ 4294967296) × (h.start ≤ h.end) }
    ensures sound { is_some result ≡ all_sound nodes.now attributes h at n true }
    ensures finds { IfSome result (λ s. s ≡ look nodes.now quark.0 t at n found) }
{
    let mut nulls: u64 = 0;
    let mut kinds: u64 = 0;
    let mut s = found;
    let span = h.end - h.start;
    let now = rules::since(h.start, t);
    for i in 0..n {
        let p = at + layout::ENTRY * (i as usize);
        let e = layout::read_entry(nodes, p);
        if !rules::fits(attributes, h.start, span, e) {
            return None;
        }
        kinds = rules::kinds(kinds, e);
        nulls = rules::nulls(nulls, e);
        if e.quark == quark {
            let next = more(s, p);
            if rules::spans(h.start, now, e) {
                s = next;
            }
        }
    }
    if (nulls == 0) & (kinds <= 1) {
        Some(s)
    } else {
        None
    }
}

// R7: exactly one.
#[tactic(auto, unfolding(crate::specs::Found::shown))]
fn one(s: u64) -> bool
    ensures { result ≡ shown s }
{
    (s != 0) & (s != MANY)
}

// The walk of a single question: how many nodes it enters and what it finds, if it breaks none of R1 to R6.
// Where a node's way goes on is found before its entries are looked at: the next node's header is on its way from memory meanwhile. The full question has this loop once more: with a step that both call, a single on small nodes takes 44 in a hundred more instructions.
fn find(v: View, t: u64, quark: Quark, nodes: &[u8]) -> Option<(u32, u64)>
    requires { Roomy v nodes.now }
    ensures kept { is_some result ≡ kept (walk_of nodes.now v t).rule }
    ensures finds { IfSome result (λ r. (r.0 ≡ (walk_of nodes.now v t).entered) × (r.1 ≡ found_of nodes.now v quark.0 t)) }
{
    let mut due = steps::root(v);
    let mut entered = 0;
    let mut s: u64 = 0;
    for level in (0..=v.level).rev() {
        let at = record::sound::stands_at(due.place.0, v.shape);
        let h = layout::read_header(nodes, at);
        if rules::broken(v, due, level, h).is_some() {
            return None;
        }
        let picked = steps::pick(nodes, at + layout::child_at(0), u32::from(h.children), t);
        let Ok(next) = steps::down_to(nodes, v, t, h, at, picked) else {
            return None;
        };
        let first = at + layout::entry_at(v.shape, 0);
        s = look(
            nodes,
            v.attributes,
            h,
            quark,
            t,
            first,
            u32::from(h.intervals),
            s,
        )?;
        entered += 1;
        match next {
            Some(below) => due = below,
            None => break,
        }
    }
    Some((entered, s))
}

// The walk, and R7.
pub fn walked(v: View, t: u64, quark: Quark, nodes: &[u8]) -> Result<Answer, Refusal>
    requires { Roomy v nodes.now }
    ensures { said result ≡ walked_single v t quark.0 nodes.now }
{
    let Some((entered, s)) = find(v, t, quark, nodes) else {
        return Err(Refusal::Damaged);
    };
    if !one(s) {
        return Err(Refusal::Damaged);
    }
    let entry = layout::read_entry(nodes, (s - 1) as usize);
    Ok(Answer {
        nodes: entered,
        entry,
    })
}

// The same of a history's record. What the walk knows is made from it here: handed over, it would be copied on the way, in other pieces than it was written in, and a processor waits for such copies.
fn walked_from(h: &History, t: u64, quark: Quark, nodes: &[u8]) -> Result<Answer, Refusal>
    requires { (sound h.now ≡ true) × Roomy (view_of h.now) nodes.now }
    ensures { said result ≡ walked_single (view_of h.now) t quark.0 nodes.now }
{
    let v = known::view_of(h);
    walked(v, t, quark, nodes)
}

// The question, once the record and the buffers are admitted, the quark is known and t is asked rightly.
fn admitted(
    h: &History,
    t: u64,
    quark: Quark,
    nodes: &[u8],
    table: &[u8],
) -> Result<Answer, Refusal>
    requires { (sound h.now ≡ true) × Roomy (view_of h.now) nodes.now × (quark.0 < h.now.attributes) × (h.now.finished ≡ false → h.now.attributes ≤ length table.now / entry_size) }
    ensures { said result ≡ view_single (view_of h.now) t quark.0 nodes.now table.now }
{
    if h.finished {
        return walked_from(h, t, quark, nodes);
    }
    let o = transient::read_ongoing(table, quark);
    if !transient::ongoing_sound(o, h.start, h.latest) {
        return Err(Refusal::Damaged);
    }
    if o.start <= t {
        let entry = transient::ongoing_entry(quark, o, u64::MAX);
        return Ok(Answer { nodes: 0, entry });
    }
    walked_from(h, t, quark, nodes)
}

// "query 3 record, 2, 7, 6, 3"
pub fn single(
    h: &History,
    t: u64,
    quark: Quark,
    nodes: &[u8],
    table: &[u8],
) -> Result<Answer, Refusal>
    ensures { said result ≡ single_of h.now t quark nodes.now table.now }
{
    h.admit(nodes.len(), table.len())?;
    let v = known::view_of(h);
    if v.attributes <= quark.0 {
        return Err(Refusal::NoQuark);
    }
    if !known::asked(v, t) {
        return Err(Refusal::Outside);
    }
    admitted(h, t, quark, nodes, table)
}
