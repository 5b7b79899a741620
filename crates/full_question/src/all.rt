// The full question: all attributes' states at t, in one walk.
ghost use Rattle.std.specs.Prelude.{◌≡◌, true, false, not, ◌&&◌, ℕ, ◌+◌, ◌*◌, ◌/◌, ◌≤◌, ◌<◌, eqb, length, get_or, is_some, IfSome};
ghost use Rattle.std.proofs.lemmas.List.Edits.{sets};
ghost use Rattle.layout.specs.Layout.{entry_size, entry_name};
ghost use Rattle.walk.specs.View.{Roomy};
ghost use Rattle.walk.specs.Since.{reaches};
ghost use Rattle.walk.specs.Rules.{kept};
ghost use Rattle.walk.specs.Walk.{all_sound, walk_of};
ghost use Rattle.questions.specs.Found.{shown};
ghost use Rattle.questions.specs.Single.{entry_fine};
ghost use Rattle.full_question.specs.Full.{every_quark, said_all, walked_full, walked_written, full_of, full_written};
ghost use Rattle.full_question.specs.Table.{note_if, note_all, found_all, once, begun, all_begun, entry_for, entries_from, Readable};

use layout::{Entry, Header, Quark};
use record::{History, Refusal};
use walk::{View, known, rules, steps};

// What was found for each quark: 0 nothing, p + 1 the one entry at byte p, ONGOING its ongoing state. At a second one the question ends. One number of 32 bits, as in the single question: an enum is twice as long.
const ONGOING: u32 = 0xffff_fffe;

// An entry at byte p that covers t is noted for its quark. Tells false where that quark has one already: R7 is broken, whatever else is found.
#[tactic(auto, unfolding(crate::specs::Table::note_if, questions::specs::Found::more))]
fn note(found: &mut [u32], t: u64, p: usize, e: Entry) -> bool
    requires { (p + entry_size ≤ 4294967296) × (e.quark.0 < length found.old) }
    ensures told { result ≡ not (reaches t e && not (eqb (get_or found.old e.quark.0 0) 0)) }
    ensures notes { result ≡ true → found.new ≡ note_if (reaches t e) p e found.old }
{
    if rules::reaches(t, e) {
        let q = e.quark.0 as usize;
        if found[q] != 0 {
            return false;
        }
        found[q] = (p + 1) as u32;
    }
    true
}

// What the single question's `look` finds for one quark, this notes for all. Each of a node's entries is read once, for R6 and for its quark, up to the first that does not fit or that is a second one for its quark; the kinds and the nulls' values are tested at the end, for all of them at once. What was noted matters only where none breaks R6 or R7.
fn look(
    nodes: &[u8],
    attributes: u32,
    h: Header,
    t: u64,
    at: usize,
    n: u32,
    found: &mut [u32],
) -> bool
    requires { (at + entry_size * n ≤ length nodes.now) × (at + entry_size * n ≤ 4294967296) × (attributes ≤ length found.old) × (once attributes found.old ≡ true) }
    ensures told { result ≡ (all_sound nodes.now attributes h at n true && once attributes (note_all nodes.now t at n found.old)) }
    ensures notes { result ≡ true → found.new ≡ note_all nodes.now t at n found.old }
{
    let mut nulls: u64 = 0;
    let mut kinds: u64 = 0;
    for i in 0..n {
        let p = at + layout::ENTRY * (i as usize);
        let e = layout::read_entry(nodes, p);
        if !rules::lies(attributes, h.start, h.end, e) {
            return false;
        }
        kinds = rules::kinds(kinds, e);
        nulls = rules::nulls(nulls, e);
        if !note(found, t, p, e) {
            return false;
        }
    }
    (nulls == 0) & (kinds <= 1)
}

// The walk: each entry of the nodes that it enters is noted for its quark. Tells how many nodes they are, if they keep R1 to R6 and no second one is found for a quark; else R7 is broken too.
// Where a node's way goes on is found before its entries are looked at: the next node's header is on its way from memory meanwhile. The loop stands in the single question too, which says why.
fn gather(nodes: &[u8], v: View, t: u64, attributes: u32, found: &mut [u32]) -> Option<u32>
    requires { Roomy v nodes.now × (attributes ≡ v.attributes) × (attributes ≤ length found.old) × (once attributes found.old ≡ true) }
    ensures told { is_some result ≡ (kept (walk_of nodes.now v t).rule && once attributes (found_all nodes.now v t found.old)) }
    ensures gathers { IfSome result (λ n. (n ≡ (walk_of nodes.now v t).entered) × (found.new ≡ found_all nodes.now v t found.old)) }
{
    let mut due = steps::root(v);
    let mut entered = 0;
    for level in (0..=v.level).rev() {
        let at = record::sound::stands_at(due.place.0, v.shape);
        let h = layout::read_header(nodes, at);
        if rules::broken(v, due, level, h).is_some() {
            return None;
        }
        let picked = steps::pick(nodes, at + layout::child_at(0), u32::from(h.children), t);
        let Ok(next) = steps::down_to(nodes, v, t, h, at, picked) else {
            return None;
        };
        let first = at + layout::entry_at(v.shape, 0);
        if !look(
            nodes,
            attributes,
            h,
            t,
            first,
            u32::from(h.intervals),
            found,
        ) {
            return None;
        }
        entered += 1;
        match next {
            Some(below) => due = below,
            None => break,
        }
    }
    Some(entered)
}

// An ongoing state that starts at or below t is noted.
#[tactic(auto, unfolding(crate::specs::Table::begun))]
fn begin(found: &mut [u32], q: u32, start: u64, t: u64)
    requires { q < length found.old }
    ensures { found.new ≡ begun q start t found.old }
{
    if start <= t {
        let i = q as usize;
        found[i] = ONGOING;
    }
}

// The ongoing entries are tested, and those that start at or below t noted, in one loop; once finished none is read.
fn note_ongoing(table: &[u8], v: View, t: u64, found: &mut [u32]) -> bool
    requires { (v.attributes ≤ length found.old) × (v.finished ≡ false → v.attributes ≤ length table.now / entry_size) }
    ensures fine { result ≡ every_quark (λ q. entry_fine v q table.now) v.attributes }
    ensures begins { result ≡ true → found.new ≡ all_begun v t table.now found.old }
{
    if v.finished {
        return true;
    }
    for q in 0..v.attributes {
        let o = transient::read_ongoing(table, Quark(q));
        if !transient::ongoing_sound(o, v.start, v.latest) {
            return false;
        }
        begin(found, q, o.start, t);
    }
    true
}

// R7 of the first n quarks, for none of which more than one was found. It goes on past a gap: without a way out of the loop the compiler tests several numbers at once.
fn all_one(found: &[u32], n: u32) -> bool
    requires { (n ≤ length found.now) × (once n found.now ≡ true) }
    ensures { result ≡ every_quark (λ q. shown (get_or found.now q 0)) n }
{
    let mut all = true;
    for s in &found[..n as usize] {
        all &= *s != 0;
    }
    all
}

// What answers for a quark: its ongoing state, or the entry that was found.
#[tactic(auto, unfolding(crate::specs::Table::entry_for, questions::specs::Single::table_entry))]
fn entry_for(nodes: &[u8], table: &[u8], q: u32, s: u32) -> Entry
    requires { Readable nodes.now table.now q s }
    ensures { result ≡ entry_for nodes.now table.now q s }
{
    if s == ONGOING {
        let o = transient::read_ongoing(table, Quark(q));
        return transient::ongoing_entry(Quark(q), o, u64::MAX);
    }
    layout::read_entry(nodes, (s - 1) as usize)
}

// Its quark and kind as one word.
fn name_for(nodes: &[u8], table: &[u8], q: u32, s: u32) -> u64
    requires { Readable nodes.now table.now q s }
    ensures { result ≡ entry_name (entry_for nodes.now table.now q s) }
{
    if s == ONGOING {
        let o = transient::read_ongoing(table, Quark(q));
        return u64::from(q) + 4294967296 * u64::from(o.kind);
    }
    layout::read_name(nodes, (s - 1) as usize)
}

// The first word of an entry is made in both branches by itself: so it comes out whole, and an entry is four stores instead of seven.
fn write_entries(nodes: &[u8], table: &[u8], found: &[u32], answer: &mut [u8], at: usize, n: u32)
    requires { (n ≤ length found.now) × (at + entry_size * n ≤ length answer.old) × ((q : ℕ) → q < n → Readable nodes.now table.now q (get_or found.now q 0)) }
    ensures { answer.new ≡ sets answer.old at (entries_from nodes.now table.now found.now 0 n) }
{
    for q in 0..n {
        let s = found[q as usize];
        let e = entry_for(nodes, table, q, s);
        let name = name_for(nodes, table, q, s);
        layout::put_named(answer, at + layout::ENTRY * (q as usize), name, e);
    }
}

// The ongoing entries, one walk for all attributes, R7; then, and only then, the entries are written, from index at of the answer on. Found is lent with nothing found yet.
// The attribute count is handed over by itself: an argument that stands in memory is compared there, and takes no register from the loop over the entries.
fn walked_in(
    v: View,
    t: u64,
    nodes: &[u8],
    table: &[u8],
    answer: &mut [u8],
    at: usize,
    attributes: u32,
    found: &mut [u32],
) -> Result<u32, Refusal>
    requires { Roomy v nodes.now × (attributes ≡ v.attributes) × (v.finished ≡ false → v.attributes ≤ length table.now / entry_size) × (at + entry_size * v.attributes ≤ length answer.old) × (v.attributes ≤ length found.old) × ((q : ℕ) → q < v.attributes → get_or found.old q 0 ≡ 0) }
    ensures { (said_all result ≡ walked_full v t nodes.now table.now) × (answer.new ≡ walked_written v t nodes.now table.now at answer.old) }
{
    if !note_ongoing(table, v, t, found) {
        return Err(Refusal::Damaged);
    }
    let Some(entered) = gather(nodes, v, t, attributes, found) else {
        return Err(Refusal::Damaged);
    };
    if !all_one(found, attributes) {
        return Err(Refusal::Damaged);
    }
    write_entries(nodes, table, found, answer, at, attributes);
    Ok(entered)
}

// What is found lies in an array of N numbers.
fn walked_with<const N: usize>(
    v: View,
    t: u64,
    nodes: &[u8],
    table: &[u8],
    answer: &mut [u8],
    at: usize,
) -> Result<u32, Refusal>
    requires { Roomy v nodes.now × (v.finished ≡ false → v.attributes ≤ length table.now / entry_size) × (at + entry_size * v.attributes ≤ length answer.old) × (v.attributes ≤ N) × (N ≤ 4096) }
    ensures { (said_all result ≡ walked_full v t nodes.now table.now) × (answer.new ≡ walked_written v t nodes.now table.now at answer.old) }
{
    let mut found = [0u32; N];
    walked_in(v, t, nodes, table, answer, at, v.attributes, &mut found)
}

// What was found lies in an array that is not much longer than the attributes are many: clearing all 4096 numbers would cost a small history more than the walk.
pub fn walked(
    v: View,
    t: u64,
    nodes: &[u8],
    table: &[u8],
    answer: &mut [u8],
    at: usize,
) -> Result<u32, Refusal>
    requires { Roomy v nodes.now × (v.finished ≡ false → v.attributes ≤ length table.now / entry_size) × (at + entry_size * v.attributes ≤ length answer.old) }
    ensures { (said_all result ≡ walked_full v t nodes.now table.now) × (answer.new ≡ walked_written v t nodes.now table.now at answer.old) }
{
    match v.attributes {
        0..=64 => walked_with::<64>(v, t, nodes, table, answer, at),
        65..=512 => walked_with::<512>(v, t, nodes, table, answer, at),
        _ => walked_with::<4096>(v, t, nodes, table, answer, at),
    }
}

// "query 3 record, 2, 7, 6, 3": no quark is named, so there is no 7. "the answer under 32 bytes per attribute" is 2 too.
pub fn full(
    h: &History,
    t: u64,
    nodes: &[u8],
    table: &[u8],
    answer: &mut [u8],
) -> Result<u32, Refusal>
    ensures { (said_all result ≡ full_of h.now t nodes.now table.now (length answer.old)) × (answer.new ≡ full_written h.now t nodes.now table.now answer.old) }
{
    h.admit(nodes.len(), table.len())?;
    let v = known::view_of(h);
    if answer.len() / layout::ENTRY < v.attributes as usize {
        return Err(Refusal::Short);
    }
    if !known::asked(v, t) {
        return Err(Refusal::Outside);
    }
    walked(v, t, nodes, table, answer, 0)
}
