// The questions on a finished history for the page server, on plain numbers and byte slices.
#![tactic(auto)]

ghost use Rattle.std.specs.Prelude.{◌≡◌, true, length};
ghost use Rattle.record.specs.Refusals.{number_of};
ghost use Rattle.page.specs.Page.{finished_view, head_refusal, single_refusal, single_written, full_refusal, full_written};

use full_question::all;
use layout::{Quark, Seq, Shape};
use questions::one;
use record::Refusal;
use walk::{View, known};

// The view of a finished history.
#[tactic(auto, unfolding(crate::specs::Page::finished_view))]
fn finished_view(
    start: u64,
    latest: u64,
    attributes: u32,
    k: u32,
    c: u32,
    n: u32,
    used: u32,
    root: u32,
    level: u32,
) -> View
    ensures { result ≡ finished_view start latest attributes k c n used root level }
{
    View {
        shape: Shape { k, c, n },
        start,
        latest,
        attributes,
        used,
        root: Seq(root),
        level,
        finished: true,
    }
}

// The refusals before the walk.
#[tactic(auto, using(crate::proofs::Heads::sound_places, crate::proofs::Heads::sound_size), unfolding(crate::specs::Page::head_refusal))]
fn admit(
    v: View,
    nodes: usize,
    answer: usize,
    wants: usize,
    known: bool,
    t: u64,
) -> Result<(), Refusal>
    ensures { result ≡ head_refusal v nodes answer wants known t }
{
    if !known::view_sound(v) {
        return Err(Refusal::Damaged);
    }
    if !known::long_for(v, nodes, 0) | (answer < wants) {
        return Err(Refusal::Short);
    }
    if !known {
        return Err(Refusal::NoQuark);
    }
    if !known::asked(v, t) {
        return Err(Refusal::Outside);
    }
    Ok(())
}

// The two below differ in what they ask of the answer's length and of a quark, and in what writes the entries; what they have in common is `admit`.
#[tactic(auto, using(crate::proofs::Heads::head_long, crate::proofs::Heads::head_roomy))]
fn single_on(v: View, t: u64, quark: u32, nodes: &[u8], answer: &mut [u8]) -> Result<(), Refusal>
    ensures { (result ≡ single_refusal v t quark nodes.now (length answer.old)) × (answer.new ≡ single_written v t quark nodes.now answer.old) }
{
    admit(
        v,
        nodes.len(),
        answer.len(),
        8 + layout::ENTRY,
        quark < v.attributes,
        t,
    )?;
    let told = one::walked(v, t, Quark(quark), nodes)?;
    words::put(answer, 0, 8, u64::from(told.nodes));
    layout::put_entry(answer, 8, told.entry);
    Ok(())
}

#[tactic(auto, using(crate::proofs::Heads::head_long, crate::proofs::Heads::head_roomy, crate::proofs::Answers::written_length))]
fn full_on(v: View, t: u64, nodes: &[u8], answer: &mut [u8]) -> Result<(), Refusal>
    requires { v.finished ≡ true }
    ensures { (result ≡ full_refusal v t nodes.now (length answer.old)) × (answer.new ≡ full_written v t nodes.now answer.old) }
{
    admit(
        v,
        nodes.len(),
        answer.len(),
        8 + layout::ENTRY * v.attributes as usize,
        true,
        t,
    )?;
    let entered = all::walked(v, t, nodes, &[], answer, 8)?;
    words::put(answer, 0, 8, u64::from(entered));
    Ok(())
}

// "For the page server, written in Rust, both queries on a finished history are also exported on plain numbers and byte slices."
pub fn history_single(
    start: u64,
    latest: u64,
    attributes: u32,
    k: u32,
    c: u32,
    n: u32,
    used: u32,
    root: u32,
    level: u32,
    t: u64,
    quark: u32,
    nodes: &[u8],
    answer: &mut [u8],
) -> u32
    ensures { (result ≡ number_of (single_refusal (finished_view start latest attributes k c n used root level) t quark nodes.now (length answer.old))) × (answer.new ≡ single_written (finished_view start latest attributes k c n used root level) t quark nodes.now answer.old) }
{
    let v = finished_view(start, latest, attributes, k, c, n, used, root, level);
    record::number(single_on(v, t, quark, nodes, answer))
}

#[tactic(auto, unfolding(crate::specs::Page::finished_view))]
pub fn history_full(
    start: u64,
    latest: u64,
    attributes: u32,
    k: u32,
    c: u32,
    n: u32,
    used: u32,
    root: u32,
    level: u32,
    t: u64,
    nodes: &[u8],
    answer: &mut [u8],
) -> u32
    ensures { (result ≡ number_of (full_refusal (finished_view start latest attributes k c n used root level) t nodes.now (length answer.old))) × (answer.new ≡ full_written (finished_view start latest attributes k c n used root level) t nodes.now answer.old) }
{
    let v = finished_view(start, latest, attributes, k, c, n, used, root, level);
    record::number(full_on(v, t, nodes, answer))
}
