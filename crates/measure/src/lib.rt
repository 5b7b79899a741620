// The library's calls and questions, many in one call, for tests/bench: a script is carried out on one history. Not part of the product's interface.
#![tactic(auto)]

ghost use Rattle.std.specs.Prelude.{◌≡◌, ◌+◌, ◌≤◌, ◌<◌, length};
ghost use Rattle.std.proofs.lemmas.List.Edits.{sets};
ghost use Rattle.calls.specs.Outcome.{Comes};
ghost use Rattle.measure.specs.Measure.{slot, call_of, state, step_of, played, measured, measure_of, finished_record, finished_of};

use calls::{adding, changing, opening};
use layout::{Entry, Quark, Shape};
use record::{History, Refusal};

// Where a call of the script stands: 32 bytes in the layout of an interval entry, its kind says which call it is, its start is the call's time.
const CALL: usize = 32;

// What is said to a call: the refusal's number and the nodes entered, four bytes each, and an entry, the answer's or, where there is none, the call's own.
const SAID: usize = 40;

// "A refusal returns its number with all other result numbers 0": the entry of a single question that is refused.
const NO_ENTRY: Entry = Entry {
    quark: Quark(0),
    kind: 0,
    start: 0,
    end: 0,
    value: 0,
};

// The two numbers are written as one word of eight bytes: a word can be one store, two numbers are two.
#[tactic(auto, using(crate::proofs::Calls::slot_put))]
fn say(said: &mut [u8], at: usize, r: Result<(), Refusal>, nodes: u32, e: Entry)
    requires { at + 40 ≤ length said.old }
    ensures { said.new ≡ sets said.old at (slot r nodes e) }
{
    let number = u64::from(record::number(r));
    words::put(said, at, 8, number + 4294967296 * u64::from(nodes));
    layout::put_entry(said, at + 8, e);
}

// Kinds 0 to 3 and the rest: set, remove, increment, add, finish. The kind stays a script's byte: an enum would be made by the same list of numbers.
#[tactic(auto, unfolding(crate::specs::Measure::call_of))]
fn call(h: &mut History, e: Entry, nodes: &mut [u8], table: &mut [u8]) -> Result<(), Refusal>
    ensures { Comes result h.new nodes.new table.new (call_of h.old e nodes.old table.old) }
{
    match e.kind {
        0 => changing::set(h, e.start, e.quark, e.value, nodes, table),
        1 => changing::remove(h, e.start, e.quark, nodes, table),
        2 => changing::increment(h, e.start, e.quark, nodes, table),
        3 => adding::add(h, nodes, table),
        _ => finishing::finish(h, e.start, nodes, table),
    }
}

// One call of the script: 6 a single question, 7 a full one; after 5, a finish, the script goes on from the record before it.
#[tactic(auto, unfolding(crate::specs::Measure::step_of, crate::specs::Measure::asks_one, crate::specs::Measure::asks_all, crate::specs::Measure::calls, crate::specs::Measure::call_of, questions::specs::Single::said, questions::specs::Single::refused_single, full_question::specs::Full::said_all, full_question::specs::Full::refused_full))]
fn step(
    h: &mut History,
    e: Entry,
    nodes: &mut [u8],
    table: &mut [u8],
    answer: &mut [u8],
    said: &mut [u8],
    at: usize,
)
    requires { at + 40 ≤ length said.old }
    ensures { state h.new nodes.new table.new answer.new said.new ≡ step_of e at (state h.old nodes.old table.old answer.old said.old) }
{
    match e.kind {
        6 => match questions::one::single(h, e.start, e.quark, nodes, table) {
            Ok(a) => say(said, at, Ok(()), a.nodes, a.entry),
            Err(refusal) => say(said, at, Err(refusal), 0, NO_ENTRY),
        },
        7 => match full_question::all::full(h, e.start, nodes, table, answer) {
            Ok(entered) => say(said, at, Ok(()), entered, e),
            Err(refusal) => say(said, at, Err(refusal), 0, e),
        },
        5 => {
            let mut g = *h;
            let r = finishing::finish(&mut g, e.start, nodes, table);
            say(said, at, r, 0, e);
        }
        _ => {
            let r = call(h, e, nodes, table);
            say(said, at, r, 0, e);
        }
    }
}

// The calls of the script in order, as far as there is room to say something to each.
fn play(
    h: &mut History,
    script: &[u8],
    nodes: &mut [u8],
    table: &mut [u8],
    answer: &mut [u8],
    said: &mut [u8],
)
    ensures { state h.new nodes.new table.new answer.new said.new ≡ played script.now (state h.old nodes.old table.old answer.old said.old) }
{
    let turns = (script.len() / CALL).min(said.len() / SAID);
    for i in 0..turns {
        let e = layout::read_entry(script, i * CALL);
        step(h, e, nodes, table, answer, said, i * SAID);
    }
}

// Opens a history and carries the script out on it. Returns the number that the opening answers; where it is refused, the record is zeros and every call of the script is refused too.
pub fn history_measure(
    start: u64,
    attributes: u32,
    k: u32,
    c: u32,
    n: u32,
    script: &[u8],
    nodes: &mut [u8],
    table: &mut [u8],
    answer: &mut [u8],
    said: &mut [u8],
) -> u32
    ensures { measured result nodes.new table.new answer.new said.new ≡ measure_of start attributes k c n script.now nodes.old table.old answer.old said.old }
{
    let shape = Shape { k, c, n };
    let mut h = History {
        shape,
        ..History::default()
    };
    let r = opening::open(start, attributes, shape, &mut h, nodes, table);
    play(&mut h, script, nodes, table, answer, said);
    record::number(r)
}

// The record of a finished history, as far as a question reads it.
fn finished(
    shape: Shape,
    start: u64,
    latest: u64,
    attributes: u32,
    used: u32,
    root: u32,
    top: u32,
) -> History
    requires { top < 16 }
    ensures { result ≡ finished_record start latest attributes shape used root top }
{
    let mut h = History {
        shape,
        start,
        latest,
        largest_end: latest,
        attributes: u64::from(attributes),
        used: u64::from(used),
        low: u64::from(top) + 1,
        top: u64::from(top),
        finished: true,
        ..History::default()
    };
    h.branch.places[top as usize] = u64::from(root);
    h
}

// Carries the script out on a finished history whose nodes are lent, so that questions can be timed alone. Returns 3, and does nothing, where its root's level is none of the sixteen.
#[tactic(auto, unfolding(crate::specs::Measure::finished_of))]
pub fn history_measure_finished(
    start: u64,
    latest: u64,
    attributes: u32,
    k: u32,
    c: u32,
    n: u32,
    used: u32,
    root: u32,
    level: u32,
    script: &[u8],
    nodes: &mut [u8],
    table: &mut [u8],
    answer: &mut [u8],
    said: &mut [u8],
) -> u32
    ensures { measured result nodes.new table.new answer.new said.new ≡ finished_of start latest attributes k c n used root level script.now nodes.old table.old answer.old said.old }
{
    if 15 < level {
        return 3;
    }
    let mut h = finished(
        Shape { k, c, n },
        start,
        latest,
        attributes,
        used,
        root,
        level,
    );
    play(&mut h, script, nodes, table, answer, said);
    0
}
