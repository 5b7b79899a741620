// One record of a feed carried out on the history that is open.
ghost use Rattle.std.specs.Prelude.{◌≡◌, List, ℕ, false};
ghost use Rattle.calls.specs.Open.{open_of};
ghost use Rattle.history.specs.Step.{Leaves, state_in, holding, after_open, opens, called, carried};

use calls::{adding, changing, opening};
use feed::Record;
use layout::Shape;
use questions::Answer;
use record::{History, Refusal};

// What there is to show of an answer: what a call said, a single question's entry, or how many nodes a full question entered.
#[derive(Clone, Copy, Debug, PartialEq, Eq)]
pub enum Shown {
    Said(Result<(), Refusal>),
    One(Result<Answer, Refusal>),
    All(Result<u32, Refusal>),
}

// "A second open starts anew; refused, it changes nothing." The shape is the record's that is read: no history has it yet.
fn begin(
    current: &mut Option<History>,
    start: u64,
    attributes: u32,
    shape: Shape,
    nodes: &mut [u8],
    table: &mut [u8],
) -> Shown
    ensures { (answer : List ℕ) → Leaves result current.new nodes.new table.new answer (after_open (state_in current.old) (open_of start attributes shape nodes.old table.old) answer) }
{
    let mut h = History::default();
    let opened = opening::open(start, attributes, shape, &mut h, nodes, table);
    if opened.is_ok() {
        *current = Some(h);
    }
    Shown::Said(opened)
}

// What a record that opens nothing does on the history that is open.
fn call(r: Record, h: &mut History, nodes: &mut [u8], table: &mut [u8], answer: &mut [u8]) -> Shown
    requires { opens r ≡ false }
    ensures { Leaves result (Some h.new) nodes.new table.new answer.new (called r (holding h.old) nodes.old table.old answer.old) }
{
    match r {
        Record::Open { .. } => unreachable!(),
        Record::Set { t, quark, value } => {
            Shown::Said(changing::set(h, t, quark, value, nodes, table))
        }
        Record::Remove { t, quark } => Shown::Said(changing::remove(h, t, quark, nodes, table)),
        Record::Increment { t, quark } => {
            Shown::Said(changing::increment(h, t, quark, nodes, table))
        }
        Record::Add => Shown::Said(adding::add(h, nodes, table)),
        Record::Finish { t } => Shown::Said(finishing::finish(h, t, nodes, table)),
        Record::Single { t, quark } => {
            Shown::One(questions::one::single(h, t, quark, nodes, table))
        }
        Record::Full { t } => Shown::All(full_question::all::full(h, t, nodes, table, answer)),
    }
}

// "15 no history open, tags 2 to 8": tested here, behind what the reader refuses and before anything that a call tests.
pub fn carry_out(
    r: Record,
    current: &mut Option<History>,
    nodes: &mut [u8],
    table: &mut [u8],
    answer: &mut [u8],
) -> Shown
    ensures { Leaves result current.new nodes.new table.new answer.new (carried r (state_in current.old) nodes.old table.old answer.old) }
{
    if let Record::Open {
        start,
        attributes,
        k,
        c,
        n,
    } = r
    {
        return begin(current, start, attributes, Shape { k, c, n }, nodes, table);
    }
    match current {
        None => Shown::Said(Err(Refusal::NotOpen)),
        Some(h) => call(r, h, nodes, table, answer),
    }
}
