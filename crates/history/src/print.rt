// What a record is answered, as text, by functions and not by `Display`: a full answer's text needs the answer's bytes and the attribute count beside it.
// "Each line: record number from 0, answer number." Plain decimal, one space between, a newline at the end.
ghost use Rattle.std.specs.Prelude.{◌≡◌, ◌*◌, ◌≤◌, ◌∷◌, length, IfSome, OnOk};
ghost use Rattle.std.specs.Io.KnownBytes.{Appends};
ghost use Rattle.layout.specs.Layout.{entry_size};
ghost use Rattle.record.specs.Refusals.{Nothing};
ghost use Rattle.questions.specs.Single.{said as said_single};
ghost use Rattle.full_question.specs.Full.{said_all};
ghost use Rattle.history.specs.Step.{EntriesOf, shown_in};
ghost use Rattle.history.specs.Text.{newline, state, answer_number, said, single, attribute, attributes, full, shown};

use crate::step::Shown;
use layout::Entry;
use questions::Answer;
use record::Refusal;
use std::fmt::Display;
use std::io;
use std::io::Write;

// A space, and the number, of either sign.
fn number<W: Write, N: Display + Drop>(out: &mut W, x: N) -> io::Result<()>
    ensures { IfSome (N.output x) (λ text. OnOk result (Appends (W.contents out.old) (W.contents out.new) (32 ∷ text))) }
{
    write!(out, " {x}")
}

fn newline<W: Write>(out: &mut W) -> io::Result<()>
    ensures { OnOk result (Appends (W.contents out.old) (W.contents out.new) newline) }
{
    out.write_all(b"\n")
}

// start, end, kind, value
#[tactic(auto, unfolding(crate::specs::Text::state))]
fn state<W: Write>(out: &mut W, e: Entry) -> io::Result<()>
    ensures { OnOk result (Appends (W.contents out.old) (W.contents out.new) (state e)) }
{
    number(out, e.start)?;
    number(out, e.end)?;
    number(out, e.kind)?;
    number(out, e.value)
}

fn answer_number<W: Write>(out: &mut W, i: usize, r: Result<(), Refusal>) -> io::Result<()>
    ensures { OnOk result (Appends (W.contents out.old) (W.contents out.new) (answer_number i r)) }
{
    write!(out, "{i}")?;
    number(out, record::number(r))
}

pub fn said<W: Write>(out: &mut W, i: usize, r: Result<(), Refusal>) -> io::Result<()>
    ensures { OnOk result (Appends (W.contents out.old) (W.contents out.new) (said i r)) }
{
    answer_number(out, i, r)?;
    newline(out)
}

// "Accepted single adds start, end, kind, value, nodes entered."
#[tactic(auto, unfolding(crate::specs::Text::single, questions::specs::Single::said, questions::specs::Single::refused_single))]
fn single<W: Write>(out: &mut W, i: usize, s: Result<Answer, Refusal>) -> io::Result<()>
    ensures { OnOk result (Appends (W.contents out.old) (W.contents out.new) (single i (said_single s))) }
{
    match s {
        Err(refusal) => said(out, i, Err(refusal)),
        Ok(a) => {
            answer_number(out, i, Ok(()))?;
            state(out, a.entry)?;
            number(out, a.nodes)?;
            newline(out)
        }
    }
}

// "a line per attribute: `=`, quark, start, end, kind, value"
fn attribute<W: Write>(out: &mut W, q: u64, e: Entry) -> io::Result<()>
    ensures { OnOk result (Appends (W.contents out.old) (W.contents out.new) (attribute q e)) }
{
    out.write_all(b"=")?;
    number(out, q)?;
    state(out, e)?;
    newline(out)
}

#[tactic(auto, unfolding(crate::specs::Text::attributes))]
fn attributes<W: Write>(out: &mut W, n: u64, answer: &[u8]) -> io::Result<()>
    requires { n * entry_size ≤ length answer.now }
    ensures { OnOk result (Appends (W.contents out.old) (W.contents out.new) (attributes n answer.now)) }
{
    for q in 0..n {
        let entry = layout::read_entry(answer, q as usize * layout::ENTRY);
        attribute(out, q, entry)?;
    }
    Ok(())
}

// "Accepted full adds nodes entered, then a line per attribute"
#[tactic(auto, unfolding(crate::specs::Text::full, full_question::specs::Full::said_all, full_question::specs::Full::refused_full))]
fn full<W: Write>(
    out: &mut W,
    i: usize,
    f: Result<u32, Refusal>,
    n: u64,
    answer: &[u8],
) -> io::Result<()>
    requires { (said_all f).refusal ≡ Nothing → n * entry_size ≤ length answer.now }
    ensures { OnOk result (Appends (W.contents out.old) (W.contents out.new) (full i (said_all f) n answer.now)) }
{
    match f {
        Err(refusal) => said(out, i, Err(refusal)),
        Ok(entered) => {
            answer_number(out, i, Ok(()))?;
            number(out, entered)?;
            newline(out)?;
            attributes(out, n, answer)
        }
    }
}

#[tactic(auto, unfolding(crate::specs::Text::shown, crate::specs::Step::EntriesOf))]
pub fn shown<W: Write>(out: &mut W, i: usize, x: Shown, n: u64, answer: &[u8]) -> io::Result<()>
    requires { EntriesOf (shown_in x) n (length answer.now) }
    ensures { OnOk result (Appends (W.contents out.old) (W.contents out.new) (shown i (shown_in x) n answer.now)) }
{
    match x {
        Shown::Said(r) => said(out, i, r),
        Shown::One(s) => single(out, i, s),
        Shown::All(f) => full(out, i, f, n, answer),
    }
}
