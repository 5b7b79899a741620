// The program `history`: reads a feed from standard input, carries each record out, prints what it says.
#![tactic(auto)]

mod step; // step.rt: one record carried out
mod print; // print.rt: what a record is answered, as text

ghost use Rattle.std.specs.Prelude.{◌≡◌, ℕ, ◌≤◌, ◌<◌, length, take, IfOk, OnOk, OnErr};
ghost use Rattle.std.specs.Io.KnownBytes.{Consumes, IsAtEnd, Appends};
ghost use Rattle.history.specs.Step.{state_in, unopened, carried};
ghost use Rattle.history.specs.Printed.{held, held_in, answered, printed};

use feed::{Feed, Record};
use record::History;
use std::io;
use std::io::{Read, Write};

// Reads until buf is full or the input ends, and returns how many bytes it put at the start of buf. How many a read gives is known only then, so the loop is a `while`.
fn read_full<R: Read>(input: &mut R, buf: &mut [u8]) -> io::Result<usize>
    ensures in_bounds { IfOk result (λ n. n ≤ length buf.new) }
    ensures bytes { IfOk result (λ n. Consumes (R.remaining input.old) (R.remaining input.new) (take n buf.new)) }
    ensures end { IfOk result (λ n. n < length buf.new → IsAtEnd (R.remaining input.new)) }
    ensures failed { OnErr result ((n : ℕ) × (n ≤ length buf.new) × Consumes (R.remaining input.old) (R.remaining input.new) (take n buf.new)) }
{
    let mut done = 0;
    while done < buf.len() {
        let n = input.read(&mut buf[done..])?;
        if n == 0 {
            return Ok(done);
        }
        done += n;
    }
    Ok(done)
}

// Those of the history that is open.
#[tactic(auto, unfolding(calls::specs::Open::blank))]
fn attributes(current: &Option<History>) -> u64
    ensures { result ≡ (state_in current.now).history.attributes }
{
    match current {
        Some(h) => h.attributes,
        None => 0,
    }
}

// One record, carried out and answered.
fn turn<W: Write>(
    out: &mut W,
    i: usize,
    r: Record,
    current: &mut Option<History>,
    nodes: &mut [u8],
    table: &mut [u8],
    answer: &mut [u8],
) -> io::Result<()>
    ensures printed { OnOk result (Appends (W.contents out.old) (W.contents out.new)
        (answered i (carried r (state_in current.old) nodes.old table.old answer.old))) }
    ensures left { held (state_in current.new) nodes.new table.new answer.new
        ≡ held_in (carried r (state_in current.old) nodes.old table.old answer.old) }
{
    let x = step::carry_out(r, current, nodes, table, answer);
    print::shown(out, i, x, attributes(current), answer)
}

// The records of a feed one after the other.
fn run<W: Write>(
    out: &mut W,
    bytes: &[u8],
    nodes: &mut [u8],
    table: &mut [u8],
    answer: &mut [u8],
) -> io::Result<()>
    ensures { OnOk result (Appends (W.contents out.old) (W.contents out.new)
        (printed bytes.now (held unopened nodes.old table.old answer.old))) }
{
    let mut current = None;
    for (i, what) in Feed::new(bytes).enumerate() {
        match what {
            Ok(r) => turn(out, i, r, &mut current, nodes, table, answer)?,
            Err(refusal) => print::said(out, i, Err(refusal))?,
        }
    }
    Ok(())
}

// "with 32,768 node bytes and 64 table entries"; one byte more than the longest feed is read, to tell a longer one.
fn main(rt: HostRuntime) -> io::Result<()> {
    let mut bytes = [0u8; 65537];
    let mut nodes = [0u8; 32768];
    let mut table = [0u8; 2048];
    let mut answer = [0u8; 2048];
    let n = read_full(&mut rt.stdin(), &mut bytes)?;
    run(
        &mut rt.stdout(),
        &bytes[..n],
        &mut nodes,
        &mut table,
        &mut answer,
    )
}
