// The scripts of `measure` for tests/bench, which is written in Rust. A library exports nothing itself. Not part of the product's interface.
#![tactic(auto)]

ghost use Rattle.std.specs.Prelude.{◌≡◌};
ghost use Rattle.measure.specs.Measure.{measured, measure_of, finished_of};

// Opens a history and carries the script out on it. Returns the number that the opening answers; where it is refused, the record is zeros and every call of the script is refused too.
#[unsafe(no_mangle)]
pub extern "C" fn history_measure(
    start: u64,
    attributes: u32,
    k: u32,
    c: u32,
    n: u32,
    script: &[u8],
    nodes: &mut [u8],
    table: &mut [u8],
    answer: &mut [u8],
    said: &mut [u8],
) -> u32
    ensures { measured result nodes.new table.new answer.new said.new ≡ measure_of start attributes k c n script.now nodes.old table.old answer.old said.old }
{
    measure::history_measure(
        start, attributes, k, c, n, script, nodes, table, answer, said,
    )
}

// Carries the script out on a finished history whose nodes are lent, so that questions can be timed alone. Returns 3, and does nothing, where its root's level is none of the sixteen.
#[unsafe(no_mangle)]
pub extern "C" fn history_measure_finished(
    start: u64,
    latest: u64,
    attributes: u32,
    k: u32,
    c: u32,
    n: u32,
    used: u32,
    root: u32,
    level: u32,
    script: &[u8],
    nodes: &mut [u8],
    table: &mut [u8],
    answer: &mut [u8],
    said: &mut [u8],
) -> u32
    ensures { measured result nodes.new table.new answer.new said.new ≡ finished_of start latest attributes k c n used root level script.now nodes.old table.old answer.old said.old }
{
    measure::history_measure_finished(
        start, latest, attributes, k, c, n, used, root, level, script, nodes, table, answer, said,
    )
}
