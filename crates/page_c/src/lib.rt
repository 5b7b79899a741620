// The questions of `page` for hosts written in C or Rust: include/history.h declares these two. A library exports nothing itself.
#![tactic(auto)]

ghost use Rattle.std.specs.Prelude.{◌≡◌, length};
ghost use Rattle.record.specs.Refusals.{number_of};
ghost use Rattle.page.specs.Page.{finished_view, single_refusal, single_written, full_refusal, full_written};

// "For the page server, written in Rust, both queries on a finished history are also exported on plain numbers and byte slices."
#[unsafe(no_mangle)]
pub extern "C" fn history_single(
    start: u64,
    latest: u64,
    attributes: u32,
    k: u32,
    c: u32,
    n: u32,
    used: u32,
    root: u32,
    level: u32,
    t: u64,
    quark: u32,
    nodes: &[u8],
    answer: &mut [u8],
) -> u32
    ensures { (result ≡ number_of (single_refusal (finished_view start latest attributes k c n used root level) t quark nodes.now (length answer.old))) × (answer.new ≡ single_written (finished_view start latest attributes k c n used root level) t quark nodes.now answer.old) }
{
    page::history_single(
        start, latest, attributes, k, c, n, used, root, level, t, quark, nodes, answer,
    )
}

#[unsafe(no_mangle)]
pub extern "C" fn history_full(
    start: u64,
    latest: u64,
    attributes: u32,
    k: u32,
    c: u32,
    n: u32,
    used: u32,
    root: u32,
    level: u32,
    t: u64,
    nodes: &[u8],
    answer: &mut [u8],
) -> u32
    ensures { (result ≡ number_of (full_refusal (finished_view start latest attributes k c n used root level) t nodes.now (length answer.old))) × (answer.new ≡ full_written (finished_view start latest attributes k c n used root level) t nodes.now answer.old) }
{
    page::history_full(
        start, latest, attributes, k, c, n, used, root, level, t, nodes, answer,
    )
}
