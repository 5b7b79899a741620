// The calls that change a history: on its record, which is lent and changed in place, and two lent buffers: the nodes, and the
// ongoing table of 32 bytes an entry. A call that is refused leaves all three as they came. Finish is in the crate `finishing` above, so that a check of
// either is short; what it comes to is defined here with the others (specs/Finish.antt).
#![tactic(auto)]

pub mod opening; // opening.rt: open
pub mod changing; // changing.rt: set, remove, increment
pub mod adding; // adding.rt: add
