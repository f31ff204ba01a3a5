// Receive, clock and set back by value, for callers in Rattle, thin over those in place (set back over
// `set_back`, as that in place is). Each accepts any input; what it promises is that of documents 01 and 02, for every argument.
#![tactic(auto)]

mod clock;
mod receive;
mod set_back;

pub use clock::panel_clock;
pub use receive::panel_receive;
pub use set_back::panel_set_back;
