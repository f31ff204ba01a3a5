// Send and beacon by value, for callers in Rattle, thin over the send in place (a beacon over the send
// by value). Each accepts any input; what it promises is that of documents 01 and 02, for every
// argument.
#![tactic(auto)]

mod beacon;
mod send;

pub use beacon::panel_beacon;
pub use send::panel_send;
