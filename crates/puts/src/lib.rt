// What the compiler puts: records and errors as bytes, where they go, and how a definition is called.

#![tactic(auto)]

pub mod calls; // calls.rt: the kinds of calls, and tail sets
pub mod put; // put.rt: records and errors, as far as there is room
pub mod state; // state.rt: the next number, and the offsets of both listings
