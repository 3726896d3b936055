//! Lists of threads by number. There are as many lists as were added, and a thread is in at most one of them. A list is a
//! ring of places: its head, its threads in order, and the head again.
#![tactic(auto)]

mod lists;
mod ring;

pub use lists::ThreadLists;
