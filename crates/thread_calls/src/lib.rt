//! What calls that concern threads have in common, in a program that runs and in a history that is run again: what a thread is made with, and
//! times and deadlines.
#![tactic(auto)]

mod clock;
mod creating;

pub use clock::{
    deadline_of, is_negative, is_over, is_reached, is_zero, millis_after, nano_time, park_deadline,
    reads_clock, time_millis,
};
pub use creating::{count_unnamed, first_daemon, name_of, number_object};
