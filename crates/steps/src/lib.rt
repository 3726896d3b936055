//! Steps of work, for bounds on what a call takes. They are counted in contracts alone: nothing of them is there at run time.
#![tactic(auto)]

mod steps;

pub use steps::Steps;
