//! What is assembled keeps to the grammar of class files, in definitions and laws.
#![tactic(auto)]

mod laws;

pub use laws::{
    assembled_is_spelled, pools_stay_sound, sound_files_are_spelled, sound_pools_are_spelled,
};
