//! The frames of a method's stack map, and what is known of a state by them (JVMS 4.10.1).
#![tactic(auto)]

mod entries;
mod flags;
mod frame;
mod frame_paths;
mod frame_state;
mod frames;
mod gathering;
mod known_state;
mod near;
mod overwritten;
mod path_fits;
mod pc_sets;
mod skips;
mod stack_map;
mod takes;
mod wanted;
mod watch;

pub use frame::Frame;
pub use frame_state::{first_frame, state_of};
pub use frames::Frames;
pub use known_state::{
    Fitted, Judged, KnownState, StateAfter, Stored, Written, holds_at, known_after,
};
pub use overwritten::{Like, Overwritten, are_assignable, like_behind, type_at};
pub use pc_sets::{PcSet, Span};
pub use stack_map::frames_of;
pub use wanted::{Slot, Want, Wanted};
pub use watch::{Around, are_same, types_around, watched};
