//! Tests of those public calls of the libraries that no run of `jvt` shows, with values from the standard and from other tools. They are
//! in a crate of their own, since a crate with tests is proved twice.
#![tactic(auto)]

#[cfg(test)]
mod ascii;
#[cfg(test)]
mod asm_texts;
#[cfg(test)]
mod built_in_classes;
#[cfg(test)]
mod class_files;
#[cfg(test)]
mod counted;
#[cfg(test)]
mod edges;
#[cfg(test)]
mod instructions;
#[cfg(test)]
mod member_types;
#[cfg(test)]
mod memory;
#[cfg(test)]
mod permits;
#[cfg(test)]
mod plain_schedule;
#[cfg(test)]
mod schedules;
#[cfg(test)]
mod sleepers;
#[cfg(test)]
mod stack_map_frames;
#[cfg(test)]
mod storage;
#[cfg(test)]
mod texts;
#[cfg(test)]
mod thread_states;
#[cfg(test)]
mod traces;
#[cfg(test)]
mod waiting_threads;
