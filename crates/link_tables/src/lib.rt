//! The tables of a world: what the constants of instructions mean, where fields lie, where instructions begin, and main (JVMS 5.4, 6.5).
//! They are those that `link_model` defines.
#![tactic(auto)]

mod code_tables;
mod instance_fields;
mod known_resolutions;
mod main_method;
mod member_tables;
mod number_tables;
mod pc_tables;
mod places;
mod resolution_table;
mod resolutions;
mod sites;
mod tables;

pub use tables::Tables;
