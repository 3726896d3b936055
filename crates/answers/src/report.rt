//! What a call answers.

use command_line::Why;
use history::Entry;

/// What a call did: why it returned, the one history that the run left, and how many bytes of the program's output and
/// of its error output the sinks took.
#[derive(Drop)]
pub struct Report {
    pub why: Why,
    pub history: Vec<Entry>,
    pub out_written: u64,
    pub err_written: u64,
}
