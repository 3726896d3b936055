use history::Entry;
use ref_model::Ending;

/// What a run leaves: the one history that it kept, what the program wrote to its two streams, and how the run ended. Where no thread can go
/// on, the numbers of the live ones are listed, rising; where pinned threads keep all others from going on, those, in the order of the carriers.
#[derive(Drop)]
pub struct Execution {
    pub history: Vec<Entry>,
    pub out: Vec<u8>,
    pub err: Vec<u8>,
    pub listed: Vec<u32>,
    pub ending: Ending,
}
