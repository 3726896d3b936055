/// The limits of a run.
#[derive(Clone, Copy, Debug, PartialEq, Eq)]
pub struct Limits {
    /// The cells of 16 bytes that objects may take. An object takes one and one for each field, an array one and one for
    /// each element, a String one and one for each started eight of its units.
    pub heap_cells: u32,
    /// The threads that may be made.
    pub threads: u32,
    /// The entries that the history may have.
    pub events: u32,
}
