//! What a list of moves comes to.

/// What is told of a list of moves.
#[derive(Clone, Copy)]
pub struct Figures {
    /// How many moves it has.
    pub moves: u64,
    /// How many containers only the first plan has.
    pub discharged: u64,
    /// How many only the second plan has.
    pub loaded: u64,
    /// How many both have, at different cells.
    pub restowed: u64,
    /// How many are lifted and put back where they stood.
    pub lifted: u64,
    /// How many aren't touched.
    pub staying: u64,
    /// How many of the second plan have no id of their own.
    pub unnamed: u64,
    /// How many in either plan are bundled with another at its place.
    pub bundled: u64,
    /// How many places in either plan hold something else.
    pub other: u64,
}

/// What a list of moves comes to once its files are read.
#[derive(Clone, Copy)]
pub enum MovesAnswer {
    /// The list couldn't be made or written.
    WriteFault,
    /// The list is written.
    Listed(Figures),
}
