//! What a plan comes to whose work sheet is asked for.

use crate::load::Load;
use qc_run::Broken;
use qc_sheet::Sheet;

/// A feasible plan, whose work sheet is to be printed.
#[derive(Drop)]
pub struct Listed {
    pub load: Load,
    /// The order of each task's moves.
    pub sheet: Sheet,
}

/// What a plan comes to whose work sheet is asked for.
#[derive(Drop)]
pub enum Listing {
    /// The plan breaks a rule other than that of one way.
    Broken(Broken),
    /// The plan is feasible; its work sheet is to be printed.
    Listed(Listed),
}
