//! What comes of a plan in the middle of its work.

use qc_dispatch::Followed;
use qc_rest::Rest;
use qc_run::{Broken, NoRest};
use qc_sheet_command::Load;

/// A plan, and what happened by the log of its work.
pub struct Worked {
    pub load: Load,
    pub followed: Followed,
}

/// By hand, so that it is let go by one call wherever it is held.
impl Drop for Worked {
    fn drop(self) {
        let Worked {
            load: _,
            followed: _,
        } = self;
    }
}

/// What is left of a plan by its log.
pub struct Renewed {
    pub worked: Worked,
    pub rest: Rest,
}

/// By hand, so that it is let go by one call wherever it is held.
impl Drop for Renewed {
    fn drop(self) {
        let Renewed { worked: _, rest: _ } = self;
    }
}

/// What comes of a plan in the middle of its work.
#[derive(Drop)]
pub enum Renewing {
    /// A file couldn't be made or written.
    WriteFault,
    /// The plan breaks a rule other than that of one way.
    Broken(Broken),
    /// What is left can't be planned.
    NoRest(NoRest),
    /// The files of what is left are written.
    Renewed(Renewed),
}
