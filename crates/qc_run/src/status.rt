//! How a run ended.
ghost use Rattle.std.specs.Prelude.{◌≡◌};
ghost use Rattle.qc_run.specs.Texts.{status_code};

/// How a run ended. Each status has a report, and `code` gives the exit status.
#[derive(Clone, Copy, PartialEq, Eq)]
pub enum Status {
    /// The plan that was written is the best.
    Optimal,
    /// The command is through.
    Done,
    /// The words are no command.
    Usage,
    /// A file isn't there or couldn't be read.
    ReadFault,
    /// A file or the report couldn't be written.
    WriteFault,
    /// The ship file has a fault.
    BadShip,
    /// The stowage list has a fault.
    BadStow,
    /// The tree's file has a fault.
    BadTree,
    /// A plan's file has a fault.
    BadPlan,
    /// There was too little memory.
    OutOfMemory,
    /// There is no one-way schedule.
    Infeasible,
    /// The branchings are spent; a plan was found.
    BudgetPlan,
    /// The branchings are spent; no plan was found.
    BudgetNone,
    /// The plan breaks a rule.
    Broken,
    /// The plan holds, and the tree doesn't show that it is the best.
    Weaker,
    /// A file has more than 8,388,608 bytes.
    TooLarge,
    /// The log has a fault.
    BadLog,
    /// Two cranes were too near.
    Breach,
    /// A bay plan has a fault.
    BadBayPlan,
    /// The rest of a plan can't be planned.
    NoRest,
    /// The file of past tasks has a fault.
    BadPast,
}

impl Status {
    /// The exit status: 0 where the run came to what was asked for.
    pub fn code(&self) -> u8
        ensures { result ≡ status_code self.now }
    {
        match self {
            Status::Optimal | Status::Done => 0,
            Status::Usage => 2,
            Status::ReadFault => 3,
            Status::WriteFault => 4,
            Status::BadShip => 5,
            Status::BadStow => 6,
            Status::BadTree => 7,
            Status::BadPlan => 8,
            Status::OutOfMemory => 9,
            Status::Infeasible => 10,
            Status::BudgetPlan => 11,
            Status::BudgetNone => 12,
            Status::Broken => 13,
            Status::Weaker => 14,
            Status::TooLarge => 15,
            Status::BadLog => 17,
            Status::Breach => 18,
            Status::BadBayPlan => 19,
            Status::NoRest => 20,
            Status::BadPast => 21,
        }
    }
}
