//! Tasks and their phases.

ghost use Rattle.std.specs.Prelude.{◌≡◌};
ghost use Rattle.qc_model.specs.Tasks.{phase_rank, phase_text, task_text};

use itoa::Buffer;
use qc_num::{Bay, Text, Tick};

/// A phase of the work at one hatch. The phases of a hatch are worked in this order.
#[derive(Clone, Copy, PartialEq, Eq)]
pub enum Phase {
    /// Discharge on deck, printed `DD`.
    DeckOut,
    /// Discharge in the hold, printed `DH`.
    HoldOut,
    /// Load in the hold, printed `LH`.
    HoldIn,
    /// Load on deck, printed `LD`.
    DeckIn,
}

impl Phase {
    /// Its place in the order of the work at a hatch, from 0.
    pub fn rank(self) -> u8
        ensures { result ≡ phase_rank self }
    {
        match self {
            Phase::DeckOut => 0,
            Phase::HoldOut => 1,
            Phase::HoldIn => 2,
            Phase::DeckIn => 3,
        }
    }

    /// How the phase is printed.
    pub fn text(self) -> &'static [u8; 2]
        ensures { result.now ≡ phase_text self }
    {
        match self {
            Phase::DeckOut => b"DD",
            Phase::HoldOut => b"DH",
            Phase::HoldIn => b"LH",
            Phase::DeckIn => b"LD",
        }
    }
}

/// All moves of one hatch and one phase, done once and without interruption by one crane.
#[derive(Clone, Copy, PartialEq, Eq)]
pub struct Task {
    /// The hatch's number in the ship file.
    pub hatch: u16,
    pub phase: Phase,
    /// The crane bay at which the task stands.
    pub bay: Bay,
    /// How long it takes, in ticks.
    pub ticks: Tick,
    /// The first tick at which it may start, 0 to 1,000,000.
    pub release: Tick,
}

/// The name of a task, as `2-DD`.
pub type TaskText = Text<8>;

impl Task {
    /// The task's name: its hatch, `-` and its phase.
    pub fn text(&self) -> TaskText
        ensures { result ≡ task_text self.now }
    {
        let mut text = Text::new();
        text.push(Buffer::new().format(self.hatch).as_bytes());
        text.push(b"-");
        text.push(self.phase.text());
        text
    }
}
