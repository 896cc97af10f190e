//! The outcomes of the program, each with an exit status of its own: 0 when done, and 2 to 11.
use journal_file::JournalFault;
use scenario::ScenarioFault;
use upd_base::MemberId;

/// How the program ended.
#[derive(Drop)]
pub enum Status {
    /// A rehearsal or a run with threads is settled, a journal that was read is a run, or a scenario was generated, and its text
    /// was written whole.
    Done,
    /// The words are no command.
    Words,
    /// The source failed while it was read.
    SourceFailed,
    /// The sink failed while the text of a run or of a generated scenario was written.
    SinkFailed,
    /// The scenario is refused.
    Scenario(ScenarioFault),
    /// The line of this link failed in the run, or could not be made, and what is left could only be received over lines
    /// that are down.
    LineDown {
        from: MemberId,
        to: MemberId,
    },
    /// The run made as many events as the plan's bound and is not settled.
    TurnsSpent,
    /// The line of this link gave another byte than was put: `got` in the place of `put`, at this place of its bytes,
    /// counted from 0. What is left could only be received over lines that are down or lied.
    LineLied {
        from: MemberId,
        to: MemberId,
        at: u64,
        put: u8,
        got: u8,
    },
    /// A request for memory was refused.
    NoMemory,
    /// The journal's text is good, but this event, from 1, is the first that can't be made at its place or is answered
    /// otherwise.
    NotARun(u64),
    /// The text is no journal's. The fault is too long or a line.
    JournalRefused(JournalFault),
}

impl Status {
    ghost use Rattle.std.specs.Prelude.{◌≡◌};
    ghost use Rattle.program_texts.specs.Texts.{code_of};

    /// The program's exit status.
    pub fn code(&self) -> u8
        ensures { result ≡ code_of self.now }
    {
        match self {
            Status::Done => 0,
            Status::Words => 2,
            Status::SourceFailed => 3,
            Status::SinkFailed => 4,
            Status::Scenario(_) => 5,
            Status::LineDown { .. } => 6,
            Status::TurnsSpent => 7,
            Status::LineLied { .. } => 8,
            Status::NoMemory => 9,
            Status::NotARun(_) => 10,
            Status::JournalRefused(_) => 11,
        }
    }
}
