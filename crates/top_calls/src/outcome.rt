//! What is left when a command has ended: its status, the journal if there was a run, and the lines of the links.
use module_binding::Module;
use program_texts::Status;
use run_journal::Journal;

/// What the program did: how it ended, the journal of the run that it made or read, and the lines of a run with
/// threads, that of the link from `from` to `to` of n members at `from * n + to`, None where it could not be made.
#[derive(Drop)]
pub struct Outcome<L> {
    pub status: Status,
    pub journal: Option<Journal<Module>>,
    pub lines: Vec<Option<L>>,
}
