//! Why a scenario is refused.
ghost use Rattle.std.specs.Prelude.{◌≡◌, ◌++◌, ◌∷◌, IfOk, codes};
ghost use Rattle.scenario.specs.Gives.{OrMemory};
ghost use Rattle.scenario.specs.Tree.{key_path, item_path};

use std::alloc::{AllocError, AllocFailed, Global};
use std::marker::Model;

/// What is wrong at a path.
#[derive(Clone, Copy, Debug, PartialEq, Eq)]
pub enum Reason {
    /// A key that has to be there is absent.
    Missing,
    /// The value is of another JSON type; a number that is no whole one of 0 or more counts as one.
    WrongType,
    /// A number of members or threads outside its limits, or a member that is none of the group.
    OutOfRange,
    /// A key that has no meaning there.
    UnknownKey,
    /// No payload: 1 to 256 characters 0x20 to 0x7e.
    BadText,
    /// No kind, or one that names a member that is none of the group.
    BadKind,
    /// No op.
    BadOp,
    /// More than 1,000 calls, or more than 32 changes.
    TooMany,
}

/// Where in a scenario: the keys and numbers that lead there.
#[derive(Drop)]
pub struct PathText {
    bytes: Vec<u8>,
}

impl Model for PathText {
    ghost use Rattle.std.specs.Prelude.{ℕ, List};

    ghost Value = { List ℕ };

    ghost view = { λ p. p.bytes.items };
}

impl PathText {
    /// The list of its bytes.
    pub fn bytes(&self) -> &[u8]
        ensures { result.now ≡ self.now }
    {
        self.bytes.as_slice()
    }
}

/// Why a scenario is refused: the first fault in reading order.
#[derive(Drop)]
pub enum ScenarioFault {
    /// More than 1,048,576 bytes.
    TooLong,
    /// No JSON text.
    NotJson,
    /// The first fault in reading order, with the keys and numbers that lead there.
    At { path: PathText, reason: Reason },
    /// A request for memory was refused.
    NoMemory,
}

impl From<AllocError> for ScenarioFault {
    ghost use Rattle.scenario.specs.declared.fault.ScenarioFault.TheVariants.{NoMemory};

    ghost from_gives = { λ _ e. e ≡ NoMemory };

    fn from(_refused: AllocError) -> ScenarioFault {
        ScenarioFault::NoMemory
    }
}

impl<T: Drop> From<AllocFailed<T>> for ScenarioFault {
    ghost use Rattle.scenario.specs.declared.fault.ScenarioFault.TheVariants.{NoMemory};

    ghost from_gives = { λ _ e. e ≡ NoMemory };

    fn from(_refused: AllocFailed<T>) -> ScenarioFault {
        ScenarioFault::NoMemory
    }
}

/// The fault at a path.
pub(crate) fn fault_at(alloc: Global, path: &[u8], reason: Reason) -> ScenarioFault
    ensures { OrMemory result (result ≡ ScenarioFault.At path.now reason) }
{
    match Vec::from_slice(alloc, path) {
        Ok(bytes) => ScenarioFault::At {
            path: PathText { bytes },
            reason,
        },
        Err(_) => ScenarioFault::NoMemory,
    }
}

/// The path of a key of the object at a path.
pub(crate) fn key_path(alloc: Global, path: &[u8], key: &str) -> Result<Vec<u8>, AllocError>
    ensures { IfOk result (λ text. text.items ≡ key_path path.now key.now) }
{
    let mut text = Vec::from_slice(alloc, path)?;
    text.push(b'/')?;
    text.extend_from_slice(key.as_bytes())?;
    Ok(text)
}

/// The fault at a key of the object at a path.
pub(crate) fn fault_at_key(alloc: Global, path: &[u8], key: &str, reason: Reason) -> ScenarioFault
    ensures { OrMemory result (result ≡ ScenarioFault.At (key_path path.now key.now) reason) }
{
    match key_path(alloc, path, key) {
        Ok(text) => fault_at(alloc, &text, reason),
        Err(_) => ScenarioFault::NoMemory,
    }
}

/// The path of the item of this number.
pub(crate) fn item_path(alloc: Global, path: &[u8], i: usize) -> Result<Vec<u8>, AllocError>
    ensures { IfOk result (λ text. text.items ≡ item_path path.now i) }
{
    let number = i.to_string(alloc)?;
    key_path(alloc, path, number.as_str())
}
