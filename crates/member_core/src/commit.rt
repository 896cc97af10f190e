//! The parts of a member's commit, one for each thing that changes; the room they need was made before.
ghost use Rattle.std.specs.Prelude.{◌≡◌, ◌<◌, ◌≤◌, ◌+◌, ◌-◌, ◌++◌, true, false, if◌then◌else◌, OnOk, is_some, length, option_to_list, set, unwrap_or, vec_len, vec_capacity};
ghost use Rattle.group_run.specs.Held.{without_ready};

use early_frames::Held;
use replacement::Repl;
use upd_base::{Entry, Log, NoMemory};

/// Where a held frame was processed, it is held no longer.
pub fn drop_ready(held: &mut Held, releases: bool, version: u16)
    ensures { held.new.frames ≡ (if releases then without_ready version held.old.frames else held.old.frames) }
{
    if releases {
        held.release(version);
    }
}

/// The module of a version is another one.
pub fn put<O: Drop>(modules: &mut Vec<O>, version: u16, next: O)
    requires { version < length modules.old.items }
    ensures items { modules.new.items ≡ set modules.old.items version next }
    ensures room { vec_capacity modules.new - vec_len modules.new ≡ vec_capacity modules.old - vec_len modules.old }
{
    modules[version as usize] = next;
}

/// Where there is a fresh module, it is bound above the others, into room that was made before.
pub fn bind<O: Drop>(modules: &mut Vec<O>, fresh: Option<O>)
    requires { is_some fresh ≡ true → 1 ≤ vec_capacity modules.old - vec_len modules.old }
    ensures { modules.new.items ≡ modules.old.items ++ option_to_list fresh }
{
    if let Some(module) = fresh {
        modules.push_reserved(module);
    }
}

/// The replacement is another one, where there is one.
pub fn renew(repl: &mut Repl, other: Option<Repl>)
    ensures { repl.new ≡ unwrap_or other repl.old }
{
    if let Some(other) = other {
        *repl = other;
    }
}

/// The entries go to the end of the log, which has room for them.
pub fn append(log: &mut Log, entries: Vec<Entry>)
    requires { length entries.items ≤ log.old.spare }
    ensures { log.new.entries ≡ log.old.entries ++ entries.items }
{
    for entry in entries {
        log.push_ready(entry);
    }
}

/// Makes room for a fresh module, where there is one.
pub fn reserve_for<O: Drop>(modules: &mut Vec<O>, fresh: &Option<O>) -> Result<(), NoMemory>
    ensures items { modules.new.items ≡ modules.old.items }
    ensures room { OnOk result (is_some fresh.now ≡ true → 1 ≤ vec_capacity modules.new - vec_len modules.new) }
{
    if fresh.is_some() {
        modules.reserve(1)?;
    }
    Ok(())
}
