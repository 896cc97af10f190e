//! Reading to the end with a limit; one byte past it is taken, to tell a text at the limit from one that is too long.
ghost use Rattle.std.specs.Prelude.{◌≡◌, ◌<◌, ◌+◌, ◌^◌, ◌≤◌, IfOk};
ghost use Rattle.upd_base.specs.Edge.{HasCause};
ghost use Rattle.upd_io.specs.Whole.{ReadUpTo, TakesAtMost};

use std::alloc::Global;
use upd_base::{EdgeFault, Source};

/// Reads a source to its end, or to one byte past the limit, and takes no more from it, also where it fails.
pub fn read_all<S: Source>(
    alloc: Global,
    source: &mut S,
    limit: usize,
) -> Result<Vec<u8>, EdgeFault>
    requires { limit < 2 ^ 40 }
    ensures bytes { IfOk result (λ bytes. ReadUpTo (S.left source.old) (S.left source.new) limit bytes.items) }
    ensures taken { TakesAtMost (S.left source.old) (S.left source.new) (limit + 1) }
    ensures cause { HasCause (S.faults source.old) (S.faults source.new) result }
{
    let mut bytes = Vec::new(alloc);
    let mut chunk = [0u8; 4096];
    while bytes.len() <= limit {
        let room = (limit + 1 - bytes.len()).min(4096);
        let count = source.read(&mut chunk[..room])?;
        if count == 0 {
            return Ok(bytes);
        }
        if bytes.extend_from_slice(&chunk[..count]).is_err() {
            return Err(EdgeFault::NoMemory);
        }
    }
    Ok(bytes)
}
