//! Cutting the first line off the bytes that are left.
ghost use Rattle.std.specs.Prelude.{◌≡◌, ◌++◌, IfSome, IfNone};
ghost use Rattle.journal_file.specs.Text.{ended};
ghost use Rattle.journal_file.specs.Reading.{IsLine};

/// The first line without its end, and what follows it. None exactly where no line end is left.
pub(crate) fn front_line(bytes: &[u8]) -> Option<(&[u8], &[u8])>
    ensures some { IfSome result (λ parts. (bytes.now ≡ ended parts.0.now ++ parts.1.now) × IsLine parts.0.now) }
    ensures none { IfNone result (IsLine bytes.now) }
{
    let at = bytes.iter().position(|byte| *byte == b'\n')?;
    Some((&bytes[..at], &bytes[at + 1..]))
}
