//! The copying that the sources in memory share; it gives no byte only at the end or into no room.
ghost use Rattle.std.specs.Prelude.{◌≡◌, ◌<◌, ◌≤◌, [], take, length};

/// Copies the front of what is left, at most `piece` bytes.
pub(crate) fn copy_front(left: &[u8], buf: &mut [u8], piece: usize) -> usize
    requires { 0 < piece }
    ensures bound { result ≤ length buf.new }
    ensures within { result ≤ length left.now }
    ensures piece { result ≤ piece }
    ensures copied { take result buf.new ≡ take result left.now }
    ensures end { result ≡ 0 → 0 < length buf.new → left.now ≡ [] }
{
    let count = left.len().min(buf.len()).min(piece);
    buf[..count].copy_from_slice(&left[..count]);
    count
}
