// Moving bytes to the front of a buffer.
ghost use Rattle.std.specs.Prelude.{◌≡◌, min, take, length};

/// Copies as many bytes as there are and fit to the front of `buf`, and says how many.
pub(crate) fn copy_front(bytes: &[u8], buf: &mut [u8]) -> usize
    ensures count { result ≡ min (length bytes.now) (length buf.old) }
    ensures copied { take result buf.new ≡ take result bytes.now }
{
    let count = bytes.len().min(buf.len());
    buf[..count].copy_from_slice(&bytes[..count]);
    count
}
