//! Reading byte strings that share the buffer that is read.
ghost use Rattle.std.specs.Prelude.{IfOk};
ghost use Rattle.blocks.specs.Format.{Gives, IsEndOf, bytes_at};

use block_types::BlockFault;
use bytes::Bytes;

/// As `bytes_of` where the bytes are the end of a buffer, which what was read shares.
pub(crate) fn shared_of<'a>(
    len: usize,
    text: &Bytes,
    bytes: &'a [u8],
) -> Result<(Bytes, &'a [u8]), BlockFault>
    requires { IsEndOf bytes.now text.now }
    ensures read { Gives (λ x. (x.0, x.1.now)) result (bytes_at len bytes.now) }
    ensures end { IfOk result (λ x. IsEndOf x.1.now text.now) }
{
    if bytes.len() < len {
        return Err(BlockFault::Damaged);
    }
    let from = text.len() - bytes.len();
    Ok((text.slice(from..from + len)?, &bytes[len..]))
}
