//! Reading in pieces of at most 16,384 bytes and writing in pieces of at most 65,536.

ghost use Rattle.std.specs.Prelude.{◌≡◌, [], IsSome, OnOk, OnErr};
ghost use Rattle.std.specs.Io.KnownBytes.{Appends};
ghost use Rattle.mv_base.specs.Holding.{Gets, KeepsLimit};
ghost use Rattle.mv_base.specs.Pieces.{AppendsSome};

use crate::store::{Got, StoreFault};
use std::io;
use std::io::{Read, Write};

/// The most bytes that one read moves. They come into a buffer on the stack, which may be small.
const READ_PIECE: usize = 16_384;

/// The most bytes that one write moves.
const WRITE_PIECE: usize = 65_536;

/// Reads what is left in `from`, at most `limit` bytes, to the end of the empty `to`. A read of 0 bytes is the end. One
/// byte more than `limit` shows that there is more, so there are at most `limit + 1` reads.
pub(crate) fn read_pieces<F: Read>(
    from: &mut F,
    limit: usize,
    to: &mut Vec<u8>,
) -> Result<Got, StoreFault>
    requires { to.old.items ≡ [] }
    ensures at_most_limit { KeepsLimit result limit to.new.items }
    ensures gets { IsSome (F.remaining from.old) → Gets result (F.remaining from.old) limit
        to.new.items }
{
    let mut piece = [0u8; READ_PIECE];
    while to.len() <= limit {
        let want = (limit - to.len()).min(READ_PIECE - 1) + 1;
        let taken = from.read(&mut piece[..want])?;
        if taken == 0 {
            return Ok(Got::Whole);
        }
        to.extend_from_slice(&piece[..taken])?;
    }
    Ok(Got::TooLong)
}

/// Writes all `bytes` to `to`. A write that takes nothing of a piece is an error. After an error the first few of the
/// bytes are written.
pub(crate) fn write_pieces<W: Write>(to: &mut W, bytes: &[u8]) -> io::Result<()>
    ensures ok { OnOk result (Appends (W.contents to.old) (W.contents to.new) bytes.now) }
    ensures err { OnErr result (AppendsSome (W.contents to.old) (W.contents to.new) bytes.now) }
{
    let mut rest = bytes;
    while !rest.is_empty() {
        let piece = &rest[..rest.len().min(WRITE_PIECE)];
        let taken = to.write(piece)?;
        if taken == 0 {
            return Err(io::Error::from(io::ErrorKind::WriteZero));
        }
        rest = &rest[taken..];
    }
    Ok(())
}
