// The bytes of a reader.

ghost use Rattle.std.specs.Prelude.{◌≡◌, ◌<◌, ◌≤◌, ◌^◌, length, take, OnOk, IfOk, IfSome};

use std::alloc::{AllocError, Global};
use std::io::{Error, ErrorKind, Read};

// The most reads after which a reader must have ended.
const READS_LIMIT: u64 = 1_000_000_000;

/// The most bytes that are read of what doesn't say that it has more. One more is what a vector that doubles its room has room for.
pub const BYTES_LIMIT: usize = (1 << 30) - 1;

/// Why a file wasn't opened or read.
#[derive(Drop)]
pub enum Trouble {
    /// the file system refused it, or there are too many bytes
    Failed,
    /// memory was refused
    Memory,
}

impl From<AllocError> for Trouble {
    ghost use Rattle.mj_files.specs.declared.bytes.Trouble.TheVariants as troubles;
    ghost use Rattle.std.specs.Prelude.{◌≡◌};

    ghost from_gives = { λ e r. r ≡ troubles.Memory };

    fn from(_: AllocError) -> Trouble {
        Trouble::Memory
    }
}

impl From<Error> for Trouble {
    ghost use Rattle.mj_files.specs.declared.bytes.Trouble.TheVariants as troubles;
    ghost use Rattle.std.specs.IoError.{error_kind};
    ghost use Rattle.std.specs.declared.io.ErrorKind.TheVariants as kinds;
    ghost use Rattle.std.specs.Prelude.{◌≡◌, ◌↔◌};

    ghost from_gives = { λ e r. (r ≡ troubles.Memory) ↔ (error_kind e ≡ kinds.OutOfMemory) };

    fn from(error: Error) -> Trouble {
        if error.kind() == ErrorKind::OutOfMemory {
            Trouble::Memory
        } else {
            Trouble::Failed
        }
    }
}

/// The first bytes that a reader has left: so many, or fewer where it has no more, as far as they are known.
pub fn front<R: Read>(alloc: Global, reader: &mut R, most: usize) -> Result<Vec<u8>, Trouble>
    ensures bytes { IfOk result (λ bytes. IfSome (R.remaining reader.old) (λ known. bytes.items ≡ take most known)) }
    ensures bound { IfOk result (λ bytes. length bytes.items ≤ most) }
{
    let mut bytes = Vec::new(alloc);
    let mut part = [0u8; 4096];
    for _ in 0..READS_LIMIT {
        let room = part.len().min(most - bytes.len());
        if room == 0 {
            return Ok(bytes);
        }
        match reader.read(&mut part[..room]) {
            Ok(0) => return Ok(bytes),
            Ok(count) => bytes.extend_from_slice(&part[..count])?,
            Err(error) if error.kind() == ErrorKind::Interrupted => {}
            Err(error) => return Err(Trouble::from(error)),
        }
    }
    Err(Trouble::Failed)
}

/// All bytes that a reader has left, as far as they are known. One that has more than so many fails.
pub fn whole<R: Read>(alloc: Global, reader: &mut R, most: usize) -> Result<Vec<u8>, Trouble>
    requires { most < 2 ^ 63 }
    ensures bytes { IfOk result (λ bytes. IfSome (R.remaining reader.old) (λ known. bytes.items ≡ known)) }
    ensures bound { IfOk result (λ bytes. length bytes.items ≤ most) }
{
    let bytes = front(alloc, reader, most + 1)?;
    if bytes.len() <= most {
        return Ok(bytes);
    }
    drop(bytes); // for the proof
    Err(Trouble::Failed)
}
