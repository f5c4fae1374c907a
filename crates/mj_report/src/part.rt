// What one job wrote, beside others.

ghost use Rattle.std.specs.Prelude.{◌≡◌, ◌++◌, OnOk};
ghost use Rattle.mj_report.specs.Printed.{part, lacks_end};

use itoa::Buffer;
use std::alloc::AllocError;

/// Puts what a job wrote to the end of some bytes, behind a line with its number. Where memory is refused a part of it may stand there.
pub fn put_part(bytes: &mut Vec<u8>, job: u32, output: &[u8]) -> Result<(), AllocError>
    ensures { OnOk result (bytes.new.items ≡ bytes.old.items ++ part job output.now) }
{
    bytes.extend_from_slice(b"--- job ")?;
    bytes.extend_from_slice(Buffer::new().format(job).as_bytes())?;
    bytes.push(b'\n')?;
    bytes.extend_from_slice(output)?;
    if lacks_end(output) {
        bytes.push(b'\n')?;
    }
    Ok(())
}

// Whether there are bytes, and they don't end a line.
fn lacks_end(output: &[u8]) -> bool
    ensures { result ≡ lacks_end output.now }
{
    match output.last() {
        None => false,
        Some(byte) => *byte != b'\n',
    }
}
