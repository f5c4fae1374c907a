// What a row that fails tells.

use std::str;
use std::test::Fail;

/// Fails where it isn't so, with what was tried and the lines that it came to.
pub fn hold(is: bool, tried: &str, lines: &[u8]) -> Result<(), Fail> {
    if is {
        return Ok(());
    }
    let lines = str::from_utf8(lines).unwrap_or("?");
    Err(Fail::new(format_args!("{tried} ({lines})")))
}
