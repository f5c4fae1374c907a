// Texts in a page.

ghost use Rattle.std.specs.Prelude.{◌≡◌, ◌++◌, OnOk};
ghost use Rattle.mj_describe.specs.Escaped.{escaped_byte, escaped};

use std::alloc::AllocError;

// Puts a byte to the end, spelled so that it means nothing to a browser.
fn put_byte(page: &mut Vec<u8>, byte: u8) -> Result<(), AllocError>
    ensures { OnOk result (page.new.items ≡ page.old.items ++ escaped_byte byte) }
{
    if byte == b'&' {
        page.extend_from_slice(b"&amp;")
    } else if byte == b'<' {
        page.extend_from_slice(b"&lt;")
    } else if byte == b'>' {
        page.extend_from_slice(b"&gt;")
    } else if byte == b'"' {
        page.extend_from_slice(b"&quot;")
    } else if byte == b'\n' || (31 < byte && byte < 127) {
        page.push(byte)?;
        Ok(())
    } else {
        page.extend_from_slice(b"?")
    }
}

/// Puts a text to the end of a page, spelled so that it means nothing to a browser.
pub(crate) fn put_escaped(page: &mut Vec<u8>, text: &[u8]) -> Result<(), AllocError>
    ensures { OnOk result (page.new.items ≡ page.old.items ++ escaped text.now) }
{
    for byte in text {
        put_byte(page, *byte)?;
    }
    Ok(())
}
