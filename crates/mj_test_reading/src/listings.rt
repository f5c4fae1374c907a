// Listings: each front of one, and each with one byte replaced, is read or refused by its name; and the limits.

use crate::fronts::{Form, wrong_code, wrong_front};
use mj_gfile::read;
use mj_text::Limit;
use std::alloc::{AllocError, Global};
use std::test::Fail;

// A listing with each kind of name, of subscript and of text.
const LISTING: &str = "mj-globals 2
^%=\"\"
^A=\"20\"
^A(-5)=\"a\"\"b\\\\\\ff\"
^A(0,\"\\00\")=\"x\"
^A(1)=\"-7\"
^A(1,\"x\",2)=\"1\"
^A(999999999999999999)=\"long\"
^A(\"01\")=\"0\"
^A(\"1a\")=\"y\"
^A(\"a\"\"b\\\\c\\7f\")=\"\\0d\\0a\"
^B1(\"\\0a\")=\"z\"
^Zz9(-999999999999999999,\"-0\",\"~\")=\" !~\"
";

#[test]
fn each_front_of_a_listing_is_read_or_refused(rt: HostRuntime) -> Result<(), Fail> {
    let bytes = LISTING.as_bytes();
    assert!(rt; bytes.len() >= 200);
    assert!(rt; read(rt.alloc(), bytes, Limit::V2).is_ok());
    assert_eq!(rt; wrong_front(rt.alloc(), Form::Listing, bytes)?, None);
    Ok(())
}

// The place and the code of the first that is neither.
#[test]
fn a_listing_with_one_byte_replaced_is_read_or_refused(rt: HostRuntime) -> Result<(), Fail> {
    assert_eq!(rt; wrong_code(rt.alloc(), Form::Listing, LISTING, 0, 1)?, None);
    Ok(())
}

// A word has at most 31 bytes, and a name 31 subscripts. A text has at most 32,767 bytes in a listing of version 1 and 1,048,576 in one of version 2, and
// at most the limit that is handed in, as a value and as a subscript.
#[test]
fn what_is_over_a_limit_in_a_listing_is_refused(rt: HostRuntime) -> Result<(), Fail> {
    let two = "mj-globals 2\n";
    limits(rt.alloc(), Limit::V2, two, "^A|B|=\"x\"", 30)?;
    limits(rt.alloc(), Limit::V2, two, "^A(1|,1|)=\"x\"", 30)?;
    for text in ["^A=\"|x|\"", "^A(\"|x|\")=\"\""] {
        limits(rt.alloc(), Limit::V2, two, text, 1_048_576)?;
        limits(rt.alloc(), Limit::V1, two, text, 32_767)?;
        limits(rt.alloc(), Limit::V2, "mj-globals 1\n", text, 32_767)?;
        limits(rt.alloc(), Limit::V1, "mj-globals 1\n", text, 32_767)?;
    }
    Ok(())
}

// Fails where a line with so many of the middle one of its parts, which `|` parts, isn't read behind this header, or one with one more isn't refused.
fn limits(alloc: Global, limit: Limit, header: &str, parts: &str, most: usize) -> Result<(), Fail> {
    told(alloc, limit, line(alloc, header, parts, most)?, "read")?;
    let over = line(alloc, header, parts, most.saturating_add(1))?;
    told(alloc, limit, over, "G4 line 2")
}

fn told(alloc: Global, limit: Limit, text: String, wanted: &str) -> Result<(), Fail> {
    let said = outcome(alloc, limit, text.as_bytes());
    drop(text);
    let said = said?;
    if said.as_str() == wanted {
        return Ok(());
    }
    Err(Fail::new(format_args!("{said} in the place of {wanted}")))
}

fn outcome(alloc: Global, limit: Limit, bytes: &[u8]) -> Result<String, AllocError> {
    match read(alloc, bytes, limit) {
        Ok(globals) => {
            drop(globals);
            String::from_str(alloc, "read")
        }
        Err(refusal) => format!(in alloc; "{refusal}"),
    }
}

fn line(alloc: Global, header: &str, parts: &str, times: usize) -> Result<String, AllocError> {
    let mut text = String::from_str(alloc, header)?;
    for (place, part) in parts.split('|').enumerate() {
        let times = if place == 1 { times } else { 1 };
        for _ in 0..times {
            text.push_str(part)?;
        }
    }
    text.push_str("\n")?;
    Ok(text)
}
