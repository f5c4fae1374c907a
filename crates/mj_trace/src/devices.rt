// The table of what is asked of a session of a device: the word for it, and what the reply to it carries.

ghost use Rattle.std.specs.Prelude.{◌≡◌};
ghost use Rattle.mj_trace.specs.Devices.{device_word, timed_ask, given_by};

use mj_ask::DeviceAsk;
use mj_num::Num;

/// What a reply carries that is no word.
#[derive(Clone, Copy)]
pub(crate) enum Given {
    /// it is a word
    Nothing,
    /// a text
    Text,
    /// the code of a byte
    Code,
}

/// Gives the word for it.
pub(crate) fn device_word(ask: &DeviceAsk) -> &'static [u8]
    ensures { result.now ≡ device_word ask.now }
{
    match ask {
        DeviceAsk::Begin => b"begin".as_slice(),
        DeviceAsk::Write(_) => b"write".as_slice(),
        DeviceAsk::Line(_) => b"line".as_slice(),
        DeviceAsk::Byte(_) => b"byte".as_slice(),
        DeviceAsk::End => b"end".as_slice(),
    }
}

/// Gives what has this word, with this timeout where it may have one, unless that writes.
pub(crate) fn timed_ask(word: &[u8], timeout: Option<Num>) -> Option<DeviceAsk>
    ensures { result ≡ timed_ask word.now timeout }
{
    if word == b"begin".as_slice() {
        Some(DeviceAsk::Begin)
    } else if word == b"end".as_slice() {
        Some(DeviceAsk::End)
    } else if word == b"line".as_slice() {
        Some(DeviceAsk::Line(timeout))
    } else if word == b"byte".as_slice() {
        Some(DeviceAsk::Byte(timeout))
    } else {
        None
    }
}

/// Tells what a reply to it carries that is no word.
pub(crate) fn given_by(ask: &DeviceAsk) -> Given
    ensures { result ≡ given_by ask.now }
{
    match ask {
        DeviceAsk::Line(_) => Given::Text,
        DeviceAsk::Byte(_) => Given::Code,
        _ => Given::Nothing,
    }
}
