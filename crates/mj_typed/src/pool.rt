// The devices of a live run.

ghost use Rattle.std.specs.Prelude.{◌≡◌, [], IfOk, OnOk};
ghost use Rattle.std.specs.List.{before_first};
ghost use Rattle.mj_dev.specs.Shelves.{added};
ghost use Rattle.mj_files.specs.Named.{is_equals, with_principals, with_devices};
ghost use Rattle.mj_typed.specs.Named.{names_in};

use crate::live::Live;
use crate::typed::Typed;
use mj_dev::Pool;
use mj_files::{Port, Side, Trouble, put, read_device};
use mj_text::Text;
use std::alloc::{AllocError, Global};
use std::io::Read;
use std::rt::Files;

/// A pool of so many principal devices, of which the first gives the lines of this reader, and of the devices that these words name, in order. A word that
/// names none fails.
pub fn pool_of<R: Files + Copy + Drop, I: Read + Drop>(
    alloc: Global,
    files: R,
    principals: u32,
    reader: I,
    words: &[&str],
) -> Result<Pool<Live<R, I>>, Trouble>
    ensures { IfOk result (λ pool. pool ≡ with_devices (names_in words.now) (with_principals principals)) }
{
    let mut pool = Pool::new(alloc);
    add_principals(alloc, &mut pool, principals, reader)?;
    'words: for word in words {
        add_named(alloc, files, &mut pool, *word)?;
    }
    Ok(pool)
}

// Adds so many principal devices, of which the first gives the lines of this reader.
fn add_principals<R: Files + Drop, I: Read + Drop>(
    alloc: Global,
    pool: &mut Pool<Live<R, I>>,
    count: u32,
    reader: I,
) -> Result<(), AllocError>
    requires none { pool.old ≡ [] }
    ensures added { OnOk result (pool.new ≡ with_principals count) }
{
    let name = Text::from_number(alloc, 0);
    let mut first = Some(reader);
    'principals: for _ in 0..count {
        let device = match first.take() {
            Some(reader) => Live::Typed(Typed::new(alloc, reader)?),
            None => Live::Port(Port::of_lines(alloc, Vec::new(alloc))),
        };
        put(pool, &name, device)?;
    }
    Ok(())
}

// Adds the device that a word names.
fn add_named<R: Files + Drop, I: Read + Drop>(
    alloc: Global,
    files: R,
    pool: &mut Pool<Live<R, I>>,
    word: &str,
) -> Result<(), Trouble>
    ensures { OnOk result (pool.new ≡ added (before_first is_equals word.now) pool.old) }
{
    let Some(device) = read_device(alloc, word)? else {
        return Err(Trouble::Failed);
    };
    let path = device.file.to_owned(alloc)?;
    let port = match device.side {
        Side::In => Port::from_file(alloc, files, path),
        Side::Out => Port::to_file(alloc, files, path),
    };
    put(pool, &device.name, Live::Port(port))?;
    Ok(())
}
