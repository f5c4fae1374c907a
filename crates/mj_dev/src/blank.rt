// What stands for devices where none is called, and pools of it.

ghost use Rattle.std.specs.Prelude.{◌≡◌, IfOk};
ghost use Rattle.mj_dev.specs.Pools.{shelves_of};

use crate::device::{Device, Did, Input};
use crate::pool::Pool;
use mj_text::Text;
use std::alloc::{AllocError, Global};

/// What stands for a device where none is called. It takes no memory.
#[derive(Clone, Copy)]
pub struct Blank;

impl Device for Blank {
    ghost use Rattle.std.specs.Prelude.{[]};

    ghost failures = { λ b. 0 };

    ghost taken = { λ b. [] };

    ghost given = { λ b. [] };

    ghost inside = { λ _. 0 };

    ghost IsTold = { λ _ _ _. Unit {0} };

    fn begin(&mut self) -> Did {
        Did::Memory
    }

    fn write(&mut self, bytes: &[u8]) -> Did {
        Did::Memory
    }

    fn read(&mut self) -> Input {
        Input::End
    }

    fn end(&mut self) -> Did {
        Did::Done
    }

    fn failures(&self) -> u64 {
        0
    }

    fn taken(&self) -> &[u8] {
        &[]
    }

    fn given(&self) -> &[Text] {
        &[]
    }
}

/// Makes a pool with so many sessions of each name; `Err` if memory, or room for so many of one name, is wanting.
pub fn pool_of(alloc: Global, counts: &[(Text, u32)]) -> Result<Pool<Blank>, AllocError>
    ensures { IfOk result (λ pool. pool ≡ shelves_of counts.now) }
{
    let mut pool = Pool::new(alloc);
    for count in counts {
        pool.add_many(&count.0, count.1)?;
    }
    Ok(pool)
}
