// What a system is made of.

ghost use Rattle.std.specs.Prelude.{[]};
ghost use Rattle.mj_sys.specs.Shared as shared;

use mj_ask::Start;
use mj_dev::{Device, Pool};
use mj_globs::Globals;
use std::marker::Brand;

/// What is shared when a system begins: the state that its history goes on from. A caller picks it where it names `Brand`.
pub trait Opening {
    ghost opening: { shared.Shared };
}

impl Opening for Brand {
    ghost opening = { record { globals = []; locks = []; devices = []; rows = []; transactions = [] } };
}

/// What a system was to be made of, where memory was refused for it.
#[derive(Drop)]
pub struct Unmade<D: Device> {
    pub globals: Globals,
    pub pool: Pool<D>,
    pub starts: Vec<Start>,
}
