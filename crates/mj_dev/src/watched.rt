// A device that is watched.

use crate::device::{Device, Did, Input};
use mj_text::Text;

/// What watches a device, and is dropped with it: for tests, which count drops, or hold a job at a write.
pub trait Watch: Drop {
    /// The device is about to write.
    fn writes(&self);
}

/// A device that does as another does, and tells its watch of each write before.
#[derive(Drop)]
pub struct Watched<D: Device, W: Watch> {
    pub device: D,
    pub watch: W,
}

impl<D: Device, W: Watch> Device for Watched<D, W> {
    ghost failures = { λ w. D.failures w.device };

    ghost taken = { λ w. D.taken w.device };

    ghost given = { λ w. D.given w.device };

    ghost inside = { λ w. D.inside w.device };

    ghost IsTold = { λ w. D.IsTold w.device };

    fn begin(&mut self) -> Did {
        self.device.begin()
    }

    fn write(&mut self, bytes: &[u8]) -> Did {
        self.watch.writes();
        self.device.write(bytes)
    }

    fn read(&mut self) -> Input {
        self.device.read()
    }

    fn end(&mut self) -> Did {
        self.device.end()
    }

    fn failures(&self) -> u64 {
        self.device.failures()
    }

    fn taken(&self) -> &[u8] {
        self.device.taken()
    }

    fn given(&self) -> &[Text] {
        self.device.given()
    }
}
