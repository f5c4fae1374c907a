// A device of a live run.

use crate::typed::Typed;
use mj_dev::{Device, Did, Input};
use mj_files::Port;
use mj_text::Text;
use std::io::Read;
use std::rt::Files;

/// A device over what is typed, or one of the program.
#[derive(Drop)]
pub enum Live<R: Files + Drop, I: Read + Drop> {
    /// over what is typed
    Typed(Typed<I>),
    /// one of the program
    Port(Port<R>),
}

impl<R: Files + Drop, I: Read + Drop> Device for Live<R, I> {
    ghost use Rattle.mj_typed.specs.declared.live.Live.TheVariants as lives;

    ghost failures = { λ d. elim d [ lives.Typed t ↦ t.failures | lives.Port p ↦ p.failures ] };

    ghost taken = { λ d. elim d [ lives.Typed t ↦ t.taken | lives.Port p ↦ p.taken ] };

    ghost given = { λ d. elim d [ lives.Typed t ↦ t.given | lives.Port p ↦ p.given ] };

    ghost inside = { λ _. 0 };

    ghost IsTold = { λ _ _ _. Unit {0} };

    fn begin(&mut self) -> Did {
        match self {
            Live::Typed(typed) => typed.begin(),
            Live::Port(port) => port.begin(),
        }
    }

    fn write(&mut self, bytes: &[u8]) -> Did {
        match self {
            Live::Typed(typed) => typed.write(bytes),
            Live::Port(port) => port.write(bytes),
        }
    }

    fn read(&mut self) -> Input {
        match self {
            Live::Typed(typed) => typed.read(),
            Live::Port(port) => port.read(),
        }
    }

    fn end(&mut self) -> Did {
        match self {
            Live::Typed(typed) => typed.end(),
            Live::Port(port) => port.end(),
        }
    }

    fn failures(&self) -> u64 {
        match self {
            Live::Typed(typed) => typed.failures(),
            Live::Port(port) => port.failures(),
        }
    }

    fn taken(&self) -> &[u8] {
        match self {
            Live::Typed(typed) => typed.taken(),
            Live::Port(port) => port.taken(),
        }
    }

    fn given(&self) -> &[Text] {
        match self {
            Live::Typed(typed) => typed.given(),
            Live::Port(port) => port.given(),
        }
    }
}
