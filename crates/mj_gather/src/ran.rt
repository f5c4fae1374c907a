// A job that a worker ran.

ghost use Rattle.std.specs.Prelude.{◌≡◌};
ghost use Rattle.mj_gather.specs.Rans.{IsRan, ArePlacesIn};

use mj_ask::{Ask, Reply};
use mj_jobvm::Places;
use mj_load::Image;
use mj_sys::Claim;
use std::marker::Model;

/// How a job stopped.
#[derive(Clone, Copy, PartialEq, Eq, Debug)]
pub enum Stop {
    /// its run is over
    Ended,
    /// the history of the system is full
    Full,
    /// memory was refused
    Memory,
    /// the system said that it isn't the claim's turn, nobody could answer what the job asked, or it asked behind its halt
    Refused,
}

/// A job that a worker ran: its claim, the image that it ran in, what it asked and was told, where its asks came from, and how it stopped.
#[derive(Drop)]
pub struct Ran<'a> {
    claim: Claim,
    image: &'a Image,
    log: Vec<(Ask, Reply)>,
    places: Places,
    stop: Stop,
}

impl<'a> Model for Ran<'a> {
    ghost use Rattle.std.specs.Coded.{codes};
    ghost use Rattle.mj_ast.specs.contracts.routine.Routine as routine;
    ghost use Rattle.mj_pcode.specs.contracts.instr.Unit as unit;
    ghost use Rattle.mj_gather.specs.Rans.{Kept, IsRan, ArePlacesIn};

    ghost Value = { Kept };

    ghost coded = { Prim.hlevel (codes, routine.the_row.coded, unit.the_row.coded) };

    ghost view = { λ r. record { claim = r.claim; image = r.image.now; log = r.log.items; places = r.places.places; stop = r.stop } };

    ghost invariant = { λ r. IsRan r.image.now r.claim r.log.items r.stop × ArePlacesIn r.image.now r.claim r.log.items r.places.places };
}

impl<'a> Ran<'a> {
    /// A job that stopped.
    pub fn new(
        claim: Claim,
        image: &'a Image,
        log: Vec<(Ask, Reply)>,
        places: Places,
        stop: Stop,
    ) -> Ran<'a>
        requires ran { IsRan image.now claim log.items stop }
        requires places { ArePlacesIn image.now claim log.items places.places }
        ensures { result ≡ record { claim = claim; image = image.now; log = log.items; places = places.places; stop = stop } }
    {
        Ran {
            claim,
            image,
            log,
            places,
            stop,
        }
    }

    /// The claim: the job's number, how it starts, and how many of its asks the system served.
    pub fn claim(&self) -> &Claim
        ensures { result.now ≡ self.now.claim }
    {
        &self.claim
    }

    /// The image that it ran in.
    pub fn image(&self) -> &Image
        ensures { result.now ≡ self.now.image }
    {
        self.image
    }

    /// What it asked and was told: a trace of the image's routines from its row's start, with as many asks that the system served as the claim counts. It is
    /// said to have ended only where its run is over.
    pub fn log(&self) -> &[(Ask, Reply)]
        ensures which { result.now ≡ self.now.log }
        ensures ran { IsRan self.now.image self.now.claim result.now self.now.stop }
    {
        self.log.as_slice()
    }

    /// Where what it asked came from, in order: as many places as the log has entries.
    pub fn places(&self) -> &Places
        ensures which { result.now.places ≡ self.now.places }
        ensures are { ArePlacesIn self.now.image self.now.claim self.now.log result.now.places }
    {
        &self.places
    }

    /// How it stopped.
    pub fn stop(&self) -> Stop
        ensures { result ≡ self.now.stop }
    {
        self.stop
    }
}
