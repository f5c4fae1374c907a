// An image.

ghost use Rattle.std.specs.Prelude.{◌≡◌, ◌<◌, All, None, []};
ghost use Rattle.mj_pcode.specs.Checked.{IsChecked};
ghost use Rattle.mj_compact.specs.Compact.{AreCompact};
ghost use Rattle.mj_load.specs.Image.{AreUnits, IsImage, IsWithinLimits, names_of, repeated};

use mj_ask::Bounds;
use mj_ast::Routine;
use mj_compact::Compact;
use mj_pcode::Unit;
use mj_text::Text;
use std::marker::Model;

/// Routines that are loaded together, with their p-code, and what jobs that run them are bound to.
#[derive(Drop)]
pub struct Image {
    routines: Vec<Routine>,
    units: Vec<Unit>,
    compacts: Vec<Compact>,
    words: Vec<Text>,
    bounds: Bounds,
}

impl Model for Image {
    ghost use Rattle.mj_ast.specs.contracts.routine.Routine as routine;
    ghost use Rattle.mj_pcode.specs.contracts.instr.Unit as unit;
    ghost use Rattle.std.specs.Coded.{codes};
    ghost use Rattle.mj_load.specs.Image.{Loaded, IsImage};

    ghost Value = { Loaded };

    ghost coded = { Prim.hlevel (codes, routine.the_row.coded, unit.the_row.coded) };

    ghost view = { λ i. record { routines = i.routines.items; units = i.units.items; bounds = i.bounds } };

    ghost use Rattle.mj_compact.specs.Compact.{AreCompact};

    ghost invariant = { λ i. IsImage (record { routines = i.routines.items; units = i.units.items; bounds = i.bounds })
        × AreCompact i.units.items i.compacts.items };
}

impl Image {
    /// The routines, in the order in which they were given.
    pub fn routines(&self) -> &[Routine]
        ensures { result.now ≡ self.now.routines }
    {
        self.routines.as_slice()
    }

    /// The p-code of each routine, in their order.
    pub fn units(&self) -> &[Unit]
        ensures which { result.now ≡ self.now.units }
        ensures are { IsImage self.now }
    {
        self.units.as_slice()
    }

    /// What is fused of the p-code of each routine, in their order.
    pub fn compacts(&self) -> &[Compact]
        ensures { AreCompact self.now.units result.now }
    {
        self.compacts.as_slice()
    }

    /// The words of locals, in the order in which a job's locals are to lie, so that what is fused finds them.
    pub fn words(&self) -> &[Text] {
        self.words.as_slice()
    }

    /// What jobs that run the routines are bound to.
    pub fn bounds(&self) -> Bounds
        ensures which { result ≡ self.now.bounds }
        ensures some { 0 < result.events }
    {
        self.bounds
    }

    /// The same routines, in runs of at most so many events.
    pub fn with_events(mut self, events: u32) -> Image
        requires { 0 < events }
        ensures { result ≡ record self { bounds = record self.bounds { events = events } } }
    {
        self.bounds.events = events;
        self
    }
}

/// An image of these routines and their units, with what is fused of them and its words.
pub fn make_image(
    routines: Vec<Routine>,
    units: Vec<Unit>,
    compacts: Vec<Compact>,
    words: Vec<Text>,
    bounds: Bounds,
) -> Image
    requires within { All IsWithinLimits routines.items }
    requires apart { repeated [] (names_of routines.items) ≡ None }
    requires code { AreUnits routines.items units.items }
    requires checked { All IsChecked units.items }
    requires compact { AreCompact units.items compacts.items }
    requires some { 0 < bounds.events }
    ensures { result ≡ record { routines = routines.items; units = units.items; bounds = bounds } }
{
    Image {
        routines,
        units,
        compacts,
        words,
        bounds,
    }
}
