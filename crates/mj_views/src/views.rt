// Views of places that follow one another.

ghost use Rattle.std.specs.Prelude.{◌≡◌, ◌++◌, ◌∷◌, [], option_copied, OnOk, OnErr};
ghost use Rattle.mj_views.specs.Views.{view_at};

use crate::view::View;
use std::alloc::{AllocError, Global};
use std::marker::Model;

/// Views, each of the place behind that of the one before.
#[derive(Drop)]
pub struct Views {
    first: usize,
    views: Vec<View>,
}

impl Model for Views {
    ghost use Rattle.mj_views.specs.Views.{Window};

    ghost Value = { Window };

    ghost view = { λ v. record { first = v.first; views = v.views.items } };
}

impl Views {
    /// Makes an empty list of views, of which the first is to be that of place 0.
    pub fn none(alloc: Global) -> Views
        ensures { result ≡ record { first = 0; views = [] } }
    {
        Views {
            first: 0,
            views: Vec::new(alloc),
        }
    }

    /// Drops all views; the next one is to be that of this place.
    pub fn begin(&mut self, place: usize)
        ensures { self.new ≡ record { first = place; views = [] } }
    {
        self.views.clear();
        self.first = place;
    }

    /// Adds the view of the next place.
    pub fn push(&mut self, view: View) -> Result<(), AllocError>
        ensures ok { OnOk result (self.new ≡ record self.old { views = self.old.views ++ view ∷ [] }) }
        ensures err { OnErr result (self.new ≡ self.old) }
    {
        self.views.push(view)?;
        Ok(())
    }

    /// The view of a place, if there is one.
    pub fn at(&self, place: usize) -> Option<&View>
        ensures { option_copied result ≡ view_at self.now place }
    {
        if place < self.first {
            return None;
        }
        self.views.get(place - self.first)
    }

    /// Drops all views.
    pub fn clear(&mut self)
        ensures { self.new ≡ record self.old { views = [] } }
    {
        self.views.clear();
    }
}
