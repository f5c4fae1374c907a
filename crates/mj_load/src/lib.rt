// Images: routines that are loaded together, each beside its p-code.
//
// `load` takes all of a list of routines, or refuses it where two have one name. A contract sees an image as a record of
// its routines, their units and the bounds of its jobs, and its type keeps that each unit does what its routine does, and that none lacks an
// operand where it needs one or leads out of its code (`specs/Image.antt`). `Image::has_break` tells a debugger at which lines to stop by
// itself.
#![tactic(auto)]

mod breaks;
mod image;
mod loading;

pub use image::Image;
pub use loading::{LoadError, load};
