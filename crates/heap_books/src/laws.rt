//! What the definitions of this crate give, for who makes a core of a run.

ghost use Rattle.heap_books.specs.Fit.{FittingPlacesPicture};

/// A core that tells a run with places that fit pictures the run.
pub fn fitting_places_picture()
    ensures { FittingPlacesPicture }
{}
