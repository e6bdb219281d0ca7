//! The worked cases of the definitions. The proof computes them.

ghost use Rattle.what_if.specs.Worked.{AreReferenceRows, AreUnevenRows};

fn worked_cases()
    ensures uneven { AreUnevenRows }
    ensures reference { AreReferenceRows }
{}
