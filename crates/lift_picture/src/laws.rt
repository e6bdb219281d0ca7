//! What holds of every picture.

ghost use Rattle.lift_picture.specs.Laws.{PictureLaws};

/// Every moment and every floor is drawn within the lines of floors and minutes. In a layer each line that
/// is due is drawn and no other. Of events of known cars each has one thick piece, with its car.
pub fn picture_laws()
    ensures { PictureLaws }
{}
