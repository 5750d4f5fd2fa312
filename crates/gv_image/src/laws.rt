ghost use Rattle.gv_image.specs.Laws.{FirstIsAccepted, OneFrame};

/// How long the image of a new guest with one frame is.
pub fn one_frame()
    ensures { OneFrame }
{}

/// The image of a new device is accepted.
pub fn new_devices_are_accepted()
    ensures { FirstIsAccepted }
{}
