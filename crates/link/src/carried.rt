ghost use Rattle.link.specs.Carried.{Carries};

// A body with its checksum is carried by a frame, and nothing else is.
pub fn frames_carry()
    ensures { Carries }
{}
