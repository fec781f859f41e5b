//! What holds of every frame, by the rules alone.

ghost use Rattle.jis_service.specs.Service.{SilenceChangesNothing};

// A frame that meets silence leaves the memory as it was.
pub fn silence_changes_nothing()
    ensures { SilenceChangesNothing }
{}
