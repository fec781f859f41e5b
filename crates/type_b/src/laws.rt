ghost use Rattle.type_b.specs.Laws.{FramesDiffer, FramesReturn};

// A frame that is put together from its parts is taken apart to the same parts.
pub fn frames_return()
    ensures { FramesReturn }
{}

// No two kinds have the same frame, nor has one kind with other parts.
pub fn frames_differ()
    ensures { FramesDiffer }
{}
