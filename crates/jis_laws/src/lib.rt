//! Laws of JIS X 6319-4 frames: what is put together is taken apart to the same parts.
//! So the rules by which a frame is taken apart are not only the code's again.
#![tactic(auto)]

ghost use Rattle.jis_laws.specs.Laws.{AnswersReturn, CommandsReturn, ForeignSilent, FramesDiffer, NumbersReturn};

// The frame of a command gives back the parts that it was put together from.
pub fn commands_return()
    ensures { CommandsReturn }
{}

// The list of a command names the blocks of its elements, in order.
pub fn numbers_return()
    ensures { NumbersReturn }
{}

// No two commands have the same frame.
pub fn frames_differ()
    ensures { FramesDiffer }
{}

// A command for another tag is not taken.
pub fn foreign_silent()
    ensures { ForeignSilent }
{}

// The frame of a reply gives back the parts that it was put together from.
pub fn answers_return()
    ensures { AnswersReturn }
{}
