ghost use Rattle.command.specs.Laws.{AnswersReturn, CommandsReturn, RangesWithin};

// A command that is put together from its parts is taken apart to the same parts.
pub fn commands_return()
    ensures { CommandsReturn }
{}

// An answer gives back the data and the status that it was put together from.
pub fn answers_return()
    ensures { AnswersReturn }
{}

// No command reaches past the user blocks.
pub fn ranges_within()
    ensures { RangesWithin }
{}
