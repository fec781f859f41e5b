ghost use Rattle.session.specs.Laws.{CommandsJoin, PiecesJoin, RepeatsSame};

// However a command was cut into INFs, it is performed as one.
pub fn commands_join()
    ensures { CommandsJoin }
{}

// The pieces in which an answer goes out are the answer again, none of them empty or too long.
pub fn pieces_join()
    ensures { PiecesJoin }
{}

// A block that is sent again is the block that was sent before.
pub fn repeats_same()
    ensures { RepeatsSame }
{}
