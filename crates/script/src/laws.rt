ghost use Rattle.script.specs.Written.{WrittenLinesAreRead, ReadRequestsFit, FaultsAreOfLines, SpacesChangeNothing};

// A request that is written and then read comes back.
pub fn written_lines_are_read()
    ensures { WrittenLinesAreRead }
{}

// A request that is read has its numbers within their caps, so it is one that can be written.
pub fn read_requests_fit()
    ensures { ReadRequestsFit }
{}

// What is wrong with a line is never that memory ran out.
pub fn faults_are_of_lines()
    ensures { FaultsAreOfLines }
{}

// More spaces, and a carriage return at the end, change nothing.
pub fn spaces_change_nothing()
    ensures { SpacesChangeNothing }
{}
