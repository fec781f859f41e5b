ghost use Rattle.tag.specs.Runs.{RunsKeep};
ghost use Rattle.tag.specs.Traces.{CountsTold, RunsAreTraces, ShapeStays, TracesJoin, TracesKeep};

use memory::Store;

// Whatever calls led to a tag over a lawful store, refused ones among them, its memory and its answers are those that the calls tell.
pub fn runs_keep<S: Store>()
    ensures { RunsKeep {S = S} S.blocks }
{}

// The same of a tag of which no more is known than what it is, apart from how it keeps it, and the commands that it performed are
// those that the calls tell. Calls that follow calls are one trace, the count grows by the commands performed, and the memory
// keeps its shape.
pub fn traces_keep()
    ensures keep { TracesKeep }
    ensures join { TracesJoin }
    ensures counts { CountsTold }
    ensures shape { ShapeStays }
{}

// Whatever calls led to a tag over a store, they are a trace of what the tag is.
pub fn runs_are_traces<S: Store>()
    ensures { RunsAreTraces {S = S} S.blocks }
{}
