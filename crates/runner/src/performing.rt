ghost use Rattle.std.specs.Prelude.{◌≡◌, IfOk, MatchResult, replicate};
ghost use Rattle.tag.specs.History.{jis, type_b};
ghost use Rattle.tag.specs.View.{Called, Made};
ghost use Rattle.runner.specs.Lending.{Lent};
ghost use Rattle.runner.specs.Told.{Performed, PerformedAll};

use crate::call::{Answer, Call};
use memory::Store;
use std::alloc::{AllocError, Global};
use tag::Tag;

// Performs one call of any kind. For want of memory for its buffer the call is not made, and the tag stays as it was.
pub fn perform<S: Store>(
    heap: Global,
    tag: &mut Tag<S>,
    call: &Call<'_>,
) -> Result<Answer, AllocError>
    ensures { MatchResult result (λ a. Performed S.blocks tag.old call.now a tag.new) (λ _. tag.new ≡ tag.old) }
{
    match call {
        Call::FieldOn => {
            tag.field_on();
            Ok(Answer::Field)
        }
        Call::FieldOff => {
            tag.field_off();
            Ok(Answer::Field)
        }
        Call::BenchRead { block, into } => {
            let (result, buffer) = with_buffer(
                heap,
                tag,
                *into,
                |tag, out| tag.bench_read(*block, out),
            )?;
            Ok(Answer::Read { result, buffer })
        }
        Call::BenchWrite { block, bytes } => Ok(Answer::Written {
            result: tag.bench_write(*block, bytes),
        }),
        Call::BenchWritable => Ok(Answer::Figure {
            writable: tag.bench_writable(),
        }),
        Call::Jis { frame, into } => {
            let (result, buffer) = with_buffer(
                heap,
                tag,
                *into,
                |tag, reply|
                    ensures { Called S.blocks tag.old (jis frame.entry.now.now reply.old result reply.new) tag.new }
                { tag.jis_frame(frame, reply) },
            )?;
            Ok(Answer::Framed { result, buffer })
        }
        Call::TypeB { frame, into } => {
            let (result, buffer) = with_buffer(
                heap,
                tag,
                *into,
                |tag, reply|
                    ensures { Called S.blocks tag.old (type_b frame.entry.now.now reply.old result reply.new) tag.new }
                { tag.type_b_frame(frame, reply) },
            )?;
            Ok(Answer::Framed { result, buffer })
        }
        Call::BenchPerformed => Ok(Answer::Performed {
            count: tag.bench_performed(),
        }),
    }
}

// Makes a call on the tag with a buffer of `into` zeros, and hands the buffer back as the call left it.
fn with_buffer<S: Store, R: Drop, F: FnOnce(&mut Tag<S>, &mut [u8]) -> R + Drop>(
    heap: Global,
    tag: &mut Tag<S>,
    into: usize,
    call: F,
) -> Result<(R, Vec<u8>), AllocError>
    requires { F.IsAlwaysCallable call }
    ensures { MatchResult result (λ p. Lent F.FnOnce call tag.old (replicate into 0) p.0 tag.new p.1.items) (λ _. tag.new ≡ tag.old) }
{
    let mut buffer = vec![in heap; 0u8; into]?;
    let result = call(tag, buffer.as_mut_slice());
    Ok((result, buffer))
}

// Makes a tag over the store and performs the calls one after the other.
pub fn run<S: Store + Drop>(
    heap: Global,
    store: S,
    calls: &[Call<'_>],
) -> Result<(Tag<S>, Vec<Answer>), AllocError>
    ensures { IfOk result (λ p. PerformedAll S.blocks store calls.now p.1.items p.0) }
{
    let mut tag = Tag::new(store);
    let answers = perform_all(heap, &mut tag, calls)?;
    Ok((tag, answers))
}

// Performs the calls on a tag just made. A loop: `try_collect` takes its iterator by value, and no clause says how it leaves what a closure borrowed.
fn perform_all<S: Store>(
    heap: Global,
    tag: &mut Tag<S>,
    calls: &[Call<'_>],
) -> Result<Vec<Answer>, AllocError>
    ensures { IfOk result (λ v. (store : S) → Made S.blocks store tag.old → PerformedAll S.blocks store calls.now v.items tag.new) }
{
    let mut answers = Vec::new(heap);
    for call in calls {
        answers.push(perform(heap, tag, call)?)?;
    }
    Ok(answers)
}
