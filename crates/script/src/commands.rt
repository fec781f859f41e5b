ghost use Rattle.std.specs.Prelude.{◌≡◌, []};
ghost use Rattle.script.specs.Words.{words_of, Gives};
ghost use Rattle.script.specs.Line.{told, filling, read_contents, read_tag, read_field, read_size, read_into, read_frame, read_bench_read, read_bench_write, read_bench, read_lone, read_command};

use crate::fault::Fault;
use crate::values::{push_hex, read_hex, read_number};
use crate::words::{Words, complete, is};
use crate::{Contents, Request, StoreKind};
use std::alloc::Global;

// Larger block numbers count as this one.
const LAST_BLOCK: u32 = 65535;

// The room that a read has where the line names none.
const USUAL_ROOM: usize = 16;

// The room that the reply to a frame has where the line names none.
const USUAL_REPLY_ROOM: usize = 256;

// More room than this counts as this.
const MOST_ROOM: u32 = 65536;

// The words are those after the command. The heap goes beside them, here and below, since only what has bytes needs one.
pub(crate) fn read_command(heap: Global, command: &[u8], words: Words<'_>) -> Result<Request, Fault>
    ensures { Gives told result (read_command command.now (words_of words.entry.rest.now)) }
{
    // No `match`: of its last arm, after five patterns of bytes, `search` and `grind` found no proof, also word by word.
    if is(command, b"tag") {
        read_tag(heap, words)
    } else if is(command, b"field") {
        read_field(words)
    } else if is(command, b"jis") {
        read_frame(heap, words).map(|(frame, into)| Request::Jis { frame, into })
    } else if is(command, b"b") {
        read_frame(heap, words).map(|(frame, into)| Request::TypeB { frame, into })
    } else if is(command, b"bench") {
        read_bench(heap, words)
    } else {
        read_lone(command, words)
    }
}

// The commands that are one word.
fn read_lone(command: &[u8], words: Words<'_>) -> Result<Request, Fault>
    ensures { Gives told result (read_lone command.now (words_of words.entry.rest.now)) }
{
    match command {
        b"performed" => complete(words, Request::Performed),
        b"writable" => complete(words, Request::Writable),
        b"dump" => complete(words, Request::Dump),
        _ => Err(Fault::UnknownCommand),
    }
}

fn read_tag(heap: Global, mut words: Words<'_>) -> Result<Request, Fault>
    ensures { Gives told result (read_tag (words_of words.entry.rest.now)) }
{
    let store = match words.next() {
        Some(b"flat") => StoreKind::Flat,
        Some(b"log") => StoreKind::Log,
        _ => return Err(Fault::TagStore),
    };
    let contents = read_contents(heap, words)?;
    Ok(Request::Tag { store, contents })
}

fn read_contents(heap: Global, mut words: Words<'_>) -> Result<Contents, Fault>
    ensures { Gives filling result (read_contents (words_of words.entry.rest.now)) }
{
    match words.next() {
        None => Ok(Contents::Zeros),
        Some(b"example") => complete(words, Contents::Example),
        Some(b"image") => Ok(Contents::Image(read_hex(heap, words)?)),
        Some(_) => Err(Fault::TagContents),
    }
}

fn read_field(mut words: Words<'_>) -> Result<Request, Fault>
    ensures { Gives told result (read_field (words_of words.entry.rest.now)) }
{
    match words.next() {
        Some(b"on") => complete(words, Request::FieldOn),
        Some(b"off") => complete(words, Request::FieldOff),
        _ => Err(Fault::FieldState),
    }
}

// The bytes of a frame, and the room for the reply to it. No `for`: over `words.by_ref()` three goals stayed open, at the words that are read on behind `into`.
fn read_frame(heap: Global, mut words: Words<'_>) -> Result<(Vec<u8>, usize), Fault>
    ensures { Gives (λ f. (f.0.items, f.1)) result (read_frame [] (words_of words.entry.rest.now)) }
{
    let mut frame = Vec::new(heap);
    while let Some(word) = words.next() {
        match word {
            b"into" => return Ok((frame, read_size(words)?)),
            digits => push_hex(&mut frame, digits)?,
        }
    }
    Ok((frame, USUAL_REPLY_ROOM))
}

fn read_bench(heap: Global, mut words: Words<'_>) -> Result<Request, Fault>
    ensures { Gives told result (read_bench (words_of words.entry.rest.now)) }
{
    match words.next() {
        Some(b"read") => read_bench_read(words),
        Some(b"write") => read_bench_write(heap, words),
        _ => Err(Fault::BenchAction),
    }
}

// The number is two lines, here and in two functions below: a function for them would have to say what it leaves of the words.
fn read_bench_read(mut words: Words<'_>) -> Result<Request, Fault>
    ensures { Gives told result (read_bench_read (words_of words.entry.rest.now)) }
{
    let word = words.next().ok_or(Fault::NumberMissing)?;
    let block = read_number(word, LAST_BLOCK)? as u16;
    let into = read_into(words)?;
    Ok(Request::BenchRead { block, into })
}

fn read_bench_write(heap: Global, mut words: Words<'_>) -> Result<Request, Fault>
    ensures { Gives told result (read_bench_write (words_of words.entry.rest.now)) }
{
    let word = words.next().ok_or(Fault::NumberMissing)?;
    let block = read_number(word, LAST_BLOCK)? as u16;
    let bytes = read_hex(heap, words)?;
    Ok(Request::BenchWrite { block, bytes })
}

// The room for the bytes of a read.
fn read_into(mut words: Words<'_>) -> Result<usize, Fault>
    ensures { result ≡ read_into (words_of words.entry.rest.now) }
{
    match words.next() {
        None => Ok(USUAL_ROOM),
        Some(b"into") => read_size(words),
        Some(_) => Err(Fault::NotInto),
    }
}

// The number that ends the line.
fn read_size(mut words: Words<'_>) -> Result<usize, Fault>
    ensures { result ≡ read_size (words_of words.entry.rest.now) }
{
    let word = words.next().ok_or(Fault::NumberMissing)?;
    let size = read_number(word, MOST_ROOM)?;
    complete(words, size as usize)
}
