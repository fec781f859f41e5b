//! Performs one list of calls on a tag over each store, and prints the answers: the law of memory holds of each run, with no premise.
#![tactic(auto)]

use anyhow::anyhow;
use printing::Line;
use runner::{Answer, Call, run};
use std::io::{BufWriter, Write};
use stores::{FlatStore, Load, LogStore};
use system::example_image;

// Reads and writes of any block, refused ones among them, the figure as the field goes on and off, and frames of both protocols.
const CALLS: &[Call<'static>] = &[
    Call::BenchWritable,
    Call::FieldOn,
    Call::BenchWritable,
    // the copy taken at field on rules, whatever block 31 says since
    Call::BenchWrite {
        block: 31,
        bytes: &[0xFF; 16],
    },
    Call::BenchWritable,
    Call::FieldOn,
    Call::BenchWritable,
    Call::FieldOff,
    Call::FieldOn,
    Call::BenchWritable,
    Call::FieldOff,
    Call::BenchWritable,
    Call::BenchWrite {
        block: 5,
        bytes: &[0x5A; 16],
    },
    Call::BenchRead { block: 5, into: 16 },
    Call::BenchRead { block: 4, into: 16 },
    Call::BenchRead { block: 6, into: 16 },
    Call::BenchWrite {
        block: 5,
        bytes: &[0xA5; 15],
    },
    Call::BenchWrite {
        block: 32,
        bytes: &[0xA5; 16],
    },
    Call::BenchWrite {
        block: 32,
        bytes: &[],
    },
    Call::BenchRead { block: 5, into: 17 },
    Call::BenchRead {
        block: 65535,
        into: 0,
    },
    // frames, once block 31 marks nothing
    Call::BenchWrite {
        block: 31,
        bytes: &[0x00; 16],
    },
    Call::FieldOn,
    // a REQ for any tag
    Call::Jis {
        frame: &[0x06, 0x00, 0xFF, 0xFF, 0x01, 0x00, 0x3A, 0x10],
        into: 256,
    },
    // a WRITE of block 6, and a READ of it
    Call::Jis {
        frame: &[
            0x20, 0x08, 0x01, 0x02, 0x03, 0x04, 0x05, 0x06, 0x07, 0x08, 0x01, 0x09, 0x00, 0x01,
            0x80, 0x06, 0x60, 0x61, 0x62, 0x63, 0x64, 0x65, 0x66, 0x67, 0x68, 0x69, 0x6A, 0x6B,
            0x6C, 0x6D, 0x6E, 0x6F, 0xB7, 0x53,
        ],
        into: 256,
    },
    Call::Jis {
        frame: &[
            0x10, 0x06, 0x01, 0x02, 0x03, 0x04, 0x05, 0x06, 0x07, 0x08, 0x01, 0x0B, 0x00, 0x01,
            0x80, 0x06, 0x79, 0x62,
        ],
        into: 256,
    },
    // of a block that the example tag had marked, since the copy is of the last field on
    Call::Jis {
        frame: &[
            0x10, 0x06, 0x01, 0x02, 0x03, 0x04, 0x05, 0x06, 0x07, 0x08, 0x01, 0x0B, 0x00, 0x01,
            0x80, 0x03, 0x29, 0xC7,
        ],
        into: 256,
    },
    // REQB, ATTRIB for frames of 64 bytes
    Call::TypeB {
        frame: &[0x05, 0x00, 0x00, 0x71, 0xFF],
        into: 256,
    },
    Call::TypeB {
        frame: &[
            0x1D, 0x05, 0x06, 0x07, 0x08, 0x00, 0x05, 0x01, 0x00, 0x99, 0xEA,
        ],
        into: 256,
    },
    // in ACTIVE no JIS frame is served
    Call::Jis {
        frame: &[0x06, 0x00, 0xFF, 0xFF, 0x01, 0x00, 0x3A, 0x10],
        into: 256,
    },
    // D6 of three bytes across blocks 5 and 6
    Call::TypeB {
        frame: &[
            0x02, 0x00, 0xD6, 0x00, 0x5F, 0x03, 0xA1, 0xA2, 0xA3, 0x84, 0xE2,
        ],
        into: 256,
    },
    // the same block asked for again
    Call::TypeB {
        frame: &[0xB3, 0x68, 0x77],
        into: 256,
    },
    Call::TypeB {
        frame: &[0xB2, 0xE1, 0x66],
        into: 256,
    },
    // B0 of 64 bytes, which goes out in two pieces
    Call::TypeB {
        frame: &[0x03, 0x00, 0xB0, 0x00, 0x40, 0x40, 0x0C, 0x9E],
        into: 256,
    },
    Call::TypeB {
        frame: &[0xA2, 0x60, 0x76],
        into: 256,
    },
    Call::TypeB {
        frame: &[0xA3, 0xE9, 0x67],
        into: 256,
    },
    Call::BenchPerformed,
    // DESELECT
    Call::TypeB {
        frame: &[0xC2, 0x66, 0x15],
        into: 256,
    },
    Call::BenchRead { block: 5, into: 16 },
    Call::BenchRead {
        block: 30,
        into: 16,
    },
    Call::BenchRead {
        block: 31,
        into: 16,
    },
];

fn main(rt: HostRuntime) -> anyhow::Result<()> {
    over::<FlatStore>(&rt, "over the flat store")?;
    over::<LogStore>(&rt, "over the log store")
}

fn over<S: Load + Drop>(rt: &HostRuntime, heading: &str) -> anyhow::Result<()> {
    rt.println(heading)?;
    let Ok(store) = S::load(&example_image()) else {
        return Err(anyhow!("the example image is refused"));
    };
    let (_tag, answers) = run(rt.alloc(), store, CALLS)?;
    let mut out = BufWriter::new(rt.alloc(), rt.stdout())?;
    for answer in answers.iter() {
        writeln!(out, "{}", Line(answer))?;
    }
    out.flush()?;
    Ok(())
}
