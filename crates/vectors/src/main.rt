// Runs the published vectors of both checksums, a line for each.
#![tactic(auto)]

ghost use Rattle.std.specs.Prelude.{◌≡◌};
ghost use Rattle.checksum.specs.Checksum.{jis_checksum, crc_b};
ghost use Rattle.vectors.specs.declared.Protocol.TheVariants.{Jis, TypeB};

use anyhow::ensure;
use checksum::{jis, type_b};
use std::fmt;

enum Protocol {
    Jis,
    TypeB,
}

impl Protocol {
    fn checksum(&self, message: &[u8]) -> [u8; 2]
        ensures { result ≡ elim self.now [ Jis ↦ jis_checksum message.now | TypeB ↦ crc_b message.now ] }
    {
        match self {
            Protocol::Jis => jis(message),
            Protocol::TypeB => type_b(message),
        }
    }
}

impl fmt::Display for Protocol {
    fn fmt<W: fmt::Write>(&self, f: &mut fmt::Formatter<W>) -> fmt::Result {
        match self {
            Protocol::Jis => f.write_str("JIS"),
            Protocol::TypeB => f.write_str("Type B"),
        }
    }
}

struct Vector {
    protocol: Protocol,
    message: &'static [u8],
    published: [u8; 2],
}

impl Vector {
    fn agrees(&self) -> bool {
        self.protocol.checksum(self.message) == self.published
    }
}

impl fmt::Display for Vector {
    fn fmt<W: fmt::Write>(&self, f: &mut fmt::Formatter<W>) -> fmt::Result {
        let computed = self.protocol.checksum(self.message);
        write!(
            f,
            "{} {} gives {}",
            self.protocol,
            Hex(self.message),
            Hex(&computed)
        )?;
        if self.agrees() {
            Ok(())
        } else {
            write!(f, ", published {}", Hex(&self.published))
        }
    }
}

const VECTORS: &[Vector] = &[
    Vector {
        protocol: Protocol::Jis,
        message: &[0x06, 0x00, 0xFF, 0xFF, 0x00, 0x00],
        published: [0x09, 0x21],
    },
    Vector {
        protocol: Protocol::Jis,
        message: b"123456789",
        published: [0x31, 0xC3],
    },
    Vector {
        protocol: Protocol::TypeB,
        message: &[0x05, 0x00, 0x00],
        published: [0x71, 0xFF],
    },
    Vector {
        protocol: Protocol::TypeB,
        message: &[0x05, 0x00, 0x08],
        published: [0x39, 0x73],
    },
    Vector {
        protocol: Protocol::TypeB,
        message: &[0x10],
        published: [0xF9, 0xE0],
    },
    Vector {
        protocol: Protocol::TypeB,
        message: &[0x00, 0x00, 0x00],
        published: [0xCC, 0xC6],
    },
    Vector {
        protocol: Protocol::TypeB,
        message: &[0x0F, 0xAA, 0xFF],
        published: [0xFC, 0xD1],
    },
    Vector {
        protocol: Protocol::TypeB,
        message: &[0x0A, 0x12, 0x34, 0x56],
        published: [0x2C, 0xF6],
    },
    Vector {
        protocol: Protocol::TypeB,
        message: b"123456789",
        published: [0x6E, 0x90],
    },
];

// Bytes as they are printed: two digits each, a space between. (`printing` puts no spaces, and rests on the tag, which the checksums do not.)
#[derive(Drop)]
struct Hex<'a>(&'a [u8]);

impl<'a> fmt::Display for Hex<'a> {
    fn fmt<W: fmt::Write>(&self, f: &mut fmt::Formatter<W>) -> fmt::Result {
        for (i, byte) in self.0.iter().enumerate() {
            if i > 0 {
                f.write_str(" ")?;
            }
            write!(f, "{byte:02X}")?;
        }
        Ok(())
    }
}

fn main(rt: HostRuntime) -> anyhow::Result<()> {
    run(&rt)
}

fn run(rt: &impl Print) -> anyhow::Result<()> {
    for vector in VECTORS {
        println!(rt; "{vector}")?;
    }
    ensure!(VECTORS.iter().all(Vector::agrees), "a vector disagrees");
    println!(rt; "{} vectors agree", VECTORS.len())?;
    Ok(())
}
