// The two frame checksums of contactless tags: JIS X 6319-4, and CRC_B of ISO/IEC 14443 Type B.
// Both divide by x^16 + x^12 + x^5 + 1. They differ in the order of the bits, and so in the way the register moves.
#![tactic(auto)]

ghost use Rattle.std.specs.Prelude.{◌≡◌, ℕ, ◌*◌, ◌/◌, ◌%◌, ◌^◌, ◌-◌, ◌<◌, fold};
ghost use Rattle.checksum.specs.Checksum.{jis_checksum, crc_b, Residues, bit_at, bits_of, polynomial, mirrored};
ghost use Rattle.checksum.specs.Directions.{in_turn, step_by};

// The checksum of JIS X 6319-4, in the order in which it is sent.
pub fn jis(bytes: &[u8]) -> [u8; 2]
    ensures { result ≡ jis_checksum bytes.now }
{
    register::<Up>(bytes).to_be_bytes()
}

// The checksum CRC_B of Type B, in the order in which it is sent: the complement of the register.
pub fn type_b(bytes: &[u8]) -> [u8; 2]
    ensures { result ≡ crc_b bytes.now }
{
    (!register::<Down>(bytes)).to_le_bytes()
}

// Over a frame with its checksum the register ends at 0 for JIS X 6319-4 and, before the complement, at F0B8 for Type B.
pub fn residues_are_constant()
    ensures { Residues }
{}

// The way in which a register of 16 bits moves as one bit comes in and another leaves.
trait Direction {
    ghost START: { ℕ };

    ghost POLYNOMIAL: { ℕ };

    ghost stays: { ℕ → ℕ };

    ghost leaves: { ℕ → ℕ };

    ghost place: { ℕ → ℕ };

    const START: u16;

    // The terms of the polynomial, but for x^16: that is the bit that leaves.
    const POLYNOMIAL: u16;

    // What stays in the register, moved by one place.
    fn stays(register: u16) -> u16
        ensures { result ≡ stays register };

    // The bit that leaves the register.
    fn leaves(register: u16) -> u16
        ensures { result ≡ leaves register };

    // The bit of a byte that is sent at a turn.
    fn bit(byte: u8, turn: u8) -> u16
        requires { turn < 8 }
        ensures { result ≡ bit_at byte (place turn) };
}

// JIS X 6319-4: the highest bit leaves, and the high bit of a byte is sent first.
struct Up;

impl Direction for Up {
    ghost START = { 0 };

    ghost POLYNOMIAL = { polynomial };

    ghost stays = { λ r. (r * 2) % 2 ^ 16 };

    ghost leaves = { λ r. r / 2 ^ 15 };

    ghost place = { λ k. 7 - k };

    const START: u16 = 0;

    const POLYNOMIAL: u16 = 0x1021;

    fn stays(register: u16) -> u16 {
        register << 1
    }

    fn leaves(register: u16) -> u16 {
        register >> 15
    }

    fn bit(byte: u8, turn: u8) -> u16 {
        u16::from(byte >> (7 - turn)) % 2
    }
}

// Type B: the lowest bit leaves, and the low bit of a byte is sent first.
struct Down;

impl Direction for Down {
    ghost START = { 0xFFFF };

    ghost POLYNOMIAL = { mirrored };

    ghost stays = { λ r. r / 2 };

    ghost leaves = { λ r. r % 2 };

    ghost place = { λ k. k };

    const START: u16 = 0xFFFF;

    // x^k is bit 15 - k.
    const POLYNOMIAL: u16 = 0x8408;

    fn stays(register: u16) -> u16 {
        register >> 1
    }

    fn leaves(register: u16) -> u16 {
        register % 2
    }

    fn bit(byte: u8, turn: u8) -> u16 {
        u16::from(byte >> turn) % 2
    }
}

// The register after a message.
fn register<D: Direction>(bytes: &[u8]) -> u16
    ensures { result ≡ fold (step_by D.POLYNOMIAL D.stays D.leaves) D.START (bits_of (in_turn D.place) bytes.now) }
{
    bytes.iter().fold(D::START, |register, byte| after_byte::<D>(register, *byte))
}

// The register after the bits of `byte`.
fn after_byte<D: Direction>(register: u16, byte: u8) -> u16
    ensures { result ≡ fold (step_by D.POLYNOMIAL D.stays D.leaves) register (in_turn D.place byte) }
{
    (0..8).fold(register, |register, turn| {
        after_bit::<D>(register, D::bit(byte, turn))
    })
}

// One bit comes in as one leaves. Where the two differ, the polynomial is added to what stays.
fn after_bit<D: Direction>(register: u16, bit: u16) -> u16
    ensures { result ≡ step_by D.POLYNOMIAL D.stays D.leaves register bit }
{
    let stays = D::stays(register);
    if D::leaves(register) == bit {
        stays
    } else {
        stays ^ D::POLYNOMIAL
    }
}
