ghost use Rattle.std.specs.Prelude.{◌≡◌, length};
ghost use Rattle.memory.specs.Memory.{block_size};
ghost use Rattle.system.specs.Identity.{system_code, idm, pupi, pmm, afi, fwi};

// Block 30: who the tag is. (A block's type shared with `Protection` is no plainer: it would put one more field before each range.)
#[derive(Clone, Copy, PartialEq, Eq, Debug)]
pub struct Identity {
    bytes: [u8; 16],
    ghost whole: { length bytes ≡ block_size },
}

impl Identity {
    pub fn new(block: &[u8; 16]) -> Identity
        ensures { result.bytes ≡ block.now }
    {
        Identity { bytes: *block }
    }

    // SC, the system code.
    pub fn system_code(&self) -> &[u8; 2]
        ensures { result.now ≡ system_code self.now.bytes }
    {
        self.bytes[0..2].as_array().unwrap()
    }

    // IDM, the manufacture identifier.
    pub fn idm(&self) -> &[u8; 8]
        ensures { result.now ≡ idm self.now.bytes }
    {
        self.bytes[2..10].as_array().unwrap()
    }

    // PUPI, by which Type B names the tag: the last four bytes of IDM.
    pub fn pupi(&self) -> &[u8; 4]
        ensures { result.now ≡ pupi self.now.bytes }
    {
        self.bytes[6..10].as_array().unwrap()
    }

    // PMM, the manufacture parameter.
    pub fn pmm(&self) -> &[u8; 2]
        ensures { result.now ≡ pmm self.now.bytes }
    {
        self.bytes[10..12].as_array().unwrap()
    }

    // AFI, the application family identifier.
    pub fn afi(&self) -> u8
        ensures { result ≡ afi self.now.bytes }
    {
        self.bytes[12]
    }

    // FWI, the frame waiting time integer.
    pub fn fwi(&self) -> u8
        ensures { result ≡ fwi self.now.bytes }
    {
        self.bytes[13] % 16
    }
}
