ghost use Rattle.std.specs.Prelude.{◌≡◌};
ghost use Rattle.system.specs.Example.{example_image, example_identity, example_protection};

const IDENTITY: [u8; 16] = [
    0x12, 0xFC, 1, 2, 3, 4, 5, 6, 7, 8, 0x0B, 0x0C, 0x35, 0x04, 0, 0,
];

const PROTECTION: [u8; 16] = [0x08, 0, 0, 0x04, 0, 0, 0, 0, 0x18, 0, 0, 0, 0, 0, 0, 0];

// The image of the example tag.
pub fn example_image() -> [u8; 512]
    ensures { result ≡ example_image }
{
    let mut image = [0; 512];
    image[480..496].copy_from_slice(&IDENTITY);
    image[496..512].copy_from_slice(&PROTECTION);
    image
}
