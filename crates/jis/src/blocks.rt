ghost use Rattle.std.specs.Prelude.{◌≡◌, ◌≤◌, true, length};
ghost use Rattle.jis.specs.Elements.{sound, width};

// What is left of a block list that was taken apart: an iterator over the blocks that its elements name.
#[derive(Clone, Copy, Debug, PartialEq, Eq)]
pub struct Blocks<'a> {
    pub(crate) bytes: &'a [u8],
    pub(crate) left: usize,
    ghost few: { left ≤ 15 },
    ghost whole: { width left bytes.now ≡ length bytes.now },
    ghost each: { sound left bytes.now ≡ true },
}
