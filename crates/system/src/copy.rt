use crate::identity::Identity;
use crate::protection::Protection;

// The copy of blocks 30 and 31 that a tag takes when the field comes on.
#[derive(Clone, Copy, PartialEq, Eq, Debug)]
pub struct SystemCopy {
    pub identity: Identity,
    pub protection: Protection,
}
