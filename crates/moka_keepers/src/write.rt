//! A write of a key.

/// A write of a key: the value is put under it, or, where there is none, the key is taken out.
#[derive(Clone, Copy, PartialEq, Eq, Debug)]
pub struct Write {
    pub key: u32,
    pub value: Option<u32>,
}
