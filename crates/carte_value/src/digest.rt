/// A SHA-256 digest (FIPS 180-4): of a value it is that of its spelling.
#[derive(Clone, Copy, Debug, PartialEq, Eq)]
pub struct Digest(pub [u8; 32]);
