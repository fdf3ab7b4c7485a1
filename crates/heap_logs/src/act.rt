/// What an answered allocation or free did: it handed out or took back the chunk of that number, which begins at that
/// address.
#[derive(Clone, Copy, Debug, PartialEq, Eq)]
pub struct Act {
    pub chunk: u32,
    pub address: u64,
}
