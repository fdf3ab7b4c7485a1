/// What an allocation asks of whole pages: the slot that gets the address, and the bytes.
#[derive(Clone, Copy, Debug, PartialEq, Eq)]
pub struct LargeRequest {
    pub slot: u32,
    pub size: u32,
}
