/// What a contents log knows of a freed buffer besides its bytes, and how many these are.
#[derive(Clone, Copy, Debug)]
pub struct SavedRecord {
    pub time: u64,
    pub chunk: u32,
    pub length: u32,
}
