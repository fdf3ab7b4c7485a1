/// A call that is made next: its thread, and its number, counted from 0 for each thread.
#[derive(Clone, Copy, Debug, PartialEq, Eq)]
pub struct Due {
    pub thread: u32,
    pub call: u32,
}
