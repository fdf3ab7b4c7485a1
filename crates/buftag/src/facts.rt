/// What is wrong with a chunk's bytes: its tag, the code of the size, the guard byte, the lower half of the
/// redzone word, the whole redzone word, and the pattern of its content.
#[derive(Clone, Copy)]
pub struct Facts {
    pub tag: bool,
    pub code: bool,
    pub guard: bool,
    pub low: bool,
    pub word: bool,
    pub pattern: bool,
}
