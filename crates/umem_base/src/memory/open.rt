/// Which file of a folder in memory is open, by its place.
#[derive(Clone, Copy, Debug)]
pub(crate) enum Open {
    Nothing,
    /// It is read, and its bytes up to `at` are gone.
    Read { file: usize, at: usize },
    Written { file: usize },
}
