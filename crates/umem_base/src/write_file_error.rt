/// Why a file was not written whole.
#[derive(Clone, Copy, Debug, PartialEq, Eq)]
pub enum WriteFile {
    /// The creation failed. All files are as before.
    NotCreated,
    /// A write failed. The file has a front of the bytes.
    NotWritten,
}
