/// Which file of the system a folder has open, and what for.
#[derive(Drop)]
pub enum OpenFile<F> {
    Nothing,
    Read(F),
    Written(F),
}
