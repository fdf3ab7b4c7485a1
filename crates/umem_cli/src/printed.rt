use umem_base::Text;

/// A core that is to be written: the name of its file, and its bytes.
#[derive(Debug, Drop)]
pub struct CoreFile {
    pub name: Text,
    pub bytes: Vec<u8>,
}

/// What a run gives out: its transcript, and its core where one is asked for.
#[derive(Debug, Drop)]
pub struct Printed {
    pub transcript: Text,
    pub core: Option<CoreFile>,
}
