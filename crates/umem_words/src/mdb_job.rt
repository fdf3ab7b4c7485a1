use umem_base::Text;

/// Questions about a core are to be answered.
#[derive(Debug, Drop)]
pub struct MdbJob {
    /// The name of the core's file.
    pub core: Text,
}
