use umem_base::Text;
use umem_options::{Logging, Options};

/// What a run is asked for.
#[derive(Debug, Drop)]
pub struct Job {
    /// The name of the script's file.
    pub file: Text,
    /// The name of the file that gets a core of the run, if one does.
    pub core: Option<Text>,
    pub options: Options,
    /// The sizes of the logs that are kept beside its history.
    pub logging: Logging,
}
