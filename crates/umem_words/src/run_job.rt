use umem_base::Text;
use umem_options::{Logging, Options};

/// A script is to be run.
#[derive(Debug, Drop)]
pub struct RunJob {
    /// The name of the script's file.
    pub script: Text,
    /// The name of the file for the core of the run.
    pub core: Option<Text>,
    pub options: Options,
    pub logging: Logging,
}
