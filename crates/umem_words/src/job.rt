use crate::make_job::MakeJob;
use crate::mdb_job::MdbJob;
use crate::run_job::RunJob;

/// What the words of a command line ask for.
#[derive(Debug, Drop)]
pub enum Job {
    Run(RunJob),
    Mdb(MdbJob),
    Make(MakeJob),
}
