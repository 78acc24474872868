//! Why a storm ended early.

use tf_main::RunFault;

/// A storm that ended before it counted what its workers stored, or whose lines couldn't be written.
#[derive(Debug, Drop)]
pub enum RunStormFault {
    /// A fault that a run of one script can have too.
    Run(RunFault),
    /// A thread couldn't be made. The workers that were started were joined, and nothing was written.
    NoThread,
}
