ghost use Rattle.xc_source_laws.specs.Finished.{GeneratedLogsAreWhole};
ghost use Rattle.xc_source_laws.specs.Workloads.{WorkloadsFit, NoCallIsRefused};

/// The commands of a generated workload are such as the other laws speak of.
pub fn workloads_fit()
    ensures { WorkloadsFit }
{}

/// No call of a generated workload of at most [`MOST_STEPS`](xc_source::MOST_STEPS) steps is refused.
pub fn no_call_is_refused()
    ensures { NoCallIsRefused }
{}

/// After a generated workload of at most [`MOST_STEPS`](xc_source::MOST_STEPS) steps, the commits of the logs are all
/// of the source's list, and the safe time at the ends of the logs is at or above each of them.
pub fn generated_logs_are_whole()
    ensures { GeneratedLogsAreWhole }
{}
