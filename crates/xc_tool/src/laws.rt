// Laws of the whole outcome.
ghost use Rattle.xc_tool.specs.Headline.{ReplaysShowThePast};
ghost use Rattle.xc_tool.specs.Makes.{MadeLogsShowCommits};
ghost use Rattle.xc_tool.specs.Upgrades.{UpgradeKeepsLogs, UpgradeKeepsAudit};
ghost use Rattle.xc_tool.specs.Workloads.{WorkloadsShowCommits};

/// The text that an upgrade writes is read as the logs of the text that it was made from, so it has the same audit.
pub fn an_upgrade_keeps_the_audit()
    ensures logs { UpgradeKeepsLogs }
    ensures audit { UpgradeKeepsAudit }
{}

/// Whatever logs and script there are, a replay that isn't refused shows what the source committed. Each command is
/// answered by a line of its own, which names its tablet, time and key. Each read, scan and failover names a time t,
/// which is then the least last safe value over the source tablets that aren't closed, and shows the transactions
/// committed by t, each in full, and none that commits later. The times that are named never fall, and after a
/// failover they stay.
pub fn replays_show_the_past()
    ensures { ReplaysShowThePast }
{}

/// Whatever source script there is of which no command is refused, what is made of it is read as logs that agree and
/// that no record breaks, and up to the safe time at their ends their rows are those of the commits that the source
/// accepted, each in full, none later: what a replay of them shows.
pub fn made_logs_show_commits()
    ensures { MadeLogsShowCommits }
{}

/// Whatever number and size a workload has, the line that is printed of it says what its source committed: the tablets
/// agree, no record breaks an order rule, and the rows that it counts and digests are the fold of the commits up to the
/// safe time that it names, each in full, none later.
pub fn workloads_show_commits()
    ensures { WorkloadsShowCommits }
{}
