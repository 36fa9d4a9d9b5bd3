//! The theorem that replication rests on, over the definitions alone: each function's contract is one law.
//!
//! A target tablet that stands for the logs shows, at each time from its cutoff to the safe time of its places, the
//! rows of the logs at that time: the transactions committed by then, each in full, and none that commits later.
#![tactic(auto)]

ghost use Rattle.xc_record.specs.RangeLaws.{RangesHoldOnce, BoundsShareOut, RootsShareOut, OneRootHolds};
ghost use Rattle.xc_record.specs.RangeLaws.{ChildrenShareOut};
ghost use Rattle.xc_model.specs.Laws.{ReadsShowRows, ReadsShowLists, KeysSuffice, FirstCaseIsFound, StragglersAreFound};
ghost use Rattle.xc_model.specs.Laws.{NewStands, CutoffsKeepStanding, RestoresKeepReads, RestoredShowRows};
ghost use Rattle.xc_model.specs.Laws.{SafeTimeRises, KeptValuesSuffice, DeliveriesKeepStanding, BatchesKeepStanding};
ghost use Rattle.xc_model.specs.Laws.{BatchesMovePlaces, BatchesGrow, PartitionsShowRows, RestoredPartitionsShowRows};
ghost use Rattle.xc_model.specs.Laws.{SessionsStart, StepsKeepSessions, StepsKeepTimes, NamedTimesRise, FailoverCloses};
ghost use Rattle.xc_model.specs.Laws.{ClosedStays, CutoffsRise, StopsKeepPlaces, LinesNameSessions, ClosedTimesStay};

/// For logs that agree, a read at a time from the cutoff to what the tablet covers is the row of the logs at that time.
pub fn reads_show_rows()
    ensures { ReadsShowRows }
{}

/// The whole list of rows that a tablet shows is the list of the logs' rows at that time, in byte order, of the keys of
/// its range.
pub fn reads_show_lists()
    ensures { ReadsShowLists }
{}

/// In well-formed logs no disagreement is found exactly where no case of disagreement stands at any key.
pub fn keys_suffice()
    ensures { KeysSuffice }
{}

/// In well-formed logs the disagreement that is found is the first case that stands, and none is found exactly where
/// none stands.
pub fn first_case_is_found()
    ensures { FirstCaseIsFound }
{}

/// Tablet by tablet, a straggler is found exactly where one stands at some key.
pub fn stragglers_are_found()
    ensures { StragglersAreFound }
{}

/// One more accepted record of a source tablet that is started keeps a target tablet standing.
pub fn deliveries_keep_standing()
    ensures { DeliveriesKeepStanding }
{}

/// So do its accepted records from any number up to the next one on; those up to the place are skipped.
pub fn batches_keep_standing()
    ensures { BatchesKeepStanding }
{}

/// Whatever logs there are, a batch leaves the place at the greater of the old one and its last number, and all else of
/// other source tablets as it was.
pub fn batches_move_places()
    ensures { BatchesMovePlaces }
{}

/// A batch and one more record at its end are the longer batch.
pub fn batches_grow()
    ensures { BatchesGrow }
{}

/// The rows that tablets show whose ranges share out the hashes, merged in byte order of keys, are the rows of the
/// logs.
pub fn partitions_show_rows()
    ensures { PartitionsShowRows }
{}

/// So do those of tablets that were restored.
pub fn restored_partitions_show_rows()
    ensures { RestoredPartitionsShowRows }
{}

/// A new tablet of any range stands for all well-formed logs with its headers, from the cutoff 0.
pub fn new_tablets_stand()
    ensures { NewStands }
{}

/// A cutoff of at most what the tablet covers keeps it standing, at the greater cutoff.
pub fn cutoffs_keep_standing()
    ensures { CutoffsKeepStanding }
{}

/// After a restore to a time, reads and row lists at times up to it are as before.
pub fn restores_keep_reads()
    ensures { RestoresKeepReads }
{}

/// A restored tablet shows the rows of the logs from the cutoff to the time of the restore.
pub fn restored_tablets_show_rows()
    ensures { RestoredShowRows }
{}

/// The safe time doesn't fall as places rise, splits included.
pub fn safe_time_rises()
    ensures { SafeTimeRises }
{}

/// The least over the values that a tablet keeps for roots and for children of closed tablets is the safe time.
pub fn kept_values_suffice()
    ensures { KeptValuesSuffice }
{}

/// The session that nothing was asked of yet is one.
pub fn sessions_start()
    ensures { SessionsStart }
{}

/// Each command keeps the session: legal places, the cursor between the acknowledged place and the place, the cutoff at
/// most the safe time.
pub fn steps_keep_sessions()
    ensures { StepsKeepSessions }
{}

/// No command makes the safe time fall.
pub fn steps_keep_times()
    ensures { StepsKeepTimes }
{}

/// Along any list of commands no named time falls.
pub fn named_times_rise()
    ensures { NamedTimesRise }
{}

/// A failover of an open session closes it at its safe time, and changes nothing else.
pub fn failover_closes()
    ensures { FailoverCloses }
{}

/// A closed session stays as it is, whatever is asked of it.
pub fn closed_sessions_stay()
    ensures { ClosedStays }
{}

/// No command makes the cutoff fall.
pub fn cutoffs_rise()
    ensures { CutoffsRise }
{}

/// A poll that stops, and a restart, leave every place as it was.
pub fn stops_keep_places()
    ensures { StopsKeepPlaces }
{}

/// Each line of a command says what the session has after it.
pub fn lines_name_sessions()
    ensures { LinesNameSessions }
{}

/// Once a session is closed, each time that it names is the one that it was closed at.
pub fn closed_times_stay()
    ensures { ClosedTimesStay }
{}

/// Of ranges that share out a range, exactly one holds each of its hashes.
pub fn ranges_hold_once()
    ensures { RangesHoldOnce }
{}

/// Bounds within the rules share out all hashes.
pub fn bounds_share_out()
    ensures { BoundsShareOut }
{}

/// The roots of headers within the rules share out all hashes.
pub fn roots_share_out()
    ensures { RootsShareOut }
{}

/// So there is one root, and no other, that holds a hash.
pub fn one_root_holds()
    ensures { OneRootHolds }
{}

/// The two children of a tablet share out its range: the left one has the lower part.
pub fn children_share_out()
    ensures { ChildrenShareOut }
{}
