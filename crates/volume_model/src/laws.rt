//! Laws of the model, stated with sets and whole runs.

ghost use Rattle.volume_model.specs.Live.{RecordsLive};
ghost use Rattle.volume_model.specs.Grounded.{CompletePointIsGreatest};
ghost use Rattle.volume_model.specs.Leading.{RecordAtIsFirst, CutIsGreatest, LogFoundLeadsDown};
ghost use Rattle.volume_model.specs.Points.{GroupPointIsGreatest, CompleteAndDurablePointsAreGreatest};
ghost use Rattle.volume_model.specs.Parts.{PartsOfLogs};
ghost use Rattle.volume_model.specs.Finds.{FindsLast, OneLineageAnEpoch};
ghost use Rattle.volume_model.specs.Found.{FoundIsReported, NewestIsNewest};
ghost use Rattle.volume_model.specs.Opens.{OpensAtItsCut};
ghost use Rattle.volume_model.specs.Few.{StepsAreFew};
ghost use Rattle.volume_model.specs.Orderly.{RunsAreOrderly};
ghost use Rattle.volume_model.specs.Reported.{ReportsWereMade};
ghost use Rattle.volume_model.specs.PieceLaws.{PiecesMakeUp, PiecesUnite, PiecesAreOfOne};
ghost use Rattle.volume_model.specs.Raised.{EachGroupIsRaised};
ghost use Rattle.volume_model.specs.PageBytes.{NodesRecordsInOrder, PagesByteByByte};
ghost use Rattle.volume_model.specs.NewGroups.{NewGroupsAreEmpty};
ghost use Rattle.volume_model.specs.WorkedPlans.{SixCopiesCertified, FullAndTailCertified, MemberReplacedCertified};

/// Proves when a record is live in a lineage whose epochs grow: exactly if its volume epoch has an entry, its LSN is
/// above that entry's start, and no later entry's cut is below its LSN.
pub fn records_live()
    ensures { RecordsLive }
{}

/// Proves that the complete point of a set of records is the greatest LSN whose chain of `prev_group` links leads
/// through the set down to 0. It is 0 if there is no such LSN.
pub fn complete_point_is_greatest()
    ensures { CompletePointIsGreatest }
{}

/// Proves that of several records with one LSN, the first in order of bytes is used.
pub fn record_at_is_first()
    ensures { RecordAtIsFirst }
{}

/// Proves that the cut is the greatest consistency point whose chain of `prev_volume` links leads down to 0. It is 0 if
/// there is none.
pub fn cut_is_greatest()
    ensures { CutIsGreatest }
{}

/// Proves that the log found is the chain of records from the cut down to 0, newest first.
pub fn log_found_leads_down()
    ensures { LogFoundLeadsDown }
{}

/// Proves that a group's point is raised to the greatest LSN that a write quorum has reached, and never falls.
pub fn group_point_is_greatest()
    ensures { GroupPointIsGreatest }
{}

/// Proves that the complete point is the greatest LSN of a log up to which each record is covered by its group's point,
/// and that the durable point is the greatest consistency point up to it. In every run the LSNs of each client's log
/// grow.
pub fn complete_and_durable_points_are_greatest()
    ensures { CompleteAndDurablePointsAreGreatest }
{}

/// Proves that the part of a log up to an LSN, and a group's part of it, have exactly the records that their names say.
/// The last LSN of a log, of a group, on a block, and of a group up to a limit, is the greatest one there.
pub fn parts_of_logs()
    ensures { PartsOfLogs }
{}

/// Proves that a recovery or a hydration finds exactly the live records of all reports.
pub fn found_is_reported()
    ensures { FoundIsReported }
{}

/// Proves that the newest lineage comes from one of the reports, and that no report has a later last volume epoch.
pub fn newest_is_newest()
    ensures { NewestIsNewest }
{}

/// Proves that a client that has cut keeps its lineage and its log found, whatever events follow.
pub fn finds_last()
    ensures { FindsLast }
{}

/// Proves that in every run, two lineages with the same last volume epoch are equal, whether nodes or clients hold them
/// or messages carry them.
pub fn one_lineage_an_epoch()
    ensures { OneLineageAnEpoch }
{}

/// Proves that a client's durable point is its cut when it opens.
pub fn opens_at_its_cut()
    ensures { OpensAtItsCut }
{}

/// Proves that in every run the epochs of each lineage grow, and each record's links lead to smaller LSNs. The laws on
/// live records, complete points and cuts assume this.
pub fn runs_are_orderly()
    ensures { RunsAreOrderly }
{}

/// Proves that in every run each report that a client keeps, and each piece that a node keeps of a copy or of an
/// install, is in a message that was made. So the law on orderly runs applies to them too.
pub fn reports_were_made()
    ensures { ReportsWereMade }
{}

/// Proves that no piece has more records than it may, and that all pieces together have the records that were cut, in
/// whatever order they came. The number of kept pieces says whether all are kept.
pub fn pieces_make_up()
    ensures { PiecesMakeUp }
{}

/// Proves that what pieces hold together doesn't depend on their order, and that the records of complete copies may be
/// united copy by copy.
pub fn pieces_unite()
    ensures { PiecesUnite }
{}

/// Proves that in every run the pieces that a node keeps of a sender's copy were cut from one list, and those of an
/// install from what the client of that volume epoch installs.
pub fn pieces_are_of_one()
    ensures { PiecesAreOfOne }
{}

/// Proves that the plan of six copies is certified: one group whose members are 0 to 5, of which three read and four
/// write.
pub fn six_copies_certified()
    ensures { SixCopiesCertified }
{}

/// Proves that the plan of full and tail segments is certified: three of six members keep whole pages, and each read
/// quorum has one of these.
pub fn full_and_tail_certified()
    ensures { FullAndTailCertified }
{}

/// Proves that the plan in which a member is replaced, by a step that is kept or reverted, is certified.
pub fn member_replaced_certified()
    ensures { MemberReplacedCertified }
{}

/// Proves how many messages a client's step makes at most: an `Issue` one for each change; a `Take` or a `Cut` one for
/// each group and one for each 256 records of the log found; a `Resend` or a `Read` one. The log found has no more
/// records than the reports hold.
pub fn steps_are_few()
    ensures { StepsAreFew }
{}

/// Proves that raising an open client's groups keeps their number and raises each under its own number, as
/// `group_point_is_greatest` says. An acknowledgement, a View and the opening raise them.
pub fn each_group_is_raised()
    ensures { EachGroupIsRaised }
{}

/// Proves that in every run the records of each node are in order of LSN, those of one LSN in order of bytes, without
/// duplicates.
pub fn nodes_records_in_order()
    ensures { NodesRecordsInOrder }
{}

/// Proves that each byte of a page comes from the last record that writes it, by LSN and then in order of bytes, among
/// the block's records up to the point. It is 0 if no record writes it.
pub fn pages_byte_by_byte()
    ensures { PagesByteByByte }
{}

/// Proves that in every run a client installs no records in a group that it first saw after its cut.
pub fn new_groups_are_empty()
    ensures { NewGroupsAreEmpty }
{}
