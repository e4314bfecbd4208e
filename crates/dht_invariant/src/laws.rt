//! Laws of the invariant. They do nothing.

ghost use Rattle.dht_invariant.specs.Laws.{CreateKeeps, TransitionLaws, LinktosKeep, RemovalsKeep};
ghost use Rattle.dht_invariant.specs.Laws.{DirectoriesKeep};
ghost use Rattle.dht_invariant.specs.Laws.{RowsAreLocal, RequestsAreLocal};
ghost use Rattle.dht_invariant.specs.Laws.{ClausesAreLocal, RequestsLeaveOthers, AnswersLeaveOthers};
ghost use Rattle.dht_invariant.specs.Laws.{NewBricksMeet, RemountsKeep, RemountsInPartKeep};
ghost use Rattle.dht_invariant.specs.Laws.{BricksStand, NamesArePlaced};

/// A create that is carried out keeps the invariant of each thing.
pub fn a_create_keeps_each_thing()
    ensures { CreateKeeps }
{}

/// A permitted request, another claim, a line that tells nothing of the tree, and a death keep the
/// invariant, and are to every other client what others may do; and so are two of them.
pub fn the_transitions()
    ensures { TransitionLaws }
{}

/// A linkto that comes or goes keeps the invariant of each thing, and touches nothing but its
/// guarded name.
pub fn a_linkto_keeps_each_thing()
    ensures { LinktosKeep }
{}

/// An unlink, a seal or a drop that is permitted, carried out or not, keeps the invariant of each
/// thing, and touches nothing but its guarded name, its nameless file or the file's seal.
pub fn a_removal_keeps_each_thing()
    ensures { RemovalsKeep }
{}

/// A layout that is set and a copy of a directory that is made or dropped, where they are
/// permitted, carried out or not, keep the invariant of each thing, and touch nothing but the
/// directory and its name; a gfid that comes into use is the call's own.
pub fn a_directory_request_keeps_each_thing()
    ensures { DirectoriesKeep }
{}

/// A request that a brick carries out changes at most one slot, one directory record, one file
/// record, and one lock, registration or seal; but the linktos of a dropped directory go with it.
/// What all bricks show of any other thing is as it was.
pub fn requests_are_local()
    ensures rows { RowsAreLocal }
    ensures shown { RequestsAreLocal }
{}

/// Each clause of the invariant on a name, a file, a directory or a lock stands where what is shown
/// of it is as it was; so a request, carried out or not, leaves each clause on a thing that it does
/// not name.
pub fn clauses_are_local()
    ensures clauses { ClausesAreLocal }
    ensures others { RequestsLeaveOthers }
    ensures answers { AnswersLeaveOthers }
{}

/// New bricks meet the invariant.
pub fn new_bricks_meet_the_invariant()
    ensures { NewBricksMeet }
{}

/// A remount keeps the invariant, whatever clients claim and whichever calls are pending; and so
/// does one that was broken off when some bricks were mounted anew.
pub fn remounts_keep_the_invariant()
    ensures whole { RemountsKeep }
    ensures part { RemountsInPartKeep }
{}

/// Where the invariant holds, the bricks stand for the tree, and in the first run each file name of
/// the tree stands once, on its holder.
pub fn the_invariant_implies_the_truth()
    ensures stands { BricksStand }
    ensures placed { NamesArePlaced }
{}
