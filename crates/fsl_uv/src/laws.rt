//! Laws of maps of unversioned files, for proofs above. The calls do nothing when the program runs.
ghost use Rattle.fsl_uv.specs.Laws.{
  TiesAreSame,
  UvIsTheNewest,
  MergeIsTheGreater,
  IsForTheSet,
  MergesInAnyOrder,
  KeptIsMerged,
  UvOfBothIsMerge,
  MessagesReadOneWay,
  SyncMergesAt,
  SyncMerges,
};
ghost use Rattle.fsl_uv.specs.Exchanging.{StoresTalk};
ghost use Rattle.fsl_uv.specs.Refusals.{RecordsReadOneWay, RecordsReadSomeWay, MessagesFailOneWay, MessagesReadSomeWay, FullComesFirst};

/// Says that versions that tie are the same.
pub fn ties_are_same()
    ensures { TiesAreSame }
{}

/// Says that the map of entries has at each path the greatest version among its entries, and that it is the one map that does.
pub fn uv_is_the_newest()
    ensures { UvIsTheNewest }
{}

/// Says that the merge of two maps has at each path the greater version, and that it is the one map that does.
pub fn merges_to_the_greater()
    ensures { MergeIsTheGreater }
{}

/// Says that the map of entries is the same in whatever order they come, and however often.
pub fn same_for_the_set()
    ensures { IsForTheSet }
{}

/// Says that merging is associative and commutative, and that a map merged with itself or with none is itself.
pub fn merges_in_any_order()
    ensures { MergesInAnyOrder }
{}

/// Says that an entry that is kept out changes nothing, so a put that isn't refused leaves the merge of the map with its entry.
pub fn kept_is_merged()
    ensures { KeptIsMerged }
{}

/// Says that the map of entries and further ones is the merge of their maps.
pub fn uv_of_both_is_merge()
    ensures { UvOfBothIsMerge }
{}

/// Says that a message reads as one list of cards.
pub fn messages_read_one_way()
    ensures { MessagesReadOneWay }
{}

/// Says that a message fails in one way, and not if it has cards.
pub fn messages_fail_one_way()
    ensures { MessagesFailOneWay }
{}

/// Says that a message has cards, or fails.
pub fn messages_read_some_way()
    ensures { MessagesReadSomeWay }
{}

/// Says that records have one map at most, and one first Blob that is no entry, and not both.
pub fn records_read_one_way()
    ensures { RecordsReadOneWay }
{}

/// Says that records have a map, or a first Blob that is no entry.
pub fn records_read_some_way()
    ensures { RecordsReadSomeWay }
{}

/// Says that the texts that stores send each other are messages, so a sync meets no fault of one.
pub fn stores_talk()
    ensures { StoresTalk }
{}

/// Says that after a sync both stores have at each path the greater version, as far as versions with one moment and one hash are
/// the same.
pub fn sync_merges_at()
    ensures { SyncMergesAt }
{}

/// Says that after a sync both stores have the merge of their maps, as far as versions with one moment and one hash are the same,
/// and that a second sync finishes the work that a crash between the commits left.
pub fn sync_merges()
    ensures { SyncMerges }
{}

/// Says that a sync above a limit is refused before anything was put in at the peer.
pub fn full_comes_first()
    ensures { FullComesFirst }
{}
