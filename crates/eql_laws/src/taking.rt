//! Laws of what shards hold back and hand out from mark to mark.
ghost use Rattle.eql_laws.specs.Taking.{ShardsMakeBetween, TakeSplits, RestIsLateBetween, HeldBackGrows, HandedOutMerges};

/// What all shards hand out between two marks, put in order, is what lies between them.
pub fn between_by_shard()
    ensures { ShardsMakeBetween }
{}

/// Of what a shard holds back at one mark it hands out what is below a greater one, and holds back the rest.
pub fn take_splits()
    ensures { TakeSplits }
{}

/// What a shard hands out up to its low doesn't depend on the text after its place.
pub fn late_between()
    ensures { RestIsLateBetween }
{}

/// With more text a shard holds back what it held back and what more was accepted.
pub fn held_back_grows()
    ensures { HeldBackGrows }
{}

/// The lists that shards hand out between two marks may be merged: each ascends, and no place is in two of them.
pub fn handed_out_merges()
    ensures { HandedOutMerges }
{}
