//! Laws of what a run writes and refuses, each the contract of a function that does nothing.
ghost use Rattle.eql_runs.specs.RunLaws.{FitsAtAnySpan, ListingIsOne, RefusalIsOne, SearchIsOne, StatusIsOne, TestedIsAccepted, TestedIsOwn, WritesOrIsRefused, CheckedIsAccepted, HeadsAgree, ReadyIsNotRefused, MadeIsASearch, MadeIsWithin, MatchesAreFew, NoRunIsLeftOut, DiskHoldsOne, RunsFindFew, DiskHoldsSomething};

use eql_check::check_is_exact;
use eql_cut::{
    first_format_has_no_places, lifted_cuts_fit, named_lines_were_read, places_alone_are_set,
    texts_are_decided,
};
use eql_laws::{cuts_fit, found_is_few, fronts_fit, late, lines_go_on, opening_finds};
use eql_lexer::{none_spelled, one_break, one_list, spelled_or_broken};
use eql_parser::{one_query, one_refusal, query_or_refused};
use eql_stages::readers_fit;
use eql_values::{orders_agree_with_equality, orders_told_alike};
use eql_words::commands_are_bounded;

/// The words, the files and what the disk of a checkpoint holds determine what a run writes, or that it is refused and for which
/// cause, and never both. Files that are all there and checked aren't refused. A run that can be done isn't refused, and no shard
/// of it is beyond a limit. Of a damaged area they don't determine the place that is told.
pub fn runs_are_determined()
    ensures listing { ListingIsOne }
    ensures refusal { RefusalIsOne }
    ensures status { StatusIsOne }
    ensures apart { WritesOrIsRefused }
    ensures accepted { CheckedIsAccepted }
    ensures ready { ReadyIsNotRefused }
{
    one_list();
    none_spelled();
    one_break();
    one_query();
    one_refusal();
    check_is_exact();
    readers_fit();
    cuts_fit();
    fronts_fit();
    lifted_cuts_fit();
    named_lines_were_read();
    places_alone_are_set();
    lines_go_on();
}

/// Nothing is left out: whatever the words and the files are, and whatever bytes the disk holds, these stand for something, and
/// the words are no command, or they, the files and the disk are refused for a cause, or a run of them writes bytes and a report,
/// where the disk is trusted and the shards can be read.
pub fn no_run_is_left_out()
    ensures { NoRunIsLeftOut }
{
    spelled_or_broken();
    query_or_refused();
    check_is_exact();
    readers_fit();
    cuts_fit();
    fronts_fit();
    lifted_cuts_fit();
    orders_agree_with_equality();
    commands_are_bounded();
    first_format_has_no_places();
    texts_are_decided();
    late();
    orders_told_alike();
    opening_finds();
}

/// What both areas of a disk stand for is one thing.
pub fn disks_hold_one_thing()
    ensures { DiskHoldsOne }
{}

/// Whatever bytes both areas of a disk are, they stand for something: no cut, a cut, or an area that is damaged or another
/// program's.
pub fn disks_hold_something()
    ensures { DiskHoldsSomething }
{
    texts_are_decided();
}

/// A checked query has fewer than 2^64 matches over at most 256 shards within the limits of lines and bytes, and so has
/// each run of `find`. So a count of matches never stands still, and the number of each is exact.
pub fn matches_are_counted()
    ensures few { MatchesAreFew }
    ensures found { RunsFindFew }
{
    found_is_few();
    readers_fit();
    commands_are_bounded();
}

/// The query and the mapping of `made` are a search, and each text of such a run can be read to its end. So it isn't
/// refused, and reaches no limit.
pub fn made_is_searched()
    ensures search { MadeIsASearch }
    ensures within { MadeIsWithin }
{
    check_is_exact();
}

/// What cuts say of their runs differs in nothing exactly when it is one and the same.
pub fn heads_agree()
    ensures { HeadsAgree }
{
    orders_agree_with_equality();
}

/// A run over texts for which what its disk holds passed all tests, the head, whether it fits, and each shard, is refused for no
/// cause; where the cut is trusted, it is a run that writes. A cut with digests is trusted where the search put it, over whatever
/// texts: where it passed all tests over these, and digests tell texts apart, it is a cut of these. The words and the files
/// determine for what a run searches, and the texts of its shards.
pub fn tested_cuts_are_accepted()
    ensures accepted { TestedIsAccepted }
    ensures own { TestedIsOwn }
    ensures one { SearchIsOne }
{
    one_list();
    none_spelled();
    one_break();
    one_query();
    one_refusal();
    check_is_exact();
    orders_agree_with_equality();
    late();
}

/// Whether a cut fits a run doesn't depend on the span of the run.
pub fn spans_change_no_fit()
    ensures { FitsAtAnySpan }
{}
