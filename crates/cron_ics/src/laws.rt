//! Laws over the definitions: the functions do nothing, and a caller calls one for what its
//! contract says.

ghost use Rattle.cron_ics.specs.Laws.{EscapedReadsBack, FoldedIsFolded, FoldedReadsBack, SummariesAreLines, UidsTellEventsApart};
ghost use Rattle.cron_ics.specs.Reading.{LinesReadBack};
ghost use Rattle.cron_ics.specs.Spans.{SpansAreLines, UidsTellSpansApart};

/// Texts that are escaped and lines that are folded read back unchanged.
pub fn what_is_written_reads_back()
    ensures escaped { EscapedReadsBack }
    ensures folded { FoldedReadsBack }
    ensures lines { LinesReadBack }
{}

/// Folded lines have pieces of at most 75 octets, and no character is cut. Summaries and the lines
/// of spans are such lines.
pub fn lines_are_short()
    ensures folded { FoldedIsFolded }
    ensures summaries { SummariesAreLines }
    ensures spans { SpansAreLines }
{}

/// Two events with the same UID share the digest and the copy of their entry, the fire's instant
/// and civil second, and the domain.
pub fn uids_tell_events_apart()
    ensures { UidsTellEventsApart }
{}

/// Two spans with the same UID share the digest of their series, both ends, and the domain.
pub fn uids_tell_spans_apart()
    ensures { UidsTellSpansApart }
{}
