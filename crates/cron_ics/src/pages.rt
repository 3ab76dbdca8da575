//! A calendar of spans, such as the windows between two days or the shifts of a year.
ghost use Rattle.std.specs.Prelude.{◌≡◌, ◌<◌, ◌++◌, List, ℕ, IfErr, IfOk, OnErr, OnOk, false, length};
ghost use Rattle.cron_ics.specs.Pages.{AreSpans, IsNoPage, IsPage};
ghost use Rattle.cron_ics.specs.Spans.{IsSpan};
ghost use Rattle.cron_writer.specs.Calls.{HandsOnFlushed};
ghost use Rattle.cron_writer.specs.Watching.{has_failed, writer_of, IsSent};

use crate::error::IcsError;
pub use crate::span::Span;
use crate::spans::{Series, push_begin, push_finish, push_span};
use crate::write::flush;
use cron_writer::watchable::Watchable;
use cron_writer::watched::{Watched, send};
use std::alloc::{AllocError, Global};

// Appends the event of a span.
fn push_event(
    alloc: Global,
    page: &mut Vec<u8>,
    series: &Series<'_>,
    span: &Span<'_>,
) -> Result<(), AllocError>
    ensures { OnOk result ((text : List ℕ)
        × IsSpan series.now span.now.summary.now span.now.from span.now.until text
        × (page.new.items ≡ page.old.items ++ text)) }
{
    push_span(alloc, page, series, span.summary, span.from, span.until)
}

// Appends the events of spans, one after another.
fn push_spans(
    alloc: Global,
    page: &mut Vec<u8>,
    series: &Series<'_>,
    spans: &[Span<'_>],
) -> Result<(), AllocError>
    ensures { OnOk result ((text : List ℕ) × AreSpans series.now spans.now text
        × (page.new.items ≡ page.old.items ++ text)) }
{
    for span in spans {
        push_event(alloc, page, series, span)?;
    }
    Ok(())
}

// The calendar of spans.
fn page_of(alloc: Global, series: &Series<'_>, spans: &[Span<'_>]) -> Result<Vec<u8>, AllocError>
    ensures { IfOk result (λ page. IsPage series.now spans.now page.items) }
{
    let mut page = Vec::new(alloc);
    push_begin(&mut page)?;
    push_spans(alloc, &mut page, series, spans)?;
    push_finish(&mut page)?;
    Ok(page)
}

/// Writes the calendar of `spans`, with one event for each, once it is complete, and flushes. No
/// span is an error, as is memory that runs out; then nothing is written. The writer records whether
/// a call of it failed: then it isn't called again. No call of the writer may have failed before.
pub fn write_spans<W: Watchable>(
    alloc: Global,
    series: &Series<'_>,
    spans: &[Span<'_>],
    out: &mut Watched<W>,
) -> Result<(), IcsError>
    requires { has_failed out.old ≡ false }
    ensures writes { OnOk result ((text : List ℕ) × IsPage series.now spans.now text
        × IsSent (W.contents (writer_of out.old)) (W.contents (writer_of out.new))
        (has_failed out.new) text
        × HandsOnFlushed W.writes W.flushes
        (writer_of out.old) (has_failed out.old) (writer_of out.new) (has_failed out.new) text) }
    ensures some { OnOk result (0 < length spans.now) }
    ensures untouched { OnErr result (out.new ≡ out.old) }
    ensures refused { IfErr result (IsNoPage spans.now) }
{
    if spans.is_empty() {
        return Err(IcsError::NoEvents);
    }
    let Ok(page) = page_of(alloc, series, spans) else {
        return Err(IcsError::OutOfMemory);
    };
    send(out, page.as_slice());
    flush(out);
    Ok(())
}
