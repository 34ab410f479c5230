// The lines of a curve: one for each of its points.
ghost use Rattle.std.specs.Prelude.{◌≡◌, [], ◌∷◌, ◌++◌, slice_get, codes};
ghost use Rattle.nf_edge.specs.Writing.{state_of};
ghost use Rattle.nf_net_def.specs.Report.{point_lines, trace_lines};
ghost use Rattle.nf_report_pages.specs.Written.{WroteLines, written_point, written_trace};
ghost use Rattle.nf_report_pages.specs.Pages.{GatheredLines};

use crate::line::put_line;
use crate::pages::Page;
use nf_curve::{Curve, Trace};
use nf_edge::{Sink, SinkFault, write_text};
use nf_frac::{Q, TextBuf};

// Puts a time and a value.
fn put_point<O: Sink>(
    out: &mut O,
    page: &mut Page,
    key: &[u8],
    name: &[u8],
    point: (Q, Q),
) -> Result<(), SinkFault>
    ensures { GatheredLines (state_of O.Sink out.old) (state_of O.Sink out.new) page.old page.new
        (written_point key.now name.now point ∷ []) result }
{
    let mut time = TextBuf::new();
    let mut value = TextBuf::new();
    point.0.write(&mut time);
    point.1.write(&mut value);
    put_line(out, page, key, &[name, time.text(), value.text()])
}

/// Puts the points of a curve.
pub(crate) fn put_curve<O: Sink>(
    out: &mut O,
    page: &mut Page,
    key: &[u8],
    name: &[u8],
    curve: &Curve,
) -> Result<(), SinkFault>
    ensures { GatheredLines (state_of O.Sink out.old) (state_of O.Sink out.new) page.old page.new
        (point_lines key.now name.now curve.now.points) result }
{
    for index in 0..curve.len() {
        put_point(out, page, key, name, curve.point(index))?;
    }
    Ok(())
}

/// Writes a line for each point of a curve: this word, this name, the point's time and its value. Allocates nothing.
///
/// The first fault ends the writing; the sink then took a proper prefix of the lines.
pub fn write_curve<O: Sink>(
    out: &mut O,
    key: &[u8],
    name: &[u8],
    curve: &Curve,
) -> Result<(), SinkFault>
    ensures { WroteLines (state_of O.Sink out.old) (state_of O.Sink out.new)
        (point_lines key.now name.now curve.now.points) result }
{
    let mut page = Page::new();
    put_curve(out, &mut page, key, name, curve)?;
    write_text(out, page.as_slice())
}

// Puts a time and a value, with the rate from then on, or `-` if there is none.
fn put_rated_point<O: Sink>(
    out: &mut O,
    page: &mut Page,
    key: &[u8],
    name: &[u8],
    point: (Q, Q),
    rate: Option<Q>,
) -> Result<(), SinkFault>
    ensures { GatheredLines (state_of O.Sink out.old) (state_of O.Sink out.new) page.old page.new
        (written_trace key.now name.now point rate ∷ []) result }
{
    let mut time = TextBuf::new();
    let mut value = TextBuf::new();
    point.0.write(&mut time);
    point.1.write(&mut value);
    match rate {
        None => put_line(out, page, key, &[name, time.text(), value.text(), b"-"]),
        Some(rate) => {
            let mut word = TextBuf::new();
            rate.write(&mut word);
            put_line(
                out,
                page,
                key,
                &[name, time.text(), value.text(), word.text()],
            )
        }
    }
}

// Returns the rate from the point of this number on, if there is one.
fn rate_at(rates: &[Q], index: usize) -> Option<Q>
    ensures { result ≡ slice_get rates.now index }
{
    if index < rates.len() {
        Some(rates[index])
    } else {
        None
    }
}

/// Puts the points of a curve with the rates between them.
pub(crate) fn put_trace<O: Sink>(
    out: &mut O,
    page: &mut Page,
    key: &[u8],
    name: &[u8],
    trace: &Trace,
) -> Result<(), SinkFault>
    ensures { GatheredLines (state_of O.Sink out.old) (state_of O.Sink out.new) page.old page.new
        (trace_lines key.now name.now trace.now.curve.points trace.now.rates.items) result }
{
    for index in 0..trace.curve.len() {
        put_rated_point(
            out,
            page,
            key,
            name,
            trace.curve.point(index),
            rate_at(&trace.rates, index),
        )?;
    }
    Ok(())
}

/// Puts the curves of a link: its inflow, its outflow and its queue.
pub(crate) fn put_link<O: Sink>(
    out: &mut O,
    page: &mut Page,
    name: &[u8],
    inflow: &Trace,
    outflow: &Trace,
    queue: &Curve,
) -> Result<(), SinkFault>
    ensures { GatheredLines (state_of O.Sink out.old) (state_of O.Sink out.new) page.old page.new
        (trace_lines (codes "inflow") name.now inflow.now.curve.points inflow.now.rates.items
        ++ trace_lines (codes "outflow") name.now outflow.now.curve.points outflow.now.rates.items
        ++ point_lines (codes "queue") name.now queue.now.points) result }
{
    put_trace(out, page, b"inflow", name, inflow)?;
    put_trace(out, page, b"outflow", name, outflow)?;
    put_curve(out, page, b"queue", name, queue)
}
