// The tolls of a link.
ghost use Rattle.std.specs.Prelude.{◌≡◌, ◌<◌, ◌++◌, flat_map, length, IfOk, OnOk};
ghost use Rattle.nf_rational.specs.Operations.{0ℚ};
ghost use Rattle.nf_rational.specs.Order.{◌≤ℚ◌};
ghost use Rattle.nf_model.specs.Queue.{waiting};
ghost use Rattle.nf_model_laws.specs.Capacity.{IsPositive};
ghost use Rattle.nf_report_def.specs.LoadsFile.{pieces_at};
ghost use Rattle.corridor_tolls.specs.Tolls.{toll_line, toll_at, AreTolls};

use nf_curve::Point;
use nf_frac::{Halt, Part, PassedAt, Q, TextBuf, at};
use nf_load::{Loads, cumulative, load_link};
use nf_net::{LinkId, Network};
use std::alloc::{AllocError, Global};

fn push(out: &mut Vec<u8>, bytes: &[u8]) -> Result<(), AllocError>
    ensures { OnOk result (out.new.items ≡ out.old.items ++ bytes.now) }
{
    out.extend_from_slice(bytes)?;
    Ok(())
}

fn push_line(out: &mut Vec<u8>, name: &str, time: Q, toll: Q) -> Result<(), AllocError>
    ensures { OnOk result (out.new.items ≡ out.old.items ++ toll_line name.now time toll) }
{
    let mut number = TextBuf::new();
    push(out, b"toll ")?;
    push(out, name.as_bytes())?;
    push(out, b" ")?;
    time.write(&mut number);
    push(out, number.text())?;
    push(out, b" ")?;
    toll.write(&mut number);
    push(out, number.text())?;
    push(out, b"\n")?;
    Ok(())
}

// Returns the time that one waits in a queue.
fn toll_of(queue: Q, capacity: Option<Q>) -> Result<Q, PassedAt<Q>>
    requires { IsPositive capacity }
    ensures { IfOk result (λ toll. toll ≡ waiting capacity queue) }
{
    match capacity {
        Some(capacity) => Ok(at!(Part::Load, queue.quotient(capacity))),
        None => Ok(Q::zero()),
    }
}

type Pushed = Result<(), Halt<Q>>;

fn push_point(out: &mut Vec<u8>, name: &str, capacity: &Option<Q>, point: &Point) -> Pushed
    requires { IsPositive capacity.now }
    ensures { OnOk result
        (out.new.items ≡ out.old.items ++ toll_at capacity.now name.now point.now) }
{
    let toll = toll_of(point.1, *capacity)?;
    push_line(out, name, point.0, toll)?;
    Ok(())
}

fn push_points(out: &mut Vec<u8>, name: &str, capacity: &Option<Q>, points: &[Point]) -> Pushed
    requires { IsPositive capacity.now }
    ensures { OnOk result
        (out.new.items ≡ out.old.items ++ flat_map (toll_at capacity.now name.now) points.now) }
{
    for point in points {
        push_point(out, name, capacity, point)?;
    }
    Ok(())
}

/// Returns the lines of a link's tolls up to a horizon of at least 0: for each point of its queue's curve, the time, and the queue over the
/// capacity. The queue is that of the point queue for the link's pieces of inflow. Fails if an operation passes, or an allocation fails.
pub fn link_tolls(
    alloc: Global,
    net: &Network,
    loads: &Loads,
    link: LinkId,
    horizon: Q,
) -> Result<Vec<u8>, Halt<Q>>
    requires link { link < length net.now.net.links }
    requires links { length loads.now ≡ length net.now.net.links }
    requires horizon { 0ℚ ≤ℚ horizon }
    ensures { IfOk result
        (λ text. AreTolls net.now horizon link (pieces_at loads.now link) text.items) }
{
    let here = net.link(link);
    let inflow = cumulative(alloc, loads.pieces(link), horizon)?;
    let loaded = load_link(alloc, here.transit, here.capacity, &inflow, horizon)?;
    let mut out = Vec::new(alloc);
    let name = net.link_name(link);
    let queue = loaded.queue.as_points();
    push_points(&mut out, name, &here.capacity, queue)?;
    Ok(out)
}
