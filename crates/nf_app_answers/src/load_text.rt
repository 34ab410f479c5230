// The text of the loadings of links.
ghost use Rattle.std.specs.Prelude.{◌≡◌, ◌<◌, [], ◌∷◌, length, map, flat_map, codes};
ghost use Rattle.std.specs.List.{enumerate_from};
ghost use Rattle.nf_frac_words.specs.Printed.{printed};
ghost use Rattle.nf_net_def.specs.Names.{name_at};
ghost use Rattle.nf_edge.specs.Writing.{state_of, Wrote};
ghost use Rattle.nf_report_def.specs.Texts.{loaded_lines, load_text};
ghost use Rattle.nf_report_pages.specs.Written.{WroteLines};
ghost use Rattle.nf_load.specs.Loadings.{loaded_of};

use nf_edge::{Sink, SinkFault};
use nf_frac::{Q, TextBuf};
use nf_load::Loaded;
use nf_net::{LinkId, Network};
use nf_report::{write_curve, write_line};

/// Writes the first two lines: the kind of the text with its version 1, and the horizon.
pub(crate) fn write_head<O: Sink>(out: &mut O, key: &[u8], horizon: Q) -> Result<(), SinkFault>
    ensures { WroteLines (state_of O.Sink out.old) (state_of O.Sink out.new)
        ((key.now ∷ codes "1" ∷ []) ∷ (codes "horizon" ∷ printed horizon ∷ []) ∷ []) result }
{
    let mut word = TextBuf::new();
    horizon.write(&mut word);
    write_line(out, key, &[b"1"])?;
    write_line(out, b"horizon", &[word.text()])
}

// Writes the curves of a link.
fn write_curves<O: Sink>(
    out: &mut O,
    net: &Network,
    link: u32,
    loaded: &Loaded,
) -> Result<(), SinkFault>
    requires { link < length net.now.net.links }
    ensures { WroteLines (state_of O.Sink out.old) (state_of O.Sink out.new)
        (loaded_lines net.now.link_names (link, loaded_of loaded.now)) result }
{
    let name = net.link_name(LinkId(link)).as_bytes();
    write_curve(out, b"queue", name, &loaded.queue)?;
    write_curve(out, b"outflow", name, &loaded.outflow)?;
    write_curve(out, b"exit", name, &loaded.exit)
}

/// Writes the queue, outflow and exit curves of each link.
pub(crate) fn write_links<O: Sink>(
    out: &mut O,
    net: &Network,
    links: &[Loaded],
) -> Result<(), SinkFault>
    requires { length links.now ≡ length net.now.net.links }
    ensures { WroteLines (state_of O.Sink out.old) (state_of O.Sink out.new) (flat_map
        (loaded_lines net.now.link_names) (enumerate_from 0 (map loaded_of links.now))) result }
{
    for link in 0..net.link_count() {
        let loaded = &links[link as usize];
        write_curves(out, net, link, loaded)?;
    }
    Ok(())
}

/// Writes the loadings of a network's links up to a horizon, a time: the queue, outflow and exit curves of each link. Allocates nothing.
///
/// The first fault ends the writing; the sink then took a proper prefix of the text.
pub fn write_loads<O: Sink>(
    out: &mut O,
    net: &Network,
    horizon: Q,
    links: &[Loaded],
) -> Result<(), SinkFault>
    requires { length links.now ≡ length net.now.net.links }
    ensures { Wrote (state_of O.Sink out.old) (state_of O.Sink out.new)
        (load_text net.now horizon (map loaded_of links.now)) result }
{
    write_head(out, b"loaded", horizon)?;
    write_links(out, net, links)?;
    write_line(out, b"end", &[])
}
