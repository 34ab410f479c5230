// Writing a whole text to a sink.
ghost use Rattle.nf_edge.specs.Writing.{state_of, Wrote};

use crate::{Sink, SinkFault};

/// Writes the whole text, in as many writes as the sink needs. The first fault ends the writing; the sink then took a proper prefix of
/// the text.
pub fn write_text<O: Sink>(out: &mut O, text: &[u8]) -> Result<(), SinkFault>
    ensures { Wrote (state_of O.Sink out.old) (state_of O.Sink out.new) text.now result }
{
    let mut done = 0usize;
    while done < text.len() {
        done += out.write(&text[done..])?;
    }
    Ok(())
}
