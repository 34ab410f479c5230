// Appending lines of a network file to a text.
ghost use Rattle.std.specs.Prelude.{◌≡◌, [], ◌∷◌, ◌++◌, codes, OnOk};
ghost use Rattle.nf_frac_words.specs.Digits.{digits_of};
ghost use Rattle.nf_text_def.specs.Words.{line_of_words};

use nf_frac_words::{TextBuf, write_count};
use nf_text::{push_bytes, push_line, push_word};
use std::alloc::AllocError;

// Appends a space and the digits of a count.
fn push_count(out: &mut Vec<u8>, count: u64) -> Result<(), AllocError>
    ensures { OnOk result (out.new.items ≡ out.old.items ++ 32 ∷ digits_of count) }
{
    let mut digits = TextBuf::new();
    write_count(count, &mut digits);
    push_word(out, digits.text())?;
    Ok(())
}

/// Appends the line of a link. Fails if an allocation fails.
pub fn push_link_line(
    out: &mut Vec<u8>,
    name: &[u8],
    tail: &[u8],
    head: &[u8],
    transit: u64,
    capacity: u64,
) -> Result<(), AllocError>
    ensures { OnOk result (out.new.items ≡ out.old.items
        ++ line_of_words (codes "link" ∷ name.now ∷ tail.now ∷ head.now ∷ digits_of transit
        ∷ digits_of capacity ∷ [])) }
{
    push_bytes(out, b"link")?;
    push_word(out, name)?;
    push_word(out, tail)?;
    push_word(out, head)?;
    push_count(out, transit)?;
    push_count(out, capacity)?;
    push_bytes(out, b"\n")?;
    Ok(())
}

/// Appends the line of an inflow piece. Fails if an allocation fails.
pub fn push_piece_line(out: &mut Vec<u8>, start: u64, rate: u64) -> Result<(), AllocError>
    ensures { OnOk result (out.new.items
        ≡ out.old.items ++ line_of_words (codes "inflow" ∷ digits_of start ∷ digits_of rate ∷ [])) }
{
    let mut time = TextBuf::new();
    write_count(start, &mut time);
    let mut amount = TextBuf::new();
    write_count(rate, &mut amount);
    push_line(out, b"inflow", &[time.text(), amount.text()])
}
