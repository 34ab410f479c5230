// Lines of words, appended to a text in memory.
ghost use Rattle.std.specs.Prelude.{◌≡◌, ◌∷◌, ◌++◌, map, flat_map, OnOk};
ghost use Rattle.nf_text_def.specs.Words.{line_of_words};

use std::alloc::AllocError;

/// Appends the bytes. Fails if an allocation fails.
pub fn push_bytes(text: &mut Vec<u8>, bytes: &[u8]) -> Result<(), AllocError>
    ensures { OnOk result (text.new.items ≡ text.old.items ++ bytes.now) }
{
    text.extend_from_slice(bytes)?;
    Ok(())
}

/// Appends a space and the word. Fails if an allocation fails.
pub fn push_word(text: &mut Vec<u8>, word: &[u8]) -> Result<(), AllocError>
    ensures { OnOk result (text.new.items ≡ text.old.items ++ 32 ∷ word.now) }
{
    push_bytes(text, b" ")?;
    push_bytes(text, word)?;
    Ok(())
}

// Appends the words, with a space before each.
fn push_words(text: &mut Vec<u8>, words: &[&[u8]]) -> Result<(), AllocError>
    ensures { OnOk result
        (text.new.items ≡ text.old.items ++ flat_map (λ w. 32 ∷ w.now) words.now) }
{
    for word in words {
        push_word(text, word)?;
    }
    Ok(())
}

/// Appends the line of the words. Fails if an allocation fails.
pub fn push_line(text: &mut Vec<u8>, first: &[u8], words: &[&[u8]]) -> Result<(), AllocError>
    ensures { OnOk result (text.new.items
        ≡ text.old.items ++ line_of_words (first.now ∷ map (λ w. w.now) words.now)) }
{
    push_bytes(text, first)?;
    push_words(text, words)?;
    push_bytes(text, b"\n")?;
    Ok(())
}
