// The text of pushed walks.
ghost use Rattle.std.specs.Prelude.{◌≡◌, [], ◌∷◌, ◌++◌, flat_map, map, OnOk, IfOk};
ghost use Rattle.nf_report_pages.specs.Written.{after_words};
ghost use Rattle.nf_app_answers.specs.QuickText.{step_word, augment_line, augments_text};

use crate::words::{link_word, put_number};
use nf_net::Network;
use nf_quick::Augment;
use nf_residual::{Step, Walk};
use nf_text::push_bytes;
use std::alloc::{AllocError, Global};

// Appends a space, and a step: its direction, `+` or `-`, and the name of its link.
fn put_step(text: &mut Vec<u8>, net: &Network, step: Step) -> Result<(), AllocError>
    ensures { OnOk result
        (text.new.items ≡ text.old.items ++ after_words (step_word net.now.link_names step ∷ [])) }
{
    if step.forward {
        push_bytes(text, b" +")?;
    } else {
        push_bytes(text, b" -")?;
    }
    push_bytes(text, link_word(net, step.link))
}

// Appends steps, with a space before each.
fn put_steps(text: &mut Vec<u8>, net: &Network, steps: &[Step]) -> Result<(), AllocError>
    ensures { OnOk result (text.new.items
        ≡ text.old.items ++ after_words (map (step_word net.now.link_names) steps.now)) }
{
    for step in steps {
        put_step(text, net, *step)?;
    }
    Ok(())
}

// Appends the steps of a walk, with a space before each.
fn put_walk(text: &mut Vec<u8>, net: &Network, walk: &Walk) -> Result<(), AllocError>
    ensures { OnOk result (text.new.items
        ≡ text.old.items ++ after_words (map (step_word net.now.link_names) walk.now.steps)) }
{
    put_steps(text, net, &walk.steps)
}

// Appends the line of a pushed walk.
fn put_augment(text: &mut Vec<u8>, net: &Network, augment: &Augment) -> Result<(), AllocError>
    ensures { OnOk result
        (text.new.items ≡ text.old.items ++ augment_line net.now.link_names augment.now) }
{
    push_bytes(text, b"augment")?;
    put_number(text, augment.amount)?;
    put_walk(text, net, &augment.walk)?;
    push_bytes(text, b"\n")?;
    Ok(())
}

// Appends the lines of pushed walks.
fn put_augments(text: &mut Vec<u8>, net: &Network, walks: &[Augment]) -> Result<(), AllocError>
    ensures { OnOk result
        (text.new.items ≡ text.old.items ++ flat_map (augment_line net.now.link_names) walks.now) }
{
    for walk in walks {
        put_augment(text, net, walk)?;
    }
    Ok(())
}

/// Returns the text of the pushed walks with their amounts. Fails if an allocation fails.
pub fn augments_text(alloc: Global, net: &Network, walks: &[Augment]) -> Result<Vec<u8>, AllocError>
    ensures { IfOk result (λ text. text.items ≡ augments_text net.now walks.now) }
{
    let mut text = Vec::new(alloc);
    put_augments(&mut text, net, walks)?;
    Ok(text)
}
