// Fetching the files of a request, and parsing the first as a network.
ghost use Rattle.std.specs.Prelude.{◌≡◌, ◌≤◌, ℕ, List, [], ◌∷◌, length, IfOk};
ghost use Rattle.std.specs.Result.{result_map_both};
ghost use Rattle.nf_app_files.specs.Files.{visit, input_file};
ghost use Rattle.nf_app_files.specs.Fetching.{AreFetched, AreRead};

use nf_app_answers::Refusal;
use nf_edge::Shelf;
use nf_net::{LONGEST_FILE, Network, parse};
use std::alloc::Global;

// Fetches a file of at most `limit` bytes.
fn fetch_file<S: Shelf>(
    alloc: Global,
    shelf: &mut S,
    file: &str,
    limit: u32,
) -> Result<Vec<u8>, Refusal>
    ensures same { (other : List ℕ) → S.told shelf.new other ≡ S.told shelf.old other }
    ensures never_falls { S.faults shelf.old ≤ S.faults shelf.new }
    ensures fetched { AreFetched (visit S.Shelf shelf.old shelf.new)
        (record { name = file.now; limit = limit } ∷ [])
        (result_map_both (λ text. text.items ∷ []) (λ refusal. refusal) result) }
    ensures within { IfOk result (λ text. length text.items ≤ limit) }
{
    let text = shelf.fetch(alloc, file, limit)?;
    Ok(text)
}

/// Fetches a file and parses it as a network.
///
/// Refuses if the file can't be fetched, has more than 1,048,576 bytes, or breaks a rule of network files, or if an allocation fails.
/// What is known of the shelf's files stays the same.
pub fn fetch_network<S: Shelf>(alloc: Global, shelf: &mut S, file: &str) -> Result<Network, Refusal>
    ensures same { (name : List ℕ) → S.told shelf.new name ≡ S.told shelf.old name }
    ensures never_falls { S.faults shelf.old ≤ S.faults shelf.new }
    ensures read { AreRead (visit S.Shelf shelf.old shelf.new) (input_file file.now) []
        (result_map_both (λ net. (net, [])) (λ refusal. refusal) result) }
{
    let text = fetch_file(alloc, shelf, file, LONGEST_FILE)?;
    let net = parse(alloc, &text)?;
    Ok(net)
}

/// Fetches a network file and another file of at most `limit` bytes, in this order, and then parses the first.
///
/// Refuses if one of them can't be fetched or is too long, if the first breaks a rule of network files, or if an allocation fails. What is
/// known of the shelf's files stays the same.
pub fn fetch_network_with<S: Shelf>(
    alloc: Global,
    shelf: &mut S,
    file: &str,
    other: &str,
    limit: u32,
) -> Result<(Network, Vec<u8>), Refusal>
    ensures same { (name : List ℕ) → S.told shelf.new name ≡ S.told shelf.old name }
    ensures never_falls { S.faults shelf.old ≤ S.faults shelf.new }
    ensures read { AreRead (visit S.Shelf shelf.old shelf.new) (input_file file.now)
        (record { name = other.now; limit = limit } ∷ [])
        (result_map_both (λ read. (read.0, read.1.items ∷ [])) (λ refusal. refusal) result) }
    ensures within { IfOk result (λ read. length read.1.items ≤ limit) }
{
    let first = fetch_file(alloc, shelf, file, LONGEST_FILE)?;
    let more = fetch_file(alloc, shelf, other, limit)?;
    let net = parse(alloc, &first)?;
    Ok((net, more))
}
