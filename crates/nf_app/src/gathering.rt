// Fetching a request's files: its network, and the bytes of its second file.
ghost use Rattle.std.specs.Prelude.{◌≡◌, ◌≤◌, ℕ, List, [], Some, IfOk, IfErr};
ghost use Rattle.std.specs.Result.{result_map_both};
ghost use Rattle.nf_app_answers.specs.declared.refusal.Refusal.TheVariants as Refusal;
ghost use Rattle.nf_app_files.specs.Files.{visit, input_file};
ghost use Rattle.nf_app_files.specs.Fetching.{AreRead};
ghost use Rattle.nf_gen.specs.Ladder.{most_rungs, ladder};
ghost use Rattle.nf_app_words.specs.Requests.{CanBeAsked, request_of};
ghost use Rattle.nf_app_words.specs.RequestViews.{requested};
ghost use Rattle.nf_app.specs.Gathered.{OtherFits, IsGathered};

use nf_app_answers::Refusal;
use nf_app_files::{fetch_network, fetch_network_with};
use nf_app_words::Request;
use nf_edge::Shelf;
use nf_gen::generated;
use nf_net::{LONGEST_FILE, Network};
use std::alloc::Global;

/// The most bytes that a report may have.
const LONGEST_REPORT: u32 = 67_108_864;

// Fetches the network of a request without a second file.
fn fetch_one<S: Shelf>(
    alloc: Global,
    shelf: &mut S,
    file: &str,
) -> Result<(Network, Vec<u8>), Refusal>
    ensures read { AreRead (visit S.Shelf shelf.old shelf.new) (input_file file.now) []
        (result_map_both (λ got. (got.0, [])) (λ refusal. refusal) result) }
    ensures same { (name : List ℕ) → S.told shelf.new name ≡ S.told shelf.old name }
    ensures never_falls { S.faults shelf.old ≤ S.faults shelf.new }
{
    let net = fetch_network(alloc, shelf, file)?;
    Ok((net, Vec::new(alloc)))
}

// Makes the ladder of a number, for a request without files.
fn make_ladder(alloc: Global, number: u64, rungs: u32) -> Result<(Network, Vec<u8>), Refusal>
    requires some { 1 ≤ rungs }
    requires few { rungs ≤ most_rungs }
    ensures made { IfOk result (λ got. got.0 ≡ ladder number rungs) }
    ensures refused { IfErr result (λ refusal. refusal ≡ Refusal.NoMemory) }
{
    let net = generated(alloc, number, rungs)?;
    Ok((net, Vec::new(alloc)))
}

/// Returns the network of a request, and the bytes of its second file, or none without one. Both files are fetched before the first is
/// parsed.
pub(crate) fn gather<S: Shelf>(
    alloc: Global,
    request: &Request,
    shelf: &mut S,
) -> Result<(Network, Vec<u8>), Refusal>
    requires { CanBeAsked (requested request.now) }
    ensures gathered { (words : List (List ℕ)) → request_of words ≡ Some (requested request.now)
        → IsGathered (record { words = words; shelf = visit S.Shelf shelf.old shelf.new })
        (requested request.now)
        (result_map_both (λ got. (got.0, got.1.items)) (λ refusal. refusal) result) }
    ensures fits { IfOk result (λ got. OtherFits (requested request.now) got.1.items) }
    ensures same { (name : List ℕ) → S.told shelf.new name ≡ S.told shelf.old name }
    ensures never_falls { S.faults shelf.old ≤ S.faults shelf.new }
{
    match request {
        Request::Solve { file, .. } => fetch_one(alloc, shelf, file),
        Request::SolveForever { file, .. } => fetch_one(alloc, shelf, file),
        Request::Show { file } => fetch_one(alloc, shelf, file),
        Request::Load { file, loads, .. } => {
            fetch_network_with(alloc, shelf, file, loads, LONGEST_FILE)
        }
        Request::Check { file, report } => {
            fetch_network_with(alloc, shelf, file, report, LONGEST_REPORT)
        }
        Request::Quick { file, .. } => fetch_one(alloc, shelf, file),
        Request::Gen { number, rungs, .. } => make_ladder(alloc, *number, *rungs),
        Request::Settle { file, flows } => {
            fetch_network_with(alloc, shelf, file, flows, LONGEST_FILE)
        }
        Request::Resume { file, report, .. } => {
            fetch_network_with(alloc, shelf, file, report, LONGEST_REPORT)
        }
        Request::Routes { file, routes, .. } => {
            fetch_network_with(alloc, shelf, file, routes, LONGEST_FILE)
        }
    }
}
