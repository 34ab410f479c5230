// Answering the words: an outcome, or why there is none.
ghost use Rattle.std.specs.Prelude.{◌≡◌, ◌≤◌, ℕ, List, length, Some, Ok, Err};
ghost use Rattle.nf_rational.specs.Operations.{0ℚ};
ghost use Rattle.nf_rational.specs.Order.{◌≤ℚ◌};
ghost use Rattle.nf_edge.specs.Names.{texts};
ghost use Rattle.nf_text_def.specs.Faults.{longest_text};
ghost use Rattle.nf_frac_def.specs.Passing.{passes_Q};
ghost use Rattle.nf_quick.specs.Answered as answered;
ghost use Rattle.nf_quick.specs.declared.fault.QuickFault.TheVariants as QuickFault;
ghost use Rattle.nf_quick_def.specs.Answers.{IsQuickFlow};
ghost use Rattle.nf_rational.specs.Rational.{ℚ};
ghost use Rattle.nf_net_def.specs.Named.{Named};
ghost use Rattle.nf_net_def.specs.Report.{Report as SeenReport};
ghost use Rattle.nf_resume.specs.Faults.{IsResumeFault};
ghost use Rattle.nf_app_files.specs.Files.{visit, report_limit};
ghost use Rattle.nf_app_words.specs.Requests.{Solve, SolveForever, Show, Load, Check, Gen, Settle, Resume, Routes, CanBeAsked, request_of};
ghost use Rattle.nf_app_words.specs.Requests as requests;
ghost use Rattle.nf_app_words.specs.RequestViews.{requested};
ghost use Rattle.nf_app.specs.Reports.{IsReportText};
ghost use Rattle.nf_app.specs.Gathered.{OtherFits};
ghost use Rattle.nf_app.specs.Outcomes.{FindsResult, AnswersCall};

use crate::arrival::{find_arrival, last_label};
use crate::gathering::gather;
use crate::loading::load_links;
use crate::settling::settle_at_start;
use nf_app_answers::{Computed, Ladder, Outcome, Refusal, augments_text, flow_text};
use nf_app_words::{Request, read_request};
use nf_check::check;
use nf_complete_read::parse_flows;
use nf_edge::Shelf;
use nf_forever::solve_forever;
use nf_frac::Q;
use nf_load::parse_loads;
use nf_net::{Network, text};
use nf_phase::{Budgets, solve};
use nf_quick::{Augment, Quick, QuickFault, departure, quickest};
use nf_report::parse_report;
use nf_resume::{ResumeFault, resume};
use nf_routes::carry_routes;
use nf_routes_read::parse_routes;
use std::alloc::{AllocError, Global};

// Solves the network to a horizon.
fn solve_to(alloc: Global, net: &Network, horizon: Q, budgets: Budgets) -> Result<Computed, Refusal>
    requires { 0ℚ ≤ℚ horizon }
    ensures { (file text : List ℕ)
        → FindsResult net.now text (Solve file horizon budgets.phases budgets.patterns) result }
{
    // Proof: the network is that of an accepted file, and the parts of the horizon are within the bound.
    net.recall();
    horizon.recall();
    let solution = solve(alloc, net, horizon, budgets)?;
    Ok(Computed::Solved { horizon, solution })
}

// Solves the network without a horizon.
fn solve_on(alloc: Global, net: &Network, budgets: Budgets) -> Result<Computed, Refusal>
    ensures { (file text : List ℕ)
        → FindsResult net.now text (SolveForever file budgets.phases budgets.patterns) result }
{
    // Proof: the network is that of an accepted file.
    net.recall();
    let forever = solve_forever(alloc, net, budgets)?;
    Ok(Computed::SolvedForever { forever })
}

// Solves a ladder to a horizon, and sums the run up.
fn sum_up(
    alloc: Global,
    net: &Network,
    ladder: Ladder,
    horizon: Q,
    budgets: Budgets,
) -> Result<Computed, Refusal>
    requires { 0ℚ ≤ℚ horizon }
    ensures { (text : List ℕ) → FindsResult net.now text
        (Gen ladder.number ladder.rungs horizon budgets.phases budgets.patterns) result }
{
    // Proof: the network is that of an accepted file.
    net.recall();
    let solution = solve(alloc, net, horizon, budgets)?;
    let (_, arrival) = last_label(&solution.flow, net.sink());
    Ok(Computed::Generated {
        ladder,
        horizon,
        solution,
        arrival,
    })
}

// Returns the text of the network.
fn show(alloc: Global, net: &Network) -> Result<Computed, Refusal>
    ensures { (file other : List ℕ) → FindsResult net.now other (Show file) result }
{
    let text = text(alloc, net)?;
    Ok(Computed::Shown { text })
}

// Parses a loads file and loads each link by its pieces.
fn load_to(alloc: Global, net: &Network, loads: &[u8], horizon: Q) -> Result<Computed, Refusal>
    requires horizon { 0ℚ ≤ℚ horizon }
    requires within { length loads.now ≤ longest_text }
    ensures { (file name : List ℕ) → FindsResult net.now loads.now (Load file name horizon) result }
{
    // Proof: the network is that of an accepted file.
    net.recall();
    let loads = parse_loads(alloc, net, loads)?;
    let links = load_links(alloc, net, &loads, horizon)?;
    Ok(Computed::Loaded { horizon, links })
}

// Parses a report and checks its flow. The text, which may be long, is dropped before.
fn check_report(alloc: Global, net: &Network, text: Vec<u8>) -> Result<Computed, Refusal>
    requires { length text.items ≤ report_limit }
    ensures { (file name : List ℕ) → FindsResult net.now text.items (Check file name) result }
{
    // Proof: the network is that of an accepted file.
    net.recall();
    let report = parse_report(alloc, net, &text)?;
    drop(text);
    let verdict = check(alloc, net, &report.flow)?;
    Ok(Computed::Checked { verdict })
}

// Parses a flows file and settles its thin flow.
fn settle_to(alloc: Global, net: &Network, text: &[u8]) -> Result<Computed, Refusal>
    requires { length text.now ≤ longest_text }
    ensures { (file name : List ℕ) → FindsResult net.now text.now (Settle file name) result }
{
    let flows = parse_flows(alloc, net, text)?;
    match settle_at_start(alloc, net, &flows)? {
        Some(settled) => Ok(Computed::Settled { settled }),
        None => Err(Refusal::NotThin),
    }
}

// Returns why a report isn't resumed: if its flow is no equilibrium, the verdict of the check.
fn refuse_resume(fault: ResumeFault) -> Result<Computed, Refusal>
    ensures { (net : Named) (file name text : List ℕ) (horizon : ℚ) (phases patterns : ℕ)
        (old : SeenReport) → IsReportText net text old
        → IsResumeFault passes_Q net.net old horizon fault
        → FindsResult net text (Resume file name horizon phases patterns) result }
{
    match fault {
        ResumeFault::Earlier { .. } => Err(Refusal::Earlier),
        ResumeFault::No(verdict) => Ok(Computed::Checked { verdict }),
        ResumeFault::Passed(at) => Err(Refusal::Passes(at)),
        ResumeFault::Memory => Err(Refusal::NoMemory),
    }
}

// Parses a report and resumes it to a horizon. The text, which may be long, is dropped before.
fn resume_to(
    alloc: Global,
    net: &Network,
    text: Vec<u8>,
    horizon: Q,
    budgets: Budgets,
) -> Result<Computed, Refusal>
    requires { length text.items ≤ report_limit }
    ensures { (file name : List ℕ) → FindsResult net.now text.items
        (Resume file name horizon budgets.phases budgets.patterns) result }
{
    // Proof: the network is that of an accepted file, and the parts of the horizon are within the bound.
    net.recall();
    horizon.recall();
    let report = parse_report(alloc, net, &text)?;
    drop(text);
    match resume(alloc, net, &report, horizon, budgets) {
        Ok(solution) => Ok(Computed::Solved { horizon, solution }),
        Err(fault) => refuse_resume(fault),
    }
}

// Parses a routes file and loads the network along its routes, up to a horizon.
fn distribute(alloc: Global, net: &Network, text: &[u8], horizon: Q) -> Result<Computed, Refusal>
    requires horizon { 0ℚ ≤ℚ horizon }
    requires within { length text.now ≤ longest_text }
    ensures { (file name : List ℕ)
        → FindsResult net.now text.now (Routes file name horizon) result }
{
    let routes = parse_routes(alloc, net, text)?;
    let routed = carry_routes(alloc, net, &routes, horizon)?;
    Ok(Computed::Distributed {
        routes,
        horizon,
        routed,
    })
}

// Returns the walks that were pushed, as many as allowed, with their text.
fn end_over_budget(
    alloc: Global,
    net: &Network,
    augments: u64,
    walks: Vec<Augment>,
) -> Result<Computed, Refusal>
    ensures { (file other : List ℕ) (amount : ℚ)
        → answered.IsAnswered passes_Q net.now.net amount augments (Err (QuickFault.Budget walks))
        → answered.IsInOrder net.now.net amount augments (Err (QuickFault.Budget walks))
        → FindsResult net.now other (requests.Quick file amount augments) result }
{
    let text = augments_text(alloc, net, &walks)?;
    Ok(Computed::TooManyWalks {
        augments,
        walks,
        text,
    })
}

// Returns why there is no quickest flow of an amount: if too many walks are needed, those that were pushed.
fn refuse_quick(
    alloc: Global,
    net: &Network,
    augments: u64,
    fault: QuickFault,
) -> Result<Computed, Refusal>
    ensures { (file other : List ℕ) (amount : ℚ)
        → answered.IsAnswered passes_Q net.now.net amount augments (Err fault)
        → answered.IsInOrder net.now.net amount augments (Err fault)
        → FindsResult net.now other (requests.Quick file amount augments) result }
{
    match fault {
        QuickFault::Budget { walks } => end_over_budget(alloc, net, augments, walks),
        QuickFault::Unbounded { .. } => Err(Refusal::Unbounded),
        QuickFault::Passed(at) => Err(Refusal::Passes(at)),
        QuickFault::Memory => Err(Refusal::NoMemory),
    }
}

// Adds to a quickest flow of an amount the arrival in an equilibrium, after the departure by which the amount is supplied.
fn beside_arrival(
    alloc: Global,
    net: &Network,
    amount: Q,
    quick: Quick,
) -> Result<Computed, Refusal>
    requires amount { 0ℚ ≤ℚ amount }
    requires flow { IsQuickFlow net.now.net amount quick }
    ensures { (file other : List ℕ) (augments : ℕ)
        → answered.IsAnswered passes_Q net.now.net amount augments (Ok quick)
        → answered.IsInOrder net.now.net amount augments (Ok quick)
        → FindsResult net.now other (requests.Quick file amount augments) result }
{
    let departs = departure(net, amount)?;
    let arrival = find_arrival(alloc, net, departs)?;
    let text = flow_text(alloc, net, &quick)?;
    Ok(Computed::Quickest {
        quick,
        arrival,
        text,
    })
}

// Finds a quickest flow of an amount, and the arrival in an equilibrium beside it.
fn quick_to(alloc: Global, net: &Network, amount: Q, augments: u64) -> Result<Computed, Refusal>
    requires amount { 0ℚ ≤ℚ amount }
    requires augments { 1 ≤ augments }
    ensures { (file other : List ℕ)
        → FindsResult net.now other (requests.Quick file amount augments) result }
{
    match quickest(alloc, net, amount, augments) {
        Ok(quick) => beside_arrival(alloc, net, amount, quick),
        Err(fault) => refuse_quick(alloc, net, augments, fault),
    }
}

// Answers a request with its network and the bytes of its second file, if it has one.
fn find(
    alloc: Global,
    request: &Request,
    net: &Network,
    other: Vec<u8>,
) -> Result<Computed, Refusal>
    requires asked { CanBeAsked (requested request.now) }
    requires fits { OtherFits (requested request.now) other.items }
    ensures { FindsResult net.now other.items (requested request.now) result }
{
    match *request {
        Request::Solve {
            horizon,
            phases,
            patterns,
            ..
        } => solve_to(alloc, net, horizon, Budgets { phases, patterns }),
        Request::SolveForever {
            phases,
            patterns,
            ..
        } => solve_on(alloc, net, Budgets { phases, patterns }),
        Request::Show { .. } => show(alloc, net),
        Request::Load { horizon, .. } => load_to(alloc, net, &other, horizon),
        Request::Check { .. } => check_report(alloc, net, other),
        Request::Quick {
            amount,
            augments,
            ..
        } => quick_to(alloc, net, amount, augments),
        Request::Gen {
            number,
            rungs,
            horizon,
            phases,
            patterns,
        } => sum_up(
            alloc,
            net,
            Ladder { number, rungs },
            horizon,
            Budgets { phases, patterns },
        ),
        Request::Settle { .. } => settle_to(alloc, net, &other),
        Request::Resume {
            horizon,
            phases,
            patterns,
            ..
        } => resume_to(alloc, net, other, horizon, Budgets { phases, patterns }),
        Request::Routes { horizon, .. } => distribute(alloc, net, &other, horizon),
    }
}

// Answers a request with the files of the shelf.
fn answer_request<S: Shelf>(
    alloc: Global,
    request: &Request,
    shelf: &mut S,
) -> Result<Outcome, Refusal>
    requires { CanBeAsked (requested request.now) }
    ensures answered { (words : List (List ℕ)) → request_of words ≡ Some (requested request.now)
        → AnswersCall (record { words = words; shelf = visit S.Shelf shelf.old shelf.new }) result }
    ensures same { (name : List ℕ) → S.told shelf.new name ≡ S.told shelf.old name }
    ensures never_falls { S.faults shelf.old ≤ S.faults shelf.new }
{
    let (net, other) = gather(alloc, request, shelf)?;
    // Proof: the network is that of an accepted file.
    net.recall();
    let found = find(alloc, request, &net, other)?;
    Ok(Outcome { net, found })
}

/// Answers the words with the files of the shelf.
pub(crate) fn answer<S: Shelf>(
    alloc: Global,
    words: &[String],
    shelf: &mut S,
) -> Result<Outcome, Refusal>
    ensures answered { AnswersCall
        (record { words = texts words.now; shelf = visit S.Shelf shelf.old shelf.new }) result }
    ensures same { (name : List ℕ) → S.told shelf.new name ≡ S.told shelf.old name }
    ensures never_falls { S.faults shelf.old ≤ S.faults shelf.new }
{
    match read_request(alloc, words) {
        Ok(Some(request)) => answer_request(alloc, &request, shelf),
        Ok(None) => Err(Refusal::NoRequest),
        Err(AllocError) => Err(Refusal::NoMemory),
    }
}
