// Building the network that a file stands for.
ghost use Rattle.std.specs.Prelude.{◌≡◌, ◌<◌, ◌≤◌, [], ◌∷◌, true, is_some, length, map, not, IfOk, OnOk, Some};
ghost use Rattle.nf_net_def.specs.Names.{place_of, with_names, without};
ghost use Rattle.nf_net_def.specs.Named.{numbered, ends, names_of};
ghost use Rattle.nf_net_def.specs.NetClosing.{marked, StandsFor};
ghost use Rattle.nf_net_file.specs.Drafts.{seen_draft};
ghost use Rattle.nf_net_file.specs.Contents.{IsRead};
ghost use Rattle.nf_net_file.specs.Closing.{HasEnds, BreaksNone, AreFlags, flag_at, tail_flags};
ghost use Rattle.nf_net.specs.Building.{AreDivided, AreNodesOf, AreTablesOf, ArePartsOf};
ghost use Rattle.nf_net_def.specs.Limits.{most_nodes};

use crate::network::Network;
use nf_graph::{Hop, NodeId};
use nf_net_file::{Draft, Link, Name, NamedLink, Names, hops_of};
use std::alloc::{AllocError, Global};

// Returns the flag of a link's tail: whether the source reaches it.
fn is_active(nodes: &Names, flags: &[bool], link: &NamedLink) -> bool
    requires { length nodes.now ≤ length flags.now }
    ensures { result ≡ flag_at flags.now (place_of nodes.now link.now.tail) }
{
    let tail = nodes.place_or_len(&link.tail);
    if tail < flags.len() {
        flags[tail]
    } else {
        false
    }
}

// Returns the links whose tails are reached.
fn active_of(
    alloc: Global,
    nodes: &Names,
    flags: &[bool],
    links: &[NamedLink],
) -> Result<Vec<NamedLink>, AllocError>
    requires { length nodes.now ≤ length flags.now }
    ensures { IfOk result
        (λ active. active.items ≡ marked (tail_flags nodes.now flags.now links.now) links.now) }
{
    let mut active = Vec::new(alloc);
    for link in links {
        if is_active(nodes, flags, link) {
            active.push(link.copy())?;
        }
    }
    Ok(active)
}

// Returns the links whose tails are not reached.
fn idle_of(
    alloc: Global,
    nodes: &Names,
    flags: &[bool],
    links: &[NamedLink],
) -> Result<Vec<NamedLink>, AllocError>
    requires { length nodes.now ≤ length flags.now }
    ensures { IfOk result (λ idle. idle.items
        ≡ marked (map not (tail_flags nodes.now flags.now links.now)) links.now) }
{
    let mut idle = Vec::new(alloc);
    for link in links {
        if !is_active(nodes, flags, link) {
            idle.push(link.copy())?;
        }
    }
    Ok(idle)
}

// Appends the names of the ends of these links, each if the list does not contain it yet.
fn put_ends(names: &mut Names, links: &[NamedLink]) -> Result<(), AllocError>
    ensures { OnOk result (names.new ≡ with_names names.old (ends links.now)) }
{
    for link in links {
        names.put(link.tail.copy())?;
        names.put(link.head.copy())?;
    }
    Ok(())
}

// Returns the names of the links.
fn link_names(alloc: Global, links: &[NamedLink]) -> Result<Vec<Name>, AllocError>
    ensures { IfOk result (λ names. names.items ≡ names_of links.now) }
{
    let mut names = Vec::new(alloc);
    for link in links {
        names.push(link.name.copy())?;
    }
    Ok(names)
}

// Copies the names.
fn copied(alloc: Global, names: &[Name]) -> Result<Vec<Name>, AllocError>
    ensures { IfOk result (λ copies. copies.items ≡ names.now) }
{
    let mut copies = Vec::new(alloc);
    for name in names {
        copies.push(name.copy())?;
    }
    Ok(copies)
}

fn number(nodes: &Names, link: &NamedLink) -> Link
    requires { length nodes.now ≤ most_nodes }
    ensures { result ≡ numbered nodes.now link.now }
{
    let tail = nodes.place_or_len(&link.tail);
    let head = nodes.place_or_len(&link.head);
    Link {
        tail: NodeId(tail as u32),
        head: NodeId(head as u32),
        transit: link.transit,
        capacity: link.capacity,
    }
}

fn numbered_links(
    alloc: Global,
    nodes: &Names,
    links: &[NamedLink],
) -> Result<Vec<Link>, AllocError>
    requires { length nodes.now ≤ most_nodes }
    ensures { IfOk result (λ numbers. numbers.items ≡ map (numbered nodes.now) links.now) }
{
    let mut numbers = Vec::new(alloc);
    for link in links {
        numbers.push(number(nodes, link))?;
    }
    Ok(numbers)
}

// Returns the names that `these` does not contain.
fn names_without(alloc: Global, these: &Names, names: &[Name]) -> Result<Vec<Name>, AllocError>
    ensures { IfOk result (λ others. others.items ≡ without these.now names.now) }
{
    let mut others = Vec::new(alloc);
    for name in names {
        if !these.has(name) {
            others.push(name.copy())?;
        }
    }
    Ok(others)
}

// Returns the nodes that occur in idle links only.
fn idle_nodes(alloc: Global, nodes: &Names, idle: &[NamedLink]) -> Result<Vec<Name>, AllocError>
    ensures { IfOk result
        (λ others. others.items ≡ without nodes.now (with_names [] (ends idle.now))) }
{
    let mut names = Names::new(alloc);
    put_ends(&mut names, idle)?;
    names_without(alloc, nodes, names.as_slice())
}

// Returns the nodes that are not idle: the source, the sink, and the ends of active links.
fn active_nodes(
    alloc: Global,
    source: &Name,
    sink: &Name,
    active: &[NamedLink],
) -> Result<Names, AllocError>
    ensures { IfOk result (λ nodes. nodes
        ≡ with_names (with_names [] (source.now ∷ sink.now ∷ [])) (ends active.now)) }
{
    let mut nodes = Names::new(alloc);
    nodes.put(source.copy())?;
    nodes.put(sink.copy())?;
    put_ends(&mut nodes, active)?;
    Ok(nodes)
}

fn given(name: &Option<Name>) -> &Name
    requires { is_some name.now ≡ true }
    ensures { name.now ≡ Some result.now }
{
    match name {
        Some(name) => name,
        None => unreachable!(),
    }
}

// The links of a draft. `active` holds those whose tails are reached, and `idle` the others.
#[derive(Drop)]
struct SortedLinks {
    active: Vec<NamedLink>,
    idle: Vec<NamedLink>,
}

// Divides the links of a draft by the flags of its nodes.
fn sorted_links(alloc: Global, draft: &Draft, flags: &[bool]) -> Result<SortedLinks, AllocError>
    requires { length draft.now.nodes ≤ length flags.now }
    ensures { IfOk result (λ links. AreDivided (seen_draft draft.now) flags.now links) }
{
    let active = active_of(alloc, &draft.nodes, flags, &draft.links)?;
    let idle = idle_of(alloc, &draft.nodes, flags, &draft.links)?;
    Ok(SortedLinks { active, idle })
}

// The nodes of a draft. `active` holds those that have numbers, and `idle` the others.
#[derive(Drop)]
struct SortedNodes {
    active: Names,
    idle: Vec<Name>,
}

// Divides the nodes of a draft into the ends of active links, with source and sink, and the other ends.
fn sorted_nodes(
    alloc: Global,
    draft: &Draft,
    links: &SortedLinks,
) -> Result<SortedNodes, AllocError>
    requires { HasEnds (seen_draft draft.now) }
    ensures { IfOk result (λ nodes. AreNodesOf (seen_draft draft.now) links.now nodes) }
{
    let source = given(&draft.source);
    let sink = given(&draft.sink);
    let active = active_nodes(alloc, source, sink, &links.active)?;
    let idle = idle_nodes(alloc, &active, &links.idle)?;
    Ok(SortedNodes { active, idle })
}

// The tables of a network by number. They hold the names of nodes and links, the links, and the links without capacities.
#[derive(Drop)]
struct Tables {
    node_names: Vec<Name>,
    link_names: Vec<Name>,
    links: Vec<Link>,
    hops: Vec<Hop>,
}

// Makes the tables of these links. The index of a name in `nodes` is the number of the node.
fn tables_of(alloc: Global, nodes: &Names, links: &[NamedLink]) -> Result<Tables, AllocError>
    requires { length nodes.now ≤ most_nodes }
    ensures { IfOk result (λ tables. AreTablesOf nodes.now links.now tables) }
{
    let numbers = numbered_links(alloc, nodes, links)?;
    let hops = hops_of(alloc, nodes, links)?;
    let node_names = copied(alloc, nodes.as_slice())?;
    let link_names = link_names(alloc, links)?;
    Ok(Tables {
        node_names,
        link_names,
        links: numbers,
        hops,
    })
}

/// The parts of a network without its version and pieces. The draft holds these two.
#[derive(Drop)]
pub struct Parts {
    links: SortedLinks,
    nodes: SortedNodes,
    tables: Tables,
}

/// Returns the parts of the network that the draft stands for. The draft must break no rule. Fails if an allocation fails.
pub fn parts_of(alloc: Global, draft: &Draft, flags: &[bool]) -> Result<Parts, AllocError>
    requires read { IsRead (seen_draft draft.now) }
    requires ends { HasEnds (seen_draft draft.now) }
    requires fine { BreaksNone (seen_draft draft.now) }
    requires flags { AreFlags (seen_draft draft.now) flags.now }
    ensures { IfOk result (λ parts. ArePartsOf (seen_draft draft.now) parts) }
{
    let links = sorted_links(alloc, draft, flags)?;
    let nodes = sorted_nodes(alloc, draft, &links)?;
    let tables = tables_of(alloc, &nodes.active, &links.active)?;
    Ok(Parts {
        links,
        nodes,
        tables,
    })
}

/// Makes the network of a draft and its parts.
pub fn network_of(draft: Draft, parts: Parts) -> Network
    requires { ArePartsOf (seen_draft draft) parts }
    ensures { StandsFor (seen_draft draft) result }
{
    let Parts {
        links,
        nodes,
        tables,
    } = parts;
    Network {
        version: draft.version,
        node_names: tables.node_names,
        link_names: tables.link_names,
        links: tables.links,
        hops: tables.hops,
        pieces: draft.pieces,
        idle_nodes: nodes.idle,
        idle_links: links.idle,
    }
}
