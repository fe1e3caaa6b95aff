// The words that name nodes, clients and packets.
ghost use Rattle.std.specs.Prelude.{◌≡◌, ◌≤◌, ◌<◌, IfSome};
ghost use Rattle.server_model.specs.Words.{number_in};
ghost use Rattle.run_model.specs.Script.{tier_of_letter, node_in, client_in, end_in, packet_in};
ghost use Rattle.net_script.specs.Events.{IsEnd};
ghost use Rattle.log_values.specs.Fields.{IsClient};

use aeg_base::limits::{CLIENTS, PACKETS};
use aeg_base::{End, NodeId, Tier};
use server_model::number;

/// The last index of a node: its word has one digit, also in tiers that have fewer nodes.
const LAST_INDEX: u32 = 4;

fn tier_of(letter: u8) -> Option<Tier>
    ensures { result ≡ tier_of_letter letter }
{
    if letter == b'm' {
        return Some(Tier::Mid);
    }
    if letter == b'i' {
        return Some(Tier::Inv);
    }
    if letter == b'p' {
        return Some(Tier::Pay);
    }
    None
}

/// A node, as the letter of its tier and a digit.
pub fn node_of(word: &[u8]) -> Option<NodeId>
    ensures { result ≡ node_in word.now }
{
    let (letter, digits) = word.split_first()?;
    let tier = tier_of(*letter)?;
    let index = number(digits, 0, LAST_INDEX)?;
    Some(NodeId {
        tier,
        index: index as u8,
    })
}

/// The number of a client.
pub fn client_number(digits: &[u8]) -> Option<u8>
    ensures is { result ≡ number_in 1 16 digits.now }
    ensures client { IfSome result IsClient }
{
    let client = number(digits, 1, u32::from(CLIENTS))?;
    Some(client as u8)
}

fn client_of(word: &[u8]) -> Option<u8>
    ensures is { result ≡ client_in word.now }
    ensures client { IfSome result IsClient }
{
    let (letter, digits) = word.split_first()?;
    if *letter != b'c' {
        return None;
    }
    client_number(digits)
}

/// A node, or a client as the letter c and its number.
pub fn end_of(word: &[u8]) -> Option<End>
    ensures is { result ≡ end_in word.now }
    ensures client { IfSome result IsEnd }
{
    if let Some(node) = node_of(word) {
        return Some(End::Node(node));
    }
    let client = client_of(word)?;
    Some(End::Client(client))
}

pub fn packet_of(word: &[u8]) -> Option<u32>
    ensures is { result ≡ packet_in word.now }
    ensures within { IfSome result (λ packet. packet < PACKETS) }
{
    number(word, 0, PACKETS - 1)
}
