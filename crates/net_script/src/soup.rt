// The list of all packets.
ghost use Rattle.std.specs.Prelude.{◌≡◌, ◌≢◌, ◌<◌, ◌≤◌, ◌++◌, ◌∷◌, [], length, slice_get, option_map, OnOk, OnErr, IfOk, IfSome, IfNone};
ghost use Rattle.net_script.specs.Soups.{packet_of, IsIn, HasGrown};

use aeg_base::limits::PACKETS;
use aeg_base::{Bytes, End, Memory};
use std::alloc::Global;
use std::marker::Model;

/// Whom a packet goes to, and where its bytes begin and end in the run of all bytes.
#[derive(Clone, Copy, Debug)]
pub struct Sent {
    to: End,
    from: u32,
    until: u32,
}

/// All packets that were sent, in order, each with whom it goes to. None is ever taken out. Packets with the same bytes
/// one after another have them once, as when all are told the same.
#[derive(Debug, Drop)]
pub struct Soup {
    run: Vec<u8>,
    sent: Vec<Sent>,
}

impl Model for Soup {
    ghost use Rattle.std.specs.Prelude.{List, ℕ, ◌≤◌, length};
    ghost use Rattle.std.specs.List.{AllByRecursion};
    ghost use Rattle.aeg_base.specs.declared.names.End.{End};
    ghost use Rattle.aeg_base.specs.declared.limits.TheConstants.{PACKETS};
    ghost use Rattle.net_script.specs.Soups.{packets_of, IsIn};

    ghost Value = { List (End × List ℕ) };

    ghost view = { λ s. packets_of s.run.items s.sent.items };

    ghost invariant = { λ s. (length s.sent.items ≤ PACKETS) × AllByRecursion (IsIn s.run.items) s.sent.items };
}

/// The packet with these bytes, where they are those of the last one.
fn again(run: &[u8], last: Option<&Sent>, to: End, bytes: &[u8]) -> Option<Sent>
    requires { IfSome last (λ sent. IsIn run.now sent.now) }
    ensures same { IfSome result (λ sent. (packet_of run.now sent ≡ (to, bytes.now)) × IsIn run.now sent) }
    ensures other { IfNone result (IfSome last.entry (λ sent. (packet_of run.now sent.now).1 ≢ bytes.now)) }
{
    let last = last?;
    let mine = &run[last.from as usize..last.until as usize];
    if mine == bytes {
        return Some(Sent {
            to,
            from: last.from,
            until: last.until,
        });
    }
    None
}

/// Adds the bytes at the end of the run.
fn put(run: &mut Vec<u8>, to: End, bytes: &[u8]) -> Result<Sent, Memory>
    ensures grown { HasGrown run.old.items run.new.items }
    ensures packet { IfOk result (λ sent. (packet_of run.new.items sent ≡ (to, bytes.now)) × IsIn run.new.items sent) }
{
    let from = run.len();
    run.extend_from_slice(bytes)?;
    let Ok(until) = u32::try_from(run.len()) else {
        return Err(Memory);
    };
    Ok(Sent {
        to,
        from: from as u32,
        until,
    })
}

impl Soup {
    /// No packets.
    pub fn new(alloc: Global) -> Self
        ensures { result ≡ [] }
    {
        Soup {
            run: Vec::new(alloc),
            sent: Vec::new(alloc),
        }
    }

    /// Adds a packet at the end.
    pub fn push(&mut self, to: End, bytes: Bytes) -> Result<(), Memory>
        requires { length self.old < PACKETS }
        ensures ok { OnOk result (self.new ≡ self.old ++ (to, bytes) ∷ []) }
        ensures err { OnErr result (self.new ≡ self.old) }
    {
        if let Some(sent) = again(&self.run, self.sent.last(), to, bytes.items()) {
            self.sent.push(sent)?;
            return Ok(());
        }
        let sent = put(&mut self.run, to, bytes.items())?;
        self.sent.push(sent)?;
        Ok(())
    }

    /// How many packets were sent.
    pub fn len(&self) -> u32
        ensures is { result ≡ length self.now }
        ensures few { result ≤ PACKETS }
    {
        self.sent.len() as u32
    }

    /// A packet by its number, from 0.
    pub fn get(&self, k: u32) -> Option<(End, &[u8])>
        ensures { option_map (λ packet. (packet.0, packet.1.now)) result ≡ slice_get self.now k }
    {
        let sent = self.sent.get(k as usize)?;
        Some((sent.to, &self.run[sent.from as usize..sent.until as usize]))
    }
}
