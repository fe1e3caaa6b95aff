// A script that was read.
ghost use Rattle.std.specs.Prelude.{◌≡◌, ◌≤◌, length, IfSome, option_map, slice_get};
ghost use Rattle.aeg_base.specs.declared.limits.TheConstants.{MAX_FAULTS, MAX_DEPTH, INPUT_BYTES};
ghost use Rattle.net_script.specs.Events.{IsProper, AreSizes, AreProper};

use aeg_base::Seq;
use run_model::Event;
use std::marker::Model;

/// A script: the numbers of its header, and its events with their lines.
#[derive(Debug, Drop)]
pub struct Script {
    u: u8,
    depth: u8,
    events: Seq<(u32, Event)>,
}

impl Model for Script {
    ghost use Rattle.std.specs.Prelude.{◌≤◌, length};
    ghost use Rattle.aeg_base.specs.declared.limits.TheConstants.{INPUT_BYTES};
    ghost use Rattle.run_model.specs.Script.{Script as Whole};
    ghost use Rattle.net_script.specs.Events.{AreSizes, AreProper};

    ghost Value = { Whole };

    ghost view = { λ s. record { u = s.u; depth = s.depth; events = s.events } };

    ghost invariant = { λ s. AreSizes s.u s.depth × AreProper s.u s.events × (length s.events ≤ INPUT_BYTES) };
}

impl Script {
    /// Takes over what was read.
    pub fn of(u: u8, depth: u8, events: Seq<(u32, Event)>) -> Self
        requires sizes { AreSizes u depth }
        requires proper { AreProper u events }
        requires few { length events ≤ INPUT_BYTES }
        ensures { result ≡ record { u = u; depth = depth; events = events } }
    {
        Script { u, depth, events }
    }

    /// The tiers have 2u+1 nodes each.
    pub fn u(&self) -> u8
        ensures is { result ≡ self.now.u }
        ensures within { result ≤ MAX_FAULTS }
    {
        self.u
    }

    /// The depth of the pipeline.
    pub fn depth(&self) -> u8
        ensures is { result ≡ self.now.depth }
        ensures within { (1 ≤ result) × (result ≤ MAX_DEPTH) }
    {
        self.depth
    }

    /// An event by its number, from 0, with its line.
    pub fn event(&self, k: u32) -> Option<(u32, &Event)>
        ensures is { option_map (λ event. (event.0, event.1.now)) result ≡ slice_get self.now.events k }
        ensures proper { IfSome result (λ event. IsProper self.now.u event.1.now) }
        ensures few { length self.now.events ≤ INPUT_BYTES }
    {
        let event = self.events.items().get(k as usize)?;
        Some((event.0, &event.1))
    }
}
