// What nodes at their places are in the definition of worlds.
ghost use Rattle.std.specs.Prelude.{◌≡◌, List, [], length};
ghost use Rattle.aeg_disk.specs.Disk.{DiskState};
ghost use Rattle.fact_journal.specs.Standing.{IsAtRest, IsBlank};
ghost use Rattle.log_model.specs.Nodes.Mode.{Down};
ghost use Rattle.log_model.specs.Nodes.{stands};
ghost use Rattle.log_values.specs.Records.{record_text};
ghost use Rattle.log_values.specs.declared.fact.Fact.{Fact};
ghost use Rattle.run_model.specs.World.{Config, fate};
ghost use Rattle.run_model.specs.declared.trace.Fared.{Fared};
ghost use Rattle.tier_nodes.specs.Arming.{fate_of};
ghost use Rattle.tier_nodes.specs.Standing.{IsDiskOf};

/// A node's device fares as in a world whose records are as long as their texts, and a blank disk is that of a node that
/// was never started.
pub fn nodes_in_worlds<B>()
    ensures fates { (c : Config B) (fared : Fared) (records : List (List Fact)) (facts : List Fact)
        → ((r : List Fact) → c.record_length r ≡ length (record_text r)) → fate c fared records facts ≡ fate_of fared records facts }
    ensures blank { (disk : DiskState) → IsBlank disk → IsAtRest disk → IsDiskOf {S = B} (stands Down []) disk }
{}
