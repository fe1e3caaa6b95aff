// What the server keeps of each client.
ghost use Rattle.std.specs.Prelude.{◌≡◌, ◌≤◌, replicate, None, slice_index, slice_index_or, slice_set, option_map, OnOk, IfOk};

use aeg_base::Memory;
use server_model::Progress;
use std::alloc::Global;
use std::marker::Model;

/// The last sequence number of each client, and its request in progress, by the clients' numbers.
#[derive(Drop)]
pub struct Clients {
    last: [u32; 17],
    progress: [Option<Progress>; 17],
}

impl Model for Clients {
    ghost use Rattle.std.specs.Prelude.{◌≡◌, length};
    ghost use Rattle.one_server.specs.Clients.{Kept, kept_code};

    ghost Value = { Kept };

    ghost coded = { kept_code };

    ghost view = { λ c. record { last = c.last; progress = c.progress } };

    ghost invariant = { λ c. (length c.last ≡ 17) × (length c.progress ≡ 17) };
}

impl Clients {
    pub fn new() -> Self
        ensures last { result.last ≡ replicate 17 0 }
        ensures progress { result.progress ≡ replicate 17 None }
    {
        Clients {
            last: [0; 17],
            progress: [
                None, None, None, None, None, None, None, None, None, None, None, None, None, None,
                None, None, None,
            ],
        }
    }

    pub fn last(&self, client: u8) -> u32
        requires { client ≤ 16 }
        ensures { result ≡ slice_index self.now.last client }
    {
        self.last[usize::from(client)]
    }

    pub fn progress(&self, client: u8) -> Option<&Progress>
        requires { client ≤ 16 }
        ensures { option_map (λ progress. progress.now) result ≡ slice_index_or self.now.progress client None }
    {
        self.progress[usize::from(client)].as_ref()
    }

    /// The client's request has this number, and is in progress or not.
    pub fn set(&mut self, client: u8, seq: u32, progress: Option<Progress>)
        requires { client ≤ 16 }
        ensures last { self.new.last ≡ slice_set self.old.last client seq }
        ensures progress { self.new.progress ≡ slice_set self.old.progress client progress }
    {
        self.last[usize::from(client)] = seq;
        self.progress[usize::from(client)] = progress;
    }
}
