// What undoes each write and sync of a disk in memory.
ghost use Rattle.std.specs.Prelude.{◌≡◌, ◌∷◌, [], ℕ, List, true, false, length, reverse, OnOk, OnErr, IfOk};
ghost use Rattle.aeg_disk.specs.Memory.{kept_of, mark_of, undone};
ghost use Rattle.aeg_disk.specs.Tape.{change_of, changes_of, length_after};

use crate::note::Note;
use aeg_base::Memory;
use std::alloc::Global;
use std::marker::Model;

/// What undoes each write and sync, which contracts see as a list of changes, the newest first. The bytes that were
/// replaced stand in one run, those of a later change behind those of an earlier one.
#[derive(Drop)]
pub struct Tape {
    notes: Vec<Note>,
    run: Vec<u8>,
}

impl Model for Tape {
    ghost use Rattle.std.specs.Prelude.{List, reverse};
    ghost use Rattle.aeg_disk.specs.Memory.{Change};
    ghost use Rattle.aeg_disk.specs.Tape.{changes_of};

    ghost Value = { List Change };

    ghost view = { λ t. changes_of (reverse t.notes.items) t.run.items };
}

/// The disk's length after the change of a note with which a sync is noted.
fn length_after(note: &Note) -> u64
    ensures { result ≡ length_after note.now }
{
    u64::from(note.before).max(u64::from(note.place) + u64::from(note.count))
}

/// A number as a note has it.
pub(crate) fn narrow(n: usize) -> Result<u32, Memory>
    ensures { IfOk result (λ m. m ≡ n) }
{
    match u32::try_from(n) {
        Ok(m) => Ok(m),
        Err(_) => Err(Memory),
    }
}

/// Takes note of a sync of a disk of this length at the last note, where that one has no sync yet and tells the length.
fn sync_last(notes: &mut Vec<Note>, len: usize) -> bool
    ensures yes { result ≡ true → (run : List ℕ) → changes_of (reverse notes.new.items) run ≡ mark_of 0 0 len true ∷ changes_of (reverse notes.old.items) run }
    ensures no { result ≡ false → notes.new.items ≡ notes.old.items }
{
    let Some(last) = notes.last_mut() else {
        return false;
    };
    if last.synced || length_after(last) != len as u64 {
        return false;
    }
    last.synced = true;
    true
}

// The bytes before a change.
fn undo(alloc: Global, bytes: &[u8], note: Note, replaced: &[u8]) -> Result<Vec<u8>, Memory>
    ensures { IfOk result (λ v. v.items ≡ undone (change_of note replaced.now) bytes.now) }
{
    let before = note.before as usize;
    let start = (note.place as usize).min(before);
    let len = bytes.len();
    let end = start.saturating_add(replaced.len()).min(len);
    let mut out = bytes[..start.min(len)].to_vec(alloc)?;
    out.extend_from_slice(replaced)?;
    out.extend_from_slice(&bytes[end..])?;
    out.truncate(before);
    Ok(out)
}

// The bytes before all changes since the last one that settled them.
fn kept(alloc: Global, bytes: &[u8], notes: &[Note], run: &[u8]) -> Result<Vec<u8>, Memory>
    ensures { IfOk result (λ v. v.items ≡ kept_of (changes_of (reverse notes.now) run.now) bytes.now) }
{
    let mut out = bytes.to_vec(alloc)?;
    let mut rest = notes;
    let mut run = run;
    while let [before @ .., last] = rest {
        if last.settles || last.synced {
            break;
        }
        let (older, replaced) = run.split_at(run.len().saturating_sub(last.replaced as usize));
        out = undo(alloc, &out, *last, replaced)?;
        rest = before;
        run = older;
    }
    Ok(out)
}

impl Tape {
    /// Nothing was written.
    pub fn new(alloc: Global) -> Self
        ensures { result ≡ [] }
    {
        Tape {
            notes: Vec::new(alloc),
            run: Vec::new(alloc),
        }
    }

    /// Takes note of a change at a place, of a disk of this length: it wrote so many bytes over these.
    pub fn add(
        &mut self,
        place: usize,
        count: usize,
        before: usize,
        replaced: &[u8],
        settles: bool,
    ) -> Result<(), Memory>
        ensures ok { OnOk result (self.new ≡ record { place = place; count = count; before = before; replaced = replaced.now; settles = settles } ∷ self.old) }
        ensures err { OnErr result (self.new ≡ self.old) }
    {
        let note = Note {
            place: narrow(place)?,
            count: narrow(count)?,
            before: narrow(before)?,
            replaced: narrow(replaced.len())?,
            settles,
            synced: false,
        };
        let earlier = self.run.len();
        self.run.extend_from_slice(replaced)?;
        if self.notes.push(note).is_err() {
            self.run.truncate(earlier);
            return Err(Memory);
        }
        Ok(())
    }

    /// Takes note of a sync of a disk of this length.
    pub fn settle(&mut self, len: usize) -> Result<(), Memory>
        ensures ok { OnOk result (self.new ≡ mark_of 0 0 len true ∷ self.old) }
        ensures err { OnErr result (self.new ≡ self.old) }
    {
        if sync_last(&mut self.notes, len) {
            return Ok(());
        }
        self.add(0, 0, len, &[], true)
    }

    /// What stood at the last sync.
    pub fn kept(&self, alloc: Global, bytes: &[u8]) -> Result<Vec<u8>, Memory>
        ensures { IfOk result (λ v. v.items ≡ kept_of self.now bytes.now) }
    {
        kept(alloc, bytes, &self.notes, &self.run)
    }

    /// Forgets all changes.
    pub fn clear(&mut self)
        ensures { self.new ≡ [] }
    {
        self.notes.clear();
        self.run.clear();
    }
}
