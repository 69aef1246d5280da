//! A file in memory, of which a crash leaves what was synced last.
ghost use Rattle.std.specs.Prelude.{◌≡◌, ◌⊎◌, [], true, false, refl, is_ok, length, option_map};
ghost use Rattle.std.specs.Prelude.{unwrap_or, None, OnOk};
ghost use Rattle.std.proofs.Common.{inl};
ghost use Rattle.sqlite_disk.specs.Disk.{Holds, Torn, Cut, CountsFault};
ghost use Rattle.sqlite_disk.specs.Refusal.{finds_no_room};
ghost use Rattle.fuse_store_files.specs.CrashMemory.{bytes_in, synced_in};

use sqlite_disk::{Disk, Tally, digest_of};
use std::alloc::{AllocError, Global};
use std::io;

/// A file in memory. A crash leaves what was synced last.
#[derive(Drop)]
pub struct CrashMemory {
    bytes: Vec<u8>,
    /// What was synced last, if something was written since.
    synced: Option<Vec<u8>>,
    faults: u64,
    caught: u64,
}

impl CrashMemory {
    /// An empty file. Allocates nothing.
    pub fn new(alloc: Global) -> CrashMemory
        ensures bytes { bytes_in result ≡ [] }
        ensures synced { synced_in result ≡ [] }
    {
        CrashMemory {
            bytes: Vec::new(alloc),
            synced: None,
            faults: 0,
            caught: 0,
        }
    }

    /// What a read returns.
    pub fn bytes(&self) -> &[u8]
        ensures { result.now ≡ bytes_in self.now }
    {
        &self.bytes
    }

    // Loses what was not synced. Allocates nothing.
    pub(crate) fn lose_unsynced(&mut self)
        ensures bytes { bytes_in self.new ≡ synced_in self.old }
        ensures synced { synced_in self.new ≡ synced_in self.old }
    {
        if let Some(synced) = self.synced.take() {
            self.bytes = synced;
        }
    }
}

// Counts a refused allocation.
fn count(outcome: Result<(), AllocError>, faults: &mut u64) -> io::Result<()>
    ensures variant { is_ok result ≡ is_ok outcome }
    ensures kind { finds_no_room result ≡ false }
    ensures faults { CountsFault result faults.old faults.new }
{
    if outcome.is_err() {
        *faults = faults.saturating_add(1);
        return Err(io::Error::from(io::ErrorKind::OutOfMemory));
    }
    Ok(())
}

// Keeps the bytes that were synced, before they are changed.
fn keep(bytes: &Vec<u8>, synced: &mut Option<Vec<u8>>) -> Result<(), AllocError>
    ensures same { unwrap_or (option_map (λ v. v.items) synced.new) bytes.now.items
        ≡ unwrap_or (option_map (λ v. v.items) synced.old) bytes.now.items }
    ensures kept { OnOk result (synced.new ≡ None → ⊥) }
{
    if synced.is_none() {
        *synced = Some(Vec::from_slice(*bytes.allocator(), bytes.as_slice())?);
    }
    Ok(())
}

fn resize(file: &mut Vec<u8>, len: usize) -> Result<(), AllocError>
    ensures len { OnOk result (length file.new.items ≡ len) }
    ensures others { Cut len file.old.items file.new.items }
{
    file.resize(len, 0)
}

fn overwrite(file: &mut Vec<u8>, at: usize, bytes: &[u8]) -> Result<(), AllocError>
    ensures written { OnOk result (Holds file.new.items at bytes.now) }
    ensures others { Torn at (length bytes.now) file.old.items file.new.items }
{
    let end = at.checked_add(bytes.len()).ok_or(AllocError)?;
    if end > file.len() {
        resize(file, end)?;
    }
    file[at..end].copy_from_slice(bytes);
    Ok(())
}

impl Disk for CrashMemory {
    ghost seen = { bytes_in };

    ghost may_leave = { λ m c. (c ≡ bytes_in m) ⊎ (c ≡ synced_in m) };

    ghost is_usable = { λ _. true };

    ghost faults = { λ m. m.faults };

    ghost tally_of = { λ m. record { caught = m.caught; refused = 0 } };

    ghost is_clean = { λ _. true };

    ghost key_of = { λ _. 0 };

    ghost is_fair = { λ _ _. true };

    ghost fair_if_clean = { λ _ _ _. refl };

    ghost seen_may_stay = { λ m. inl refl };

    fn mixes(&self) -> bool {
        false
    }

    // Memory always returns what was written, so it needs no secret.
    fn key(&self) -> u64 {
        0
    }

    fn tally(&self) -> Tally {
        Tally {
            caught: self.caught,
            refused: 0,
        }
    }

    fn may_be_used(&self) -> bool {
        true
    }

    fn len(&mut self) -> io::Result<usize> {
        Ok(self.bytes.len())
    }

    fn read_at(&mut self, at: usize, buf: &mut [u8]) -> io::Result<()> {
        if at > self.bytes.len() || buf.len() > self.bytes.len() - at {
            return Err(io::ErrorKind::UnexpectedEof.into());
        }
        buf.copy_from_slice(&self.bytes[at..at + buf.len()]);
        Ok(())
    }

    fn read_checked(&mut self, key: u64, want: u64, at: usize, buf: &mut [u8]) -> io::Result<()> {
        self.read_at(at, buf)?;
        if digest_of(key, buf) != want {
            self.faults = self.faults.saturating_add(1);
            self.caught = self.caught.saturating_add(1);
            return Err(io::ErrorKind::InvalidData.into());
        }
        Ok(())
    }

    fn write_at(&mut self, at: usize, bytes: &[u8]) -> io::Result<()> {
        count(keep(&self.bytes, &mut self.synced), &mut self.faults)?;
        count(overwrite(&mut self.bytes, at, bytes), &mut self.faults)
    }

    fn set_len(&mut self, len: usize) -> io::Result<()> {
        count(keep(&self.bytes, &mut self.synced), &mut self.faults)?;
        count(resize(&mut self.bytes, len), &mut self.faults)
    }

    // What is read is what was synced from now on.
    fn sync(&mut self) -> io::Result<()> {
        self.synced = None;
        Ok(())
    }
}
