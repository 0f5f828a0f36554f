//! Bytes of a stream that were fed, and that nothing has read yet.
ghost use Rattle.std.specs.Prelude.{◌≡◌, ◌++◌, ◌-◌, ◌<◌, ◌≤◌, [], IfErr, Ok, OnErr, OnOk, length, true};
ghost use Rattle.jpeg_bits.specs.declared.error.Error.TheVariants.{OutOfMemory};

use jpeg_bits::error::Result;
use std::alloc::Global;
use std::marker::Model;

/// Bytes that weren't read: those that are tried next, and those that come later.
#[derive(Drop)]
pub struct Unread {
    tried: Vec<u8>,
    queue: Vec<u8>,
    /// How many bytes of the queue were moved to those that are tried.
    moved: usize,
}

impl Model for Unread {
    ghost use Rattle.std.specs.Prelude.{◌≤◌, drop, length};
    ghost use Rattle.jpeg_decoder.specs.FedRows.{UnreadBytes};

    ghost Value = { UnreadBytes };

    ghost view = { λ u. record {
      tried = u.tried.items;
      later = drop u.moved u.queue.items;
    } };

    ghost invariant = { λ u. u.moved ≤ length u.queue.items };
}

impl Unread {
    /// Makes one that has no bytes yet.
    pub fn new(alloc: Global) -> Unread
        ensures { result ≡ record { tried = []; later = [] } }
    {
        Unread {
            tried: Vec::new(alloc),
            queue: Vec::new(alloc),
            moved: 0,
        }
    }

    /// Takes bytes after all others. The only error is `OutOfMemory`, in which case nothing has
    /// changed.
    pub fn feed(&mut self, piece: &[u8]) -> Result<()>
        ensures fed { OnOk result
            (self.new ≡ record self.old { later = self.old.later ++ piece.now }) }
        ensures unfed { OnErr result (self.new ≡ self.old) }
        ensures err { IfErr result (λ e. e ≡ OutOfMemory) }
    {
        self.queue.extend_from_slice(piece)?;
        Ok(())
    }

    /// Returns those that are tried next.
    pub fn tried(&self) -> &[u8]
        ensures { result.now ≡ self.now.tried }
    {
        &self.tried
    }

    /// Returns how many there are, as far as that can be counted.
    pub fn len(&self) -> usize {
        self.tried
            .len()
            .saturating_add(self.queue.len() - self.moved)
    }

    /// Lets this many be tried next, if there are as many. The only error is `OutOfMemory`.
    pub fn widen(&mut self, count: usize) -> Result<()>
        ensures same { OnOk result
            (self.new.tried ++ self.new.later ≡ self.old.tried ++ self.old.later) }
        ensures least { OnOk result (length self.new.later ≤ length self.old.later) }
        ensures err { IfErr result (λ e. e ≡ OutOfMemory) }
    {
        let more = count.saturating_sub(self.tried.len());
        self.widen_by(more)
    }

    /// Lets half as many more be tried next, so that all tries together cost a few times one, and
    /// returns whether there were others. The only error is `OutOfMemory`.
    pub fn widen_more(&mut self) -> Result<bool>
        ensures same { OnOk result
            (self.new.tried ++ self.new.later ≡ self.old.tried ++ self.old.later) }
        ensures fewer { result ≡ Ok true → length self.new.later < length self.old.later }
        ensures least { OnOk result (length self.new.later ≤ length self.old.later) }
        ensures err { IfErr result (λ e. e ≡ OutOfMemory) }
    {
        if self.moved == self.queue.len() {
            return Ok(false);
        }
        let more = self.tried.len() / 2 + 1;
        self.widen_by(more)?;
        Ok(true)
    }

    /// Lets this many more be tried next, or all others.
    fn widen_by(&mut self, more: usize) -> Result<()>
        ensures same { OnOk result
            (self.new.tried ++ self.new.later ≡ self.old.tried ++ self.old.later) }
        ensures later { OnOk result (length self.new.later ≡ length self.old.later - more) }
        ensures err { IfErr result (λ e. e ≡ OutOfMemory) }
    {
        let later = self.queue.len() - self.moved;
        let end = self.moved + more.min(later);
        self.tried.extend_from_slice(&self.queue[self.moved..end])?;
        self.moved = end;
        self.drop_moved();
        Ok(())
    }

    /// Drops the queue, where all of it was moved.
    fn drop_moved(&mut self)
        ensures { self.new ≡ self.old }
    {
        if self.moved == self.queue.len() {
            self.queue.clear();
            self.moved = 0;
        }
    }

    /// Lets all be tried next. The only error is `OutOfMemory`.
    pub fn widen_to_all(&mut self) -> Result<()>
        ensures all { OnOk result (self.new
            ≡ record { tried = self.old.tried ++ self.old.later; later = [] }) }
        ensures err { IfErr result (λ e. e ≡ OutOfMemory) }
    {
        self.tried.extend_from_slice(&self.queue[self.moved..])?;
        self.queue.clear();
        self.moved = 0;
        Ok(())
    }

    /// Drops those that were tried, of which these are left.
    pub fn leave(&mut self, left: Vec<u8>)
        ensures { self.new ≡ record self.old { tried = left.items } }
    {
        self.tried = left;
    }

    /// Puts these in place of all, to be tried later.
    pub fn put_back(&mut self, left: Vec<u8>)
        ensures { self.new ≡ record { tried = []; later = left.items } }
    {
        self.tried.clear();
        self.queue = left;
        self.moved = 0;
    }
}
