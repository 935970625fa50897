// A buffer that bytes are collected in, from its start. Each call keeps the loan, from which whoever made the buffer of a slice knows what the slice holds once the loan is over.
#![tactic(auto, unfolding(crate::specs::Bytes::collected_in))]

ghost use Rattle.std.specs.Prelude.{◌≡◌, ◌-◌, take, length};
ghost use Rattle.text.specs.Numbers.{spelled};
ghost use Rattle.text.specs.Bytes.{collected_in, with_put};

use crate::{bytes, number};

// So many of the bytes are collected. Of more than there are, every call tells too.
#[derive(Drop)]
pub struct Buffer<'a> {
    pub bytes: &'a mut [u8],
    pub len: usize,
}

impl<'a> Buffer<'a> {
    // Puts bytes behind those that are there. Where they do not fit nothing changes.
    pub fn put(&mut self, bytes: &[u8])
        ensures written { collected_in self.new ≡ with_put (collected_in self.old) bytes.now }
        ensures same_reference { self.new.bytes.ghost_name ≡ self.old.bytes.ghost_name }
    {
        self.len = bytes::put(self.bytes, self.len, bytes);
    }

    // Puts the digits of a number there. Where they do not fit nothing changes.
    pub fn put_number(&mut self, n: u64)
        ensures written { collected_in self.new ≡ with_put (collected_in self.old) (spelled n) }
        ensures same_reference { self.new.bytes.ghost_name ≡ self.old.bytes.ghost_name }
    {
        self.len = number::write_number(self.bytes, self.len, n);
    }

    // What is collected.
    pub fn collected(&self) -> &[u8]
        ensures { result.now ≡ take self.now.len self.now.bytes.now }
    {
        self.bytes.get(..self.len).unwrap_or(self.bytes)
    }

    // How many bytes still fit.
    pub fn room(&self) -> usize
        ensures { result ≡ length self.now.bytes.now - self.now.len }
    {
        self.bytes.len().saturating_sub(self.len)
    }

    // Collects from the start again.
    pub fn clear(&mut self)
        ensures written { collected_in self.new ≡ record { bytes = self.old.bytes.now; len = 0 } }
        ensures same_reference { self.new.bytes.ghost_name ≡ self.old.bytes.ghost_name }
    {
        self.len = 0;
    }
}
