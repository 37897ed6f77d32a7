// The drive's fixed memory for the words of one transfer.
ghost use Rattle.std.specs.Prelude.{◌≡◌, ◌≤◌, [], length, ◌==◌};
ghost use Rattle.service.specs.Words.{pushed, written_length, written_data};

use block::attribute::Attribute;
use block::value::word_at;
use std::marker::Model;

// How many bytes it holds.
const MOST: usize = 1024;

// stays: an array and a count, since a drive has no heap; whoever uses it sees the bytes that are kept
#[derive(Drop)]
pub struct Kept {
    cells: [u8; MOST],
    count: usize,
}

impl Model for Kept {
    ghost use Rattle.std.specs.Prelude.{ℕ, ◌≤◌, List, take};

    ghost Value = { List ℕ };

    ghost view = { λ k. take k.count k.cells };

    ghost invariant = { λ k. k.count ≤ 1024 };
}

impl Kept {
    pub fn new() -> Kept
        ensures { result ≡ [] }
    {
        Kept {
            cells: [0; MOST],
            count: 0,
        }
    }

    pub fn clear(&mut self)
        ensures { self.new ≡ [] }
    {
        self.count = 0;
    }

    // One word more, low byte first, as far as the memory goes.
    pub fn push(&mut self, word: u16)
        ensures value { self.new ≡ pushed self.old word }
        ensures within { length self.new ≤ 1024 }
    {
        let end = self.count + 2;
        if end > MOST {
            return;
        }
        self.cells[self.count..end].copy_from_slice(&word.to_le_bytes());
        self.count = end;
    }

    pub fn bytes(&self) -> &[u8]
        ensures value { result.now ≡ self.now }
        ensures within { length self.now ≤ 1024 }
    {
        &self.cells[..self.count]
    }

    pub fn is_empty(&self) -> bool
        ensures value { result ≡ (length self.now == 0) }
        ensures within { length self.now ≤ 1024 }
    {
        self.count == 0
    }

    // The data in the words of a write: of a list the n bytes after n and m.
    pub fn written(&self, attribute: Attribute, n: u16) -> &[u8]
        ensures value { result.now ≡ written_data attribute.0 n self.now }
        ensures within { length self.now ≤ 1024 }
    {
        let bytes = self.bytes();
        if !attribute.is_list() {
            return bytes;
        }
        let data = bytes.get(4..).unwrap_or(&[]);
        data.get(..usize::from(n)).unwrap_or(data)
    }

    // The length n of a list that is written: its first word, which is the info of step 1.
    pub fn written_length(&self, k: usize, info: u16) -> u16
        ensures value { result ≡ written_length k self.now info }
        ensures within { length self.now ≤ 1024 }
    {
        let bytes = self.bytes();
        if k == 1 { info } else { word_at(bytes, 0) }
    }
}
