//! Pieces.
ghost use Rattle.std.specs.Prelude.{◌≡◌, ◌⊎◌, ◌↔◌, take, IsTrue, IfOk, Err};
ghost use Rattle.std.specs.Arc.{arc_value};
ghost use Rattle.std.specs.Cmp.{partial_equiv_from_equiv};
ghost use Rattle.std.specs.Cmp.Lexicographic.{nat_list_eq_equiv};
ghost use Rattle.std.specs.Str.{bytes_eq};
ghost use Rattle.mama_payload.specs.Reading.{decoded};
ghost use Rattle.mama_packet.specs.Packet.{Spells};

use mama_link::Cuttable;
use mama_memory::{Duplicate, OutOfMemory};
use mama_msg::Msg;
use mama_payload::{DecodeFault, decode};
use std::alloc::Global;
use std::fmt;
use std::marker::Model;
use std::sync::Arc;

/// Bytes of any kind: those of a packet, those of them that a cut left, or what a log tells of such. Copies share them.
#[derive(Drop)]
pub struct Piece {
    bytes: Arc<Vec<u8>>,
    len: usize,
}

impl Model for Piece {
    ghost use Rattle.std.specs.Prelude.{◌≤◌, List, ℕ, length, take};
    ghost use Rattle.std.specs.Arc.{arc_value};

    ghost Value = { List ℕ };

    ghost view = { λ p. take p.len (arc_value p.bytes).items };

    ghost invariant = { λ p. p.len ≤ length (arc_value p.bytes).items };
}

impl Piece {
    /// A piece of these bytes, which are copied. The error is want of memory.
    pub fn of_bytes(alloc: Global, bytes: &[u8]) -> Result<Piece, OutOfMemory>
        ensures { IfOk result (λ piece. piece ≡ bytes.now) }
    {
        let bytes = Vec::from_slice(alloc, bytes)?;
        let block = Arc::new(alloc, bytes)?;
        Ok(Piece::of_block(block))
    }

    /// A piece of all bytes of a block.
    pub(crate) fn of_block(bytes: Arc<Vec<u8>>) -> Piece
        ensures { result ≡ (arc_value bytes).items }
    {
        let len = bytes.len();
        Piece { bytes, len }
    }

    /// The bytes.
    pub fn bytes(&self) -> &[u8]
        ensures { result.now ≡ self.now }
    {
        &self.bytes[..self.len]
    }

    /// The message that the bytes spell, or the first fault from the front, with its place. It takes time in proportion to
    /// the bytes.
    pub fn unpack(&self) -> Result<Msg, DecodeFault>
        ensures found { IfOk result (λ msg. Spells self.now msg) }
        ensures exact { (result ≡ Err DecodeFault.OutOfMemory) ⊎ (result ≡ decoded self.now) }
    {
        decode(*self.bytes.allocator(), self.bytes())
    }

    /// Keeps the first `keep` bytes, or all of them where there are no more. Copies that were made before keep theirs. It
    /// takes no memory.
    pub fn cut(&mut self, keep: u32)
        ensures { self.new ≡ take keep self.old }
    {
        self.len = self.len.min(keep as usize);
    }

    /// An equal piece, which shares the bytes. The error says that no more copies can be counted: it takes no memory.
    pub fn try_clone(&self) -> Result<Piece, OutOfMemory>
        ensures equal { IfOk result (λ copy. copy ≡ self.now) }
    {
        let bytes = Arc::try_clone(&self.bytes)?;
        Ok(Piece {
            bytes,
            len: self.len,
        })
    }
}

// What a cut took is not shown.
impl fmt::Debug for Piece {
    fn fmt<W: fmt::Write>(&self, f: &mut fmt::Formatter<W>) -> fmt::Result {
        let bytes = self.bytes();
        write!(f, "{bytes:?}")
    }
}

impl Cuttable for Piece {
    ghost use Rattle.std.specs.Prelude.{take, ℕ, List};

    ghost cut_to = { λ (keep : ℕ) (bytes : List ℕ). take keep bytes };

    fn cut(&mut self, keep: u32) {
        Piece::cut(self, keep);
    }
}

impl Duplicate for Piece {
    fn try_clone(&self) -> Result<Piece, OutOfMemory> {
        Piece::try_clone(self)
    }
}

impl PartialEq for Piece {
    ghost eq = { bytes_eq };

    ghost laws = { partial_equiv_from_equiv nat_list_eq_equiv };

    fn eq(&self, other: &Piece) -> bool
        ensures value { result ≡ bytes_eq self.now other.now }
        ensures exact { IsTrue result ↔ (self.now ≡ other.now) }
    {
        self.bytes() == other.bytes()
    }
}

impl Eq for Piece {
    ghost laws = { nat_list_eq_equiv };
}
