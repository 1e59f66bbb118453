// Blocks as a list that anybody with the key can write.
use block_id::BlockId;
use std::alloc::Global;
use std::test::Fail;

/// The id of no block, which the root's header has in place of a parent.
pub const NONE: BlockId = BlockId([0; 16]);

/// Blocks with payloads of one length.
#[derive(Drop)]
pub struct Disk {
    pub payload: usize,
    pub root: BlockId,
    /// Each id, and the payload that it opens to, in the order in which they were made.
    pub blocks: Vec<(BlockId, Vec<u8>)>,
    /// How many ids were ever drawn.
    drawn: u64,
    /// The ids that a story gave a letter.
    letters: Vec<(u8, BlockId)>,
}

/// The id that is drawn as the n-th: the order of ids is another than that of drawing.
fn id_of(n: u64) -> BlockId {
    BlockId(
        u128::from(n)
            .wrapping_mul(0x9e37_79b9_7f4a_7c15_f39c_c060_5ced_c835)
            .to_be_bytes(),
    )
}

impl Disk {
    /// No blocks, and the id that the root is to have.
    pub fn new(alloc: Global) -> Disk {
        Disk {
            payload: 0,
            root: id_of(1),
            blocks: Vec::new(alloc),
            drawn: 1,
            letters: Vec::new(alloc),
        }
    }

    /// The id of a new block, which has no payload yet.
    pub fn draw(&mut self) -> BlockId {
        self.drawn = self.drawn.saturating_add(1);
        id_of(self.drawn)
    }

    /// The id that a story calls so: `/` is the root, `-` is no block, and a letter is drawn where it is met first.
    pub fn named(&mut self, name: &str) -> Result<BlockId, Fail> {
        let letter = match name.as_bytes() {
            [letter] => *letter,
            _ => return Err(Fail::from("a block has one letter")),
        };
        if letter == b'/' {
            return Ok(self.root);
        }
        if letter == b'-' {
            return Ok(NONE);
        }
        for (known, id) in &self.letters {
            if *known == letter {
                return Ok(*id);
            }
        }
        let id = self.draw();
        self.letters.push((letter, id))?;
        Ok(id)
    }

    /// Gives a new id this payload.
    pub fn put(&mut self, id: BlockId, text: Vec<u8>) -> Result<(), Fail> {
        self.blocks.push((id, text))?;
        Ok(())
    }

    /// The payload of a block.
    pub fn text(&self, id: &BlockId) -> Option<&[u8]> {
        for (known, text) in &self.blocks {
            if *known == *id {
                return Some(text);
            }
        }
        None
    }
}
