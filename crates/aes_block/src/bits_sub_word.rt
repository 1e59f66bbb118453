// SubWord of the key expansion, by the circuit (FIPS 197, 5.2).
use crate::SubWord;
use crate::planes::Planes;
use crate::sub_bytes::sub_bytes;

/// By the circuit, with no look-up.
pub(crate) struct ByCircuit;

impl SubWord for ByCircuit {
    fn sub_word(&self, word: [u8; 4]) -> [u8; 4] {
        let [a, b, c, d] = word;
        let block = [a, b, c, d, 0, 0, 0, 0, 0, 0, 0, 0, 0, 0, 0, 0];
        let blocks = sub_bytes(&Planes::repeated(block)).blocks();
        let first = blocks[0];
        [first[0], first[1], first[2], first[3]]
    }
}
