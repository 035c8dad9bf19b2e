// One store of the testbench: its state and the memory for it, of which a part is lent: lend.
//
// It promises that each call ends and stays inside the areas, whatever the line, the state and the memory are. It uses
// text, bench_state, bench_areas, and memory_arena and store_state for the state.
#![tactic(auto)]

use bench_areas::Lent;
use store_state::State;
use text::fault::Fault;
use text::words;

// A store, and how much of each of its areas is lent.
#[derive(Drop)]
pub struct Store<const W: usize, const K: usize, const L: usize> {
    pub state: State,
    pub table: [u32; W],
    pub keys: [u8; K],
    pub lists: [u8; L],
    pub words: usize,
    pub key_bytes: usize,
    pub list_bytes: usize,
}

impl<const W: usize, const K: usize, const L: usize> Store<W, K, L> {
    // The store as its commands have it.
    pub fn lent(&mut self) -> Lent<'_> {
        let words = self.words.min(W);
        let key_bytes = self.key_bytes.min(K);
        let list_bytes = self.list_bytes.min(L);
        Lent {
            state: &mut self.state,
            table: &mut self.table[..words],
            keys: &mut self.keys[..key_bytes],
            lists: &mut self.lists[..list_bytes],
        }
    }

    // `lend WORDS KEYBYTES LISTBYTES HH`: the first parts of the memory, filled with a byte. The state is of zeros then.
    pub fn lend(&mut self, line: &[u8]) -> Result<(), Fault> {
        let [words, key_bytes, list_bytes] = words::numbers_at::<3>(line)?;
        let filler = words::byte_at(line, 4)?;
        if (W as u64) < words || (K as u64) < key_bytes || (L as u64) < list_bytes {
            return Err(Fault::NoMemory {
                words: W,
                key_bytes: K,
                list_bytes: L,
            });
        }
        self.state = bench_state::zeros();
        self.words = words as usize;
        self.key_bytes = key_bytes as usize;
        self.list_bytes = list_bytes as usize;
        let lent = self.lent();
        lent.table.fill(u32::from_le_bytes([filler; 4]));
        lent.keys.fill(filler);
        lent.lists.fill(filler);
        Ok(())
    }
}
