// Threshold memory: 16,384 lent words, 32 datasets of 512. A part of it is handed on to be read or written.
ghost use Rattle.std.specs.Prelude.{◌≡◌, ◌+◌, ◌*◌, ◌<◌, MatchOption, true, false, length};
ghost use Rattle.lists.specs.Table.{tabulate};
ghost use Rattle.loader.specs.Loader.{is_beyond};
ghost use Rattle.loader.specs.Memory.{place_of, loaded, replaced};

use counters::Counter;
use std::ops::Range;

// The words of a dataset, the datasets, and the words of all.
const DATASET_WORDS: usize = 512;

const DATASETS: usize = 32;

pub const MEMORY_WORDS: usize = DATASETS * DATASET_WORDS;

// A dataset, by its number.
#[derive(Clone, Copy)]
pub struct Dataset {
    number: usize,
    ghost one_of_32: { number < 32 },
}

impl Dataset {
    // The dataset of a number, and none where it is above 31.
    pub fn new(number: usize) -> Option<Dataset>
        ensures { MatchOption result (is_beyond number ≡ true) (λ d. (is_beyond number ≡ false) × (d.number ≡ number)) }
    {
        if DATASETS <= number {
            return None;
        }
        Some(Dataset { number })
    }

    // Where its part of the memory stands.
    fn part(self) -> Range<usize>
        ensures { (result.start ≡ 512 * self.number) × (result.end ≡ 512 * self.number + 512) }
    {
        let base = DATASET_WORDS * self.number;
        base..base + DATASET_WORDS
    }
}

// A counter, by its number among the 128.
#[derive(Clone, Copy)]
pub struct CounterNumber {
    pub number: usize,
    ghost one_of_128: { number < 128 },
}

// A counter with the thresholds of counter n in a dataset's part. Parts are slices: of a memory lent on as arrays (`as_chunks_mut`), which
// `download` would write, std does not say what it ends as.
#[tactic(auto, unfolding(crate::specs::Memory::loaded, crate::specs::Memory::word_at))]
fn load_from(part: &[u16], n: CounterNumber, c: Counter) -> Counter
    requires { length part.now ≡ 512 }
    ensures { result ≡ loaded part.now (4 * n.number) c }
{
    let at = 4 * n.number;
    let positive = numbers::join(part[at], part[at + 1]);
    let negative = numbers::join(part[at + 2], part[at + 3]);
    c.with_thresholds(positive, negative)
}

// A counter with the thresholds of counter n in a dataset; there are 32, and any other reads 0.
pub fn load(mem: &[u16; MEMORY_WORDS], dataset: usize, n: CounterNumber, c: Counter) -> Counter
    ensures { result ≡ loaded mem.now (place_of dataset n.number) c }
{
    let Some(dataset) = Dataset::new(dataset) else {
        return c.with_thresholds(0, 0);
    };
    load_from(&mem[dataset.part()], n, c)
}

// 512 words over one dataset; every other word stays.
#[tactic(auto, unfolding(crate::specs::Memory::replaced))]
pub fn download(mem: &mut [u16; MEMORY_WORDS], dataset: Dataset, words: &[u16; DATASET_WORDS])
    ensures { mem.new ≡ replaced mem.old (512 * dataset.number) words.now }
{
    mem[dataset.part()].copy_from_slice(words);
}

// Every word 0, however many there are.
pub fn clear_memory(mem: &mut [u16])
    ensures { mem.new ≡ tabulate (length mem.old) (λ a. 0) }
{
    mem.fill(0);
}
