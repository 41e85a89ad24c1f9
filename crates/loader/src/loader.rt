// Requests for a reload, the queue in which they wait, and the loader that works them off.
ghost use Rattle.std.specs.Prelude.{◌≡◌, ◌+◌, ◌<◌, slice_index_or};
ghost use Rattle.words.specs.Word.{field_of};
ghost use Rattle.loader.specs.Loader.{is_empty, is_full, pushed, taken, left_of, queue0, request0, request_for, shifted, loader_step, queue_step, group_at, load_into};

use crate::memory::{self, CounterNumber, MEMORY_WORDS};
use counters::{COUNTERS, Counter};
use std::array;
use words::Field;

#[derive(Clone, Copy, Default)]
pub struct Request {
    pub dataset: u16,
    pub group: u16,
}

// A request's fields in the reload register and in an event's code.
const DATASET: Field = Field { at: 0, width: 8 };

const GROUP: Field = Field { at: 8, width: 4 };

// The request that a word names: dataset in bits 7-0, group in bits 11-8.
impl From<u16> for Request {
    ghost from_gives = { λ w r. r ≡ request_for (field_of w 0 8) (field_of w 8 4) };

    fn from(w: u16) -> Request {
        Request {
            dataset: DATASET.of(w),
            group: GROUP.of(w),
        }
    }
}

// The places of the queue.
const QUEUE_PLACES: usize = 16;

// So many waiting requests fill it.
const FULL: u16 = QUEUE_PLACES as u16;

// The first `waiting` places hold requests, the oldest first. Any count makes a queue, one above 16 too, though no list of calls reaches it.
#[derive(Clone, Copy)]
pub struct Queue {
    pub places: [Request; QUEUE_PLACES],
    pub waiting: u16,
}

impl Default for Queue {
    ghost is_default = { λ q. q ≡ queue0 };

    #[tactic(auto, unfolding(lists::specs::Table::tabulate, lists::specs::Table::table_from))]
    fn default() -> Queue {
        Queue {
            places: [Request::default(); QUEUE_PLACES],
            waiting: 0,
        }
    }
}

// A reload at work: the request, and the counter that is handled in the next tick.
#[derive(Clone, Copy)]
pub struct Reload {
    pub request: Request,
    pub next: u16,
}

// The request behind place i, and an empty one behind the last.
fn behind(places: &[Request; QUEUE_PLACES], i: usize) -> Request
    requires { i < 16 }
    ensures { result ≡ slice_index_or places.now (i + 1) request0 }
{
    if i < QUEUE_PLACES - 1 {
        places[i + 1]
    } else {
        Request::default()
    }
}

// Every request one place forward; the last place is empty.
fn shift(places: &[Request; QUEUE_PLACES]) -> [Request; QUEUE_PLACES]
    ensures { result ≡ shifted places.now }
{
    array::from_fn(|i| behind(places, i))
}

impl Queue {
    // Whether no request waits.
    pub fn is_empty(&self) -> bool
        ensures { result ≡ is_empty self.now }
    {
        self.waiting == 0
    }

    // Whether 16 requests wait, or more, which no list of calls reaches.
    #[tactic(auto, using(bools::proofs::Tests::tests))]
    pub fn is_full(&self) -> bool
        ensures { result ≡ is_full self.now }
    {
        FULL <= self.waiting
    }

    // How many wait.
    pub fn waiting(&self) -> u16
        ensures { result ≡ self.now.waiting }
    {
        let Queue { waiting, .. } = *self;
        waiting
    }

    // A request behind those that wait.
    #[tactic(auto, unfolding(crate::specs::Loader::pushed))]
    pub fn push(&mut self, request: Request)
        requires { self.old.waiting < 16 }
        ensures { self.new ≡ pushed self.old request }
    {
        self.places[usize::from(self.waiting)] = request;
        self.waiting += 1;
    }

    // The oldest request leaves the queue, where one waits.
    #[tactic(auto, unfolding(crate::specs::Loader::oldest, crate::specs::Loader::dropped))]
    pub fn take(&mut self) -> Option<Request>
        ensures { (result ≡ taken self.old) × (self.new ≡ left_of self.old) }
    {
        if self.is_empty() {
            return None;
        }
        let oldest = self.places[0];
        self.places = shift(&self.places);
        self.waiting -= 1;
        Some(oldest)
    }
}

// The last counter.
const LAST: u16 = COUNTERS as u16 - 1;

// One tick: an idle loader takes the oldest request, a busy one handles the next counter.
#[tactic(auto, unfolding(crate::specs::Loader::loader_step, crate::specs::Loader::queue_step))]
pub fn step_loader(loader: &mut Option<Reload>, queue: &mut Queue)
    ensures { (loader.new ≡ loader_step loader.old queue.old) × (queue.new ≡ queue_step loader.old queue.old) }
{
    match loader {
        Some(reload) if reload.next < LAST => reload.next += 1,
        Some(_) => *loader = None,
        None => *loader = queue.take().map(|request| Reload { request, next: 0 }),
    }
}

// The group registers, four counters each.
pub const GROUP_WORDS: usize = COUNTERS / 4;

// The group of counter n: four bits of register n / 4.
#[tactic(auto, unfolding(crate::specs::Loader::group_at))]
pub fn group_at(groups: &[u16; GROUP_WORDS], n: usize) -> u16
    ensures { result ≡ group_at groups.now n }
{
    let word = groups.get(n / 4).copied().unwrap_or(0);
    words::nibble(word, n)
}

// The loader's tick on the counters: the one that a busy loader handles takes its four words if it is of the request's group.
#[tactic(auto, unfolding(crate::specs::Loader::load_into, counters::specs::Counter::counter_at))]
pub fn load_into(
    loader: Option<Reload>,
    groups: &[u16; GROUP_WORDS],
    mem: &[u16; MEMORY_WORDS],
    counters: &mut [Counter; COUNTERS],
)
    ensures { counters.new ≡ load_into loader groups.now mem.now counters.old }
{
    let Some(Reload { request, next }) = loader else {
        return;
    };
    let number = usize::from(next);
    if number < COUNTERS && request.group == group_at(groups, number) {
        let dataset = usize::from(request.dataset);
        let n = CounterNumber { number };
        counters[number] = memory::load(mem, dataset, n, counters[number]);
    }
}
