// A page of text, handed on by value from one text put on it to the next.

// The bytes that a page holds.
const PAGE_BYTES: usize = 256;

// A page's bytes, of which the first `length` are written.
#[derive(Clone, Copy)]
pub struct Page {
    pub bytes: [u8; PAGE_BYTES],
    pub length: usize,
}

impl Page {
    ghost use Rattle.std.specs.Prelude.{◌≡◌, [], ◌∷◌, ◌++◌, ◌≤◌, length};
    ghost use Rattle.pages.specs.Page.{written, cut, page_bytes};

    // An empty page.
    #[tactic(auto, unfolding(crate::specs::Page::written))]
    pub fn new() -> Page
        ensures { written result ≡ [] }
    {
        Page {
            bytes: [0; PAGE_BYTES],
            length: 0,
        }
    }

    // One more byte; a full page stays full.
    #[tactic(auto, using(crate::proofs::Pages::put_within, crate::proofs::Pages::put_full))]
    pub fn put(mut self, b: u8) -> Page
        ensures text { written result ≡ cut (written self ++ (b ∷ [])) }
        ensures fits { result.length ≤ length result.bytes }
    {
        let at = self.length;
        if at < PAGE_BYTES {
            self.bytes[at] = b;
            self.length = at + 1;
            return self;
        }
        self.length = PAGE_BYTES;
        self
    }

    // A text put behind what is written: of any bytes, where a `&str` would ask more of callers.
    #[tactic(auto, using(crate::proofs::Pages::put_part))]
    pub fn put_text(mut self, text: &[u8]) -> Page
        ensures { written result ≡ cut (written self ++ text.now) }
    {
        let at = self.length.min(PAGE_BYTES);
        let more = (PAGE_BYTES - at).min(text.len());
        self.bytes[at..at + more].copy_from_slice(&text[..more]);
        self.length = at + more;
        self
    }

    // What is written.
    #[tactic(auto, unfolding(crate::specs::Page::written))]
    pub fn as_bytes(&self) -> &[u8]
        ensures text { result.now ≡ written self.now }
        ensures fits { length result.now ≤ page_bytes }
    {
        &self.bytes[..self.length.min(PAGE_BYTES)]
    }
}
