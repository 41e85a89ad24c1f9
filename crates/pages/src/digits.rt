// Numbers in digits.
ghost use Rattle.std.specs.Prelude.{◌≡◌, ◌++◌};
ghost use Rattle.pages.specs.Page.{written, cut};
ghost use Rattle.pages.specs.Text.{decimal as printed_decimal, hexadecimal as printed_hexadecimal};

use crate::page::Page;

impl Page {
    // n in decimal.
    #[tactic(auto, using(crate::proofs::Places::decimal_text))]
    pub fn put_decimal(self, n: u64) -> Page
        ensures { written result ≡ cut (written self ++ printed_decimal n) }
    {
        self.put_text(itoa::Buffer::new().format(n).as_bytes())
    }

    // The last `places` hexadecimal digits of n. By hand: what `{:x}` writes is promised only where `write!` succeeds, and nothing promises that on a page.
    #[tactic(auto, using(crate::proofs::Places::no_digits, crate::proofs::Places::one_more_digit))]
    pub fn put_hexadecimal(self, places: usize, n: u64) -> Page
        ensures { written result ≡ cut (written self ++ printed_hexadecimal places n) }
    {
        if places == 0 {
            return self;
        }
        let last = char::from_digit((n % 16) as u32, 16).unwrap() as u8;
        self.put_hexadecimal(places - 1, n / 16).put(last)
    }
}
