// Pages on standard output.
use pages::Page;

// A page on standard output. That it failed is not told: what the program printed is compared with what is expected, which tells.
pub fn write(rt: &impl Print, page: Page) {
    let _ = rt.write_all(page.as_bytes());
}
