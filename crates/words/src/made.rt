// Words put together from parts.
ghost use Rattle.std.specs.Prelude.{◌≡◌, ℕ, Bool, false, ◌+◌, ◌*◌, ◌^◌, ◌≤◌, ◌<◌, get_or};
ghost use Rattle.words.specs.Word.{bit_of, fields as word_fields, pack as word_pack};

// The word of n fields of `width` bits, the first lowest: field i is part(i).
pub fn from_fields<F: Fn(usize) -> u16>(n: usize, width: usize, part: F) -> u16
    requires room { (0 < width) × (n * width ≤ 16) }
    requires callable { (i : ℕ) → i < n → F.pre part i }
    requires small { (i v : ℕ) → i < n → F.post part i v → v < 2 ^ width }
    ensures { (f : ℕ → ℕ) → ((i v : ℕ) → i < n → F.post part i v → v ≡ f i) → result ≡ word_fields width n f }
{
    let mut w: u16 = 0;
    for i in 0..n {
        w |= part(i) << (width * i);
    }
    w
}

// The word of n tests, the first in bit 0.
#[tactic(auto, unfolding(crate::specs::Word::pack))]
pub fn from_bits<F: Fn(usize) -> bool>(n: usize, test: F) -> u16
    requires room { n ≤ 16 }
    requires callable { (i : ℕ) → i < n → F.pre test i }
    ensures { (f : ℕ → Bool) → ((i : ℕ) (b : Bool) → i < n → F.post test i b → b ≡ f i) → result ≡ word_pack n f }
{
    from_fields(
        n,
        1,
        |i: usize| -> u16
            requires { F.pre test i }
            ensures { (b : Bool) × F.post test i b × (result ≡ bit_of b) }
        { u16::from(test(i)) },
    )
}

// Word k of a block of flags, one of each element: those of elements 16 k on, the lowest in bit 0; past the last element 0.
pub fn flags_word<T: Copy, F: Fn(T) -> bool>(xs: &[T], k: u16, flag: F) -> u16
    requires { F.IsAlwaysCallable flag }
    ensures { (f : T → Bool) (d : T) → ((x : T) (b : Bool) → F.post flag x b → b ≡ f x) → f d ≡ false → result ≡ word_pack 16 (λ b. f (get_or xs.now (16 * k + b) d)) }
{
    from_bits(16, |b| {
        let n = 16 * usize::from(k) + b;
        n < xs.len() && flag(xs[n])
    })
}
