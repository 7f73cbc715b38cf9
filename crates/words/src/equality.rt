// Whether two texts are the same. Texts of different lengths are told apart before a byte is read.
ghost use Rattle.std.specs.Prelude.{◌≡◌};
ghost use Rattle.words.specs.Equality.{equalb};

// By the library's test, which is faster than a loop over the bytes (docs/PERFORMANCE.md). It stays a function so that
// its equation is in the definitions' words (`equalb`) at each of its calls.
pub fn equal(a: &[u8], b: &[u8]) -> bool
    ensures { result ≡ equalb a.now b.now }
{
    a == b
}
