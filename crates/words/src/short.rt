// Short texts, held in place.
ghost use Rattle.std.specs.Prelude.{◌≡◌};
ghost use Rattle.words.specs.Shorts.{short_of, short_text};

// The first N bytes of a text, and of those at most 255, with zeros behind them.
// An array with its length, since it is copied and takes no heap.
#[derive(Clone, Copy, PartialEq, Eq, Debug)]
pub struct Short<const N: usize> {
    bytes: [u8; N],
    len: u8,
}

impl<const N: usize> Short<N> {
    pub fn new(text: &[u8]) -> Self
        ensures { result ≡ short_of N text.now }
    {
        let len = text.len().min(N.min(255));
        let mut bytes = [0; N];
        bytes[..len].copy_from_slice(&text[..len]);
        Short {
            bytes,
            len: len as u8,
        }
    }

    // The bytes that were stored.
    pub fn as_bytes(&self) -> &[u8]
        ensures { result.now ≡ short_text self.now }
    {
        &self.bytes[..usize::from(self.len).min(N)]
    }
}
