// The right to step and to close one granted request.
ghost use Rattle.std.specs.Prelude.{◌≡◌};

// A grant must be closed or broken off: it has no `Drop`, and nothing but a controller makes one.
pub struct Grant<K> {
    pub(crate) request: u8,
    pub(crate) quote: K,
}

impl<K: Copy> Grant<K> {
    pub fn request(&self) -> u8
        ensures { result ≡ self.now.request }
    {
        self.request
    }

    pub fn quote(&self) -> K
        ensures { result ≡ self.now.quote }
    {
        self.quote
    }
}
