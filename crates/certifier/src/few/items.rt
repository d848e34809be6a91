// The items of a short list.
ghost use Rattle.std.specs.Prelude.{◌≡◌, ◌<◌, [], ◌∷◌, ◌++◌, length, nat_le};
ghost use Rattle.certifier.specs.Entries.{few_of};

use crate::few::Few;

impl<T: Copy, const N: usize> Few<T, N> {
    // An empty list; `fill` stands in the unused places.
    pub(crate) fn new(fill: T) -> Few<T, N>
        ensures { few_of result ≡ [] }
    {
        Few {
            items: [fill; N],
            len: 0,
        }
    }

    pub(crate) fn clear(&mut self)
        ensures { few_of self.new ≡ [] }
    {
        self.len = 0;
    }

    // Whether there are N items.
    pub(crate) fn is_full(&self) -> bool
        ensures { result ≡ nat_le N (length (few_of self.now)) }
    {
        self.len >= N
    }

    pub(crate) fn as_slice(&self) -> &[T]
        ensures { result.now ≡ few_of self.now }
    {
        &self.items[..self.len]
    }

    pub(crate) fn push(&mut self, x: T)
        requires { length (few_of self.old) < N }
        ensures { few_of self.new ≡ few_of self.old ++ (x ∷ []) }
    {
        self.items[self.len] = x;
        self.len += 1;
    }
}
