// Items chained by a key: for each key the last item added under it, and for each item the one added before it under the same key.
ghost use Rattle.std.specs.Prelude.{◌≡◌, ◌+◌, ◌<◌, length, get_or, replicate, slice_set};
ghost use Rattle.plan.specs.Chains.{item_of};

// In a cell an item is told by one more than its number, and 0 is the end.
#[derive(Clone, Copy)]
pub struct KeyChains<const KEYS: usize, const ITEMS: usize> {
    pub last: [u16; KEYS],
    pub before: [u16; ITEMS],
}

fn item_of(cell: u16) -> Option<usize>
    ensures { result ≡ item_of cell }
{
    usize::from(cell).checked_sub(1)
}

impl<const KEYS: usize, const ITEMS: usize> KeyChains<KEYS, ITEMS> {
    // No item yet.
    pub fn new() -> Self
        ensures { (result.last ≡ replicate KEYS 0) × (result.before ≡ replicate ITEMS 0) }
    {
        KeyChains {
            last: [0; KEYS],
            before: [0; ITEMS],
        }
    }

    // Adds an item under a key.
    pub fn add(&mut self, key: usize, item: usize)
        requires { (key < KEYS) × (item < ITEMS) × (item < 65535) }
        ensures { (self.new.last ≡ slice_set self.old.last key (item + 1))
            × (self.new.before ≡ slice_set self.old.before item (get_or self.old.last key 0)) }
    {
        self.before[item] = self.last[key];
        self.last[key] = (item + 1) as u16;
    }

    // The last item of a key.
    pub fn last(&self, key: usize) -> Option<usize>
        requires { key < KEYS }
        ensures { result ≡ item_of (get_or self.now.last key 0) }
    {
        item_of(self.last[key])
    }

    // The item before another one of the same key.
    pub fn before(&self, item: usize) -> Option<usize>
        requires { item < ITEMS }
        ensures { result ≡ item_of (get_or self.now.before item 0) }
    {
        item_of(self.before[item])
    }
}
