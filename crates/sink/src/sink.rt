ghost use Rattle.std.specs.Prelude.{◌≡◌, ℕ};
ghost use Rattle.sink.specs.Puts.{Answered};

use crate::refusal::PutRefusal;

// A taker of items that has a limited number of places.
pub trait Sink {
    type Item;

    // What it holds is of this kind.
    ghost Held: { Type 0 };

    ghost held: { Self → Held };

    // What one more item makes of what it holds.
    ghost makes: { Held → Self.Item → Held };

    // Its places left.
    ghost left: { Self → ℕ };

    // What no put changes: whose places they are.
    ghost Origin: { Type 0 };

    ghost origin: { Self → Origin };

    // Takes the item and has a place less; or, with no place left, refuses and hands it back, and nothing is changed.
    fn put(&mut self, item: Self::Item) -> Result<(), PutRefusal<Self::Item>>
        ensures put { Answered held makes left self.old item result self.new }
        ensures origin { origin self.new ≡ origin self.old };

    // How many items it can still take.
    fn places(&self) -> u64
        ensures { result ≡ left self.now };
}
