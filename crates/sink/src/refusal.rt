ghost use Rattle.std.specs.Prelude.{◌≡◌};
ghost use Rattle.sink.specs.Refusals.{item, number};

// Why a put is refused, with the item handed back. An enum of one case, since each refusal of the list is a case of one; a
// step's is alike, but neither crate stands on the other, and a common crate for one case each is no plainer.
#[derive(Debug, Drop, PartialEq, Eq)]
pub enum PutRefusal<T> {
    Full(T),
}

impl<T> PutRefusal<T> {
    // Its number in the list of refusals, by which refusals are known. No trait has it, since nothing takes refusals of more
    // than one kind.
    pub fn number(&self) -> u8
        ensures { result ≡ number self.now }
    {
        match self {
            PutRefusal::Full(_) => 5,
        }
    }

    // The item that found no place.
    pub fn into_item(self) -> T
        ensures { result ≡ item self }
    {
        let PutRefusal::Full(item) = self;
        item
    }
}
