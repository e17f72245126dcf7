ghost use Rattle.stream.specs.Views.{plain};
ghost use Rattle.reading.specs.Words.{reading};

use crate::fault::Fault;
use crate::join::join;
use stream::callback::Callback;

// The callback that takes a numbered pair of words to its reading.
#[derive(Clone, Copy)]
pub struct Readings;

impl Callback for Readings {
    type Input = (u64, (u16, u16));

    type Output = Result<i32, Fault>;

    ghost output = { λ _ p. reading p.0 p.1.0 p.1.1 };

    ghost next = { λ r _. r };

    ghost outputs = { plain };

    fn call(&mut self, input: (u64, (u16, u16))) -> Result<i32, Fault> {
        let (pair, (high, low)) = input;
        join(pair, high, low)
    }
}
