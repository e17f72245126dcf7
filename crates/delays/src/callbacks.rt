ghost use Rattle.stream.specs.Views.{plain};
ghost use Rattle.delays.specs.Callbacks.{is_odd, odd_next, slowly, slowly_next, total_next, total_of};

use source::delay_future::DelayFuture;
use stream::callback::Callback;

// Says yes to the odd words.
#[derive(Clone, Copy)]
pub struct Odd;

impl Callback for Odd {
    type Input = u16;

    type Output = bool;

    ghost output = { is_odd };

    ghost next = { odd_next };

    ghost outputs = { plain };

    fn call(&mut self, word: u16) -> bool {
        word % 2 == 1
    }
}

// Adds up the words, each with its number.
#[derive(Clone, Copy)]
pub struct Total {
    pub sum: u64,
}

impl Callback for Total {
    type Input = (u64, u16);

    type Output = u64;

    ghost output = { total_of };

    ghost next = { total_next };

    ghost outputs = { plain };

    fn call(&mut self, pair: (u64, u16)) -> u64 {
        let (number, word) = pair;
        self.sum = self.sum.wrapping_add(number).wrapping_add(u64::from(word));
        self.sum
    }
}

// Makes of a number a future with up to two waits.
#[derive(Clone, Copy)]
pub struct Slowly;

impl Callback for Slowly {
    type Input = u64;

    type Output = DelayFuture<u64>;

    ghost output = { slowly };

    ghost next = { slowly_next };

    ghost outputs = { plain };

    fn call(&mut self, number: u64) -> DelayFuture<u64> {
        DelayFuture::new(number % 3, number)
    }
}
