ghost use Rattle.std.specs.Prelude.{◌≡◌};
ghost use Rattle.fallible.specs.Offers.{Offered};

use sink::refusal::PutRefusal;
use sink::sink::Sink;

// Puts a good item, and passes a fault on: the fault goes by `?`, past what the sink answers.
pub fn offer<T, E, X: Sink<Item = T>>(
    sink: &mut X,
    item: Result<T, E>,
) -> Result<Result<(), PutRefusal<T>>, E>
    ensures offered { Offered X.Sink sink.old item result sink.new }
    ensures origin { X.Sink.origin sink.new ≡ X.Sink.origin sink.old }
{
    Ok(sink.put(item?))
}
