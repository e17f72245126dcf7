use crate::row::RowSink;
use crate::sink::Sink;

// Four ways to take a sink by value: to put into it, to hand it on and get it back, to hold it in an Option, to take it apart.
fn places_after_put<'a>(mut sink: RowSink<'a, u32>) -> u64 {
    let _ = sink.put(7);
    sink.places()
}

fn with_one_more<X: Sink<Item = u32>>(mut sink: X) -> X {
    let _ = sink.put(8);
    sink
}

fn places_after_two<'a>(sink: RowSink<'a, u32>) -> u64 {
    let sink = with_one_more(sink);
    places_after_put(sink)
}

fn places_if_some<'a>(sink: RowSink<'a, u32>) -> u64 {
    let held = Some(sink);
    match held {
        Some(sink) => sink.places(),
        None => 0,
    }
}

fn items_of<'a>(sink: RowSink<'a, u32>) -> usize {
    let (_, items) = sink.into_parts();
    items
}

#[test]
fn taken_by_value(rt: HostRuntime) {
    let mut row = [0u32; 3];
    assert_eq!(rt; places_if_some(RowSink::new(&mut row)), 3);
    assert_eq!(rt; places_after_put(RowSink::new(&mut row)), 2);
    assert_eq!(rt; places_after_two(RowSink::new(&mut row)), 1);
    assert_eq!(rt; items_of(with_one_more(RowSink::new(&mut row))), 1);
    assert_eq!(rt; row, [8, 7, 0]);
}
