ghost use Rattle.std.specs.Prelude.{◌≡◌, ◌<◌, false, Some, None, Ok, Err};
ghost use Rattle.combine.specs.ChainPipeline.{chain_answers, chain_pipeline};
ghost use Rattle.combine.specs.ChainRule.{chained};
ghost use Rattle.combine.specs.EnumeratePipeline.{enumerate_answers, enumerate_pipeline};
ghost use Rattle.combine.specs.EnumerateRule.{enumerated};
ghost use Rattle.combine.specs.ZipPipeline.{zip_answers, zip_pipeline};
ghost use Rattle.combine.specs.ZipRule.{zipped};
ghost use Rattle.ext.specs.Alike.{AlikeBy, AlikeByBoth, AlikeByCallback, ChainsAlike, FlatMapsAlike, FlattensAlike};
ghost use Rattle.limit.specs.FusePipeline.{fuse_answers, fuse_pipeline};
ghost use Rattle.limit.specs.FuseRule.{fused};
ghost use Rattle.limit.specs.SkipPipeline.{skip_answers, skip_pipeline};
ghost use Rattle.limit.specs.SkipRule.{skipped};
ghost use Rattle.limit.specs.StepByPipeline.{step_by_answers, step_by_pipeline};
ghost use Rattle.limit.specs.StepByRule.{stepped};
ghost use Rattle.limit.specs.TakePipeline.{take_answers, take_pipeline};
ghost use Rattle.limit.specs.TakeRule.{taken};
ghost use Rattle.limit.specs.declared.refusal.StepRefusal.TheVariants.{ZeroStep};
ghost use Rattle.nest.specs.FlatMapPipeline.{flat_map_answers, flat_map_pipeline};
ghost use Rattle.nest.specs.FlattenPipeline.{flatten_answers, flatten_pipeline};
ghost use Rattle.nest.specs.FlattenRule.{flattened};
ghost use Rattle.nest.specs.ThenPipeline.{SameOutput, then_answers, then_pipeline};
ghost use Rattle.nest.specs.ThenRule.{thened};
ghost use Rattle.select.specs.FilterMapPipeline.{filter_map_answers, filter_map_pipeline};
ghost use Rattle.select.specs.FilterMapRule.{filter_mapped};
ghost use Rattle.select.specs.FilterPipeline.{filter_answers, filter_pipeline};
ghost use Rattle.select.specs.FilterRule.{filtered};
ghost use Rattle.select.specs.SkipWhilePipeline.{skip_while_answers, skip_while_pipeline};
ghost use Rattle.select.specs.SkipWhileRule.{skipped_while};
ghost use Rattle.stream.specs.Answers.{Matching};
ghost use Rattle.stream.specs.Callbacks.{gives, onward};
ghost use Rattle.stream.specs.Views.{insides};
ghost use Rattle.transform.specs.MapPipeline.{map_answers, map_pipeline};
ghost use Rattle.transform.specs.MapRule.{mapped};
ghost use Rattle.transform.specs.MapWhilePipeline.{map_while_answers, map_while_pipeline};
ghost use Rattle.transform.specs.MapWhileRule.{mapped_while};
ghost use Rattle.transform.specs.ScanPipeline.{scan_answers, scan_pipeline};
ghost use Rattle.transform.specs.TakeWhilePipeline.{take_while_answers, take_while_pipeline};
ghost use Rattle.transform.specs.TakeWhileRule.{taken_while};

use combine::chain::Chain;
use combine::enumerate::Enumerate;
use combine::zip::Zip;
use limit::fuse::Fuse;
use limit::refusal::StepRefusal;
use limit::skip::Skip;
use limit::step_by::StepBy;
use limit::take::Take;
use nest::flat_map::FlatMap;
use nest::flatten::Flatten;
use nest::then::Then;
use select::filter::Filter;
use select::filter_map::FilterMap;
use select::skip_while::SkipWhile;
use stream::callback::Callback;
use stream::future::Future;
use stream::stream::Stream;
use transform::map::Map;
use transform::map_while::MapWhile;
use transform::scan::Scan;
use transform::take_while::TakeWhile;

// The adapters as methods, so that a pipeline reads from its source on.
pub trait StreamExt: Stream {
    // Each item becomes the callback's output.
    fn map<F: Callback<Input = Self::Item>>(self, f: F) -> Map<Self, F>
    where
        Self: Sized,
        ensures parts { (result.stream ≡ self) × (result.f ≡ f) }
        ensures list { map_answers Self.Stream F.Callback result
            ≡ mapped F.Callback.output F.Callback.next f (Self.Stream.answers self) }
        ensures alike { AlikeByCallback Self.Stream self F.Callback f F.Callback.outputs.same
            ((map_pipeline Self.Stream F.Callback).alike result) (λ h. mapped gives onward h) }
    {
        Map::new(self, f)
    }

    // Each item becomes the callback's output, or None; the callback holds the state.
    fn scan<F: Callback<Input = Self::Item, Output = Option<T>>, T>(self, f: F) -> Scan<Self, F>
    where
        Self: Sized,
        ensures parts { (result.stream ≡ self) × (result.f ≡ f) }
        ensures list { scan_answers Self.Stream F.Callback result
            ≡ mapped_while F.Callback.output F.Callback.next f (Self.Stream.answers self) }
        ensures alike { AlikeByCallback Self.Stream self F.Callback f
            (Matching (insides F.Callback.outputs).same)
            ((scan_pipeline Self.Stream F.Callback).alike result)
            (λ h. mapped_while gives onward h) }
    {
        Scan::new(self, f)
    }

    // Each item becomes the callback's output, or None.
    fn map_while<P: Callback<Input = Self::Item, Output = Option<T>>, T>(
        self,
        predicate: P,
    ) -> MapWhile<Self, P>
    where
        Self: Sized,
        ensures parts { (result.stream ≡ self) × (result.predicate ≡ predicate) }
        ensures list { map_while_answers Self.Stream P.Callback result
            ≡ mapped_while P.Callback.output P.Callback.next predicate (Self.Stream.answers self) }
        ensures alike { AlikeByCallback Self.Stream self P.Callback predicate
            (Matching (insides P.Callback.outputs).same)
            ((map_while_pipeline Self.Stream P.Callback).alike result)
            (λ h. mapped_while gives onward h) }
    {
        MapWhile::new(self, predicate)
    }

    // Items that the callback turns down become None.
    fn take_while<P: Callback<Input = Self::Item, Output = bool>>(
        self,
        predicate: P,
    ) -> TakeWhile<Self, P>
    where
        Self: Sized,
        ensures parts { (result.stream ≡ self) × (result.predicate ≡ predicate) }
        ensures list { take_while_answers Self.Stream P.Callback result
            ≡ taken_while P.Callback.output P.Callback.next predicate (Self.Stream.answers self) }
        ensures alike { AlikeByCallback Self.Stream self P.Callback predicate (λ b c. b ≡ c)
            ((take_while_pipeline Self.Stream P.Callback).alike result)
            (λ h. taken_while gives onward h) }
    {
        TakeWhile::new(self, predicate)
    }

    // Drops the items on which the callback says no.
    fn filter<P: Callback<Input = Self::Item, Output = bool>>(self, predicate: P) -> Filter<Self, P>
    where
        Self: Sized,
        ensures parts { (result.stream ≡ self) × (result.predicate ≡ predicate) }
        ensures list { filter_answers Self.Stream P.Callback result
            ≡ filtered P.Callback.output P.Callback.next predicate (Self.Stream.answers self) }
        ensures alike { AlikeByCallback Self.Stream self P.Callback predicate (λ b c. b ≡ c)
            ((filter_pipeline Self.Stream P.Callback).alike result)
            (λ h. filtered gives onward h) }
    {
        Filter::new(self, predicate)
    }

    // Each item becomes the callback's output, or is dropped.
    fn filter_map<F: Callback<Input = Self::Item, Output = Option<T>>, T>(
        self,
        f: F,
    ) -> FilterMap<Self, F>
    where
        Self: Sized,
        ensures parts { (result.stream ≡ self) × (result.f ≡ f) }
        ensures list { filter_map_answers Self.Stream F.Callback result
            ≡ filter_mapped F.Callback.output F.Callback.next f (Self.Stream.answers self) }
        ensures alike { AlikeByCallback Self.Stream self F.Callback f
            (Matching (insides F.Callback.outputs).same)
            ((filter_map_pipeline Self.Stream F.Callback).alike result)
            (λ h. filter_mapped gives onward h) }
    {
        FilterMap::new(self, f)
    }

    // Drops the items up to the first on which the callback says no.
    fn skip_while<P: Callback<Input = Self::Item, Output = bool>>(
        self,
        predicate: P,
    ) -> SkipWhile<Self, P>
    where
        Self: Sized,
        ensures parts { (result.stream ≡ self) × (result.predicate ≡ Some predicate) }
        ensures list { skip_while_answers Self.Stream P.Callback result
            ≡ skipped_while P.Callback.output P.Callback.next (Some predicate)
            (Self.Stream.answers self) }
        ensures alike { AlikeByCallback Self.Stream self P.Callback predicate (λ b c. b ≡ c)
            ((skip_while_pipeline Self.Stream P.Callback).alike result)
            (λ h. skipped_while gives onward (Some h)) }
    {
        SkipWhile::new(self, predicate)
    }

    // Ends after the nth item, or at the first None.
    fn take(self, n: u64) -> Take<Self>
    where
        Self: Sized,
        ensures parts { (result.stream ≡ self) × (result.n ≡ n) }
        ensures list { take_answers Self.Stream result ≡ taken n (Self.Stream.answers self) }
        ensures alike { AlikeBy Self.Stream self ((take_pipeline Self.Stream).alike result) (taken n) }
    {
        Take::new(self, n)
    }

    // Drops the first n items.
    fn skip(self, n: u64) -> Skip<Self>
    where
        Self: Sized,
        ensures parts { (result.stream ≡ self) × (result.n ≡ n) }
        ensures list { skip_answers Self.Stream result ≡ skipped n (Self.Stream.answers self) }
        ensures alike { AlikeBy Self.Stream self ((skip_pipeline Self.Stream).alike result) (skipped n) }
    {
        Skip::new(self, n)
    }

    // Ends at the first None.
    fn fuse(self) -> Fuse<Self>
    where
        Self: Sized,
        ensures parts { (result.stream ≡ self) × (result.done ≡ false) }
        ensures list { fuse_answers Self.Stream result ≡ fused (Self.Stream.answers self) }
        ensures alike { AlikeBy Self.Stream self ((fuse_pipeline Self.Stream).alike result) fused }
    {
        Fuse::new(self)
    }

    // Keeps the items 0, step, 2·step and so on. A step of 0 is refused, and the stream comes back as it was.
    fn step_by(self, step: u64) -> Result<StepBy<Self>, StepRefusal<Self>>
    where
        Self: Sized,
        ensures parts { elim result [
          | Ok m ↦ (0 < step) × (m.stream ≡ self) × (m.step ≡ step) × (m.i ≡ 0)
          | Err e ↦ (step ≡ 0) × (e ≡ ZeroStep self)
        ] }
        ensures list { elim result [
          | Ok m ↦ step_by_answers Self.Stream m ≡ stepped step 0 (Self.Stream.answers self)
          | Err e ↦ Unit {0}
        ] }
        ensures alike { elim result [
          | Ok m ↦ AlikeBy Self.Stream self ((step_by_pipeline Self.Stream).alike m) (stepped step 0)
          | Err e ↦ Unit {0}
        ] }
    {
        StepBy::new(self, step)
    }

    // Pairs each item with the number of items before it.
    fn enumerate(self) -> Enumerate<Self>
    where
        Self: Sized,
        ensures parts { (result.stream ≡ self) × (result.i ≡ 0) }
        ensures list { enumerate_answers Self.Stream result ≡ enumerated 0 (Self.Stream.answers self) }
        ensures alike { AlikeBy Self.Stream self ((enumerate_pipeline Self.Stream).alike result) (enumerated 0) }
    {
        Enumerate::new(self)
    }

    // Pairs each item with the next of the other stream.
    fn zip<U: Stream>(self, other: U) -> Zip<Self, U>
    where
        Self: Sized,
        ensures parts { (result.item_slot ≡ None) × (result.first ≡ self) × (result.second ≡ other) }
        ensures list { zip_answers Self.Stream U.Stream result
            ≡ zipped (Self.Stream.answers self) (U.Stream.answers other) }
        ensures alike { AlikeByBoth Self.Stream U.Stream self other
            ((zip_pipeline Self.Stream U.Stream).alike result) zipped }
    {
        Zip::new(self, other)
    }

    // Goes on with the other stream at the first None.
    fn chain<U: Stream<Item = Self::Item>>(self, other: U) -> Chain<Self, U>
    where
        Self: Sized,
        ensures parts { (result.first.stream ≡ self)
            × (result.first.done ≡ false)
            × (result.second.stream ≡ other)
            × (result.second.done ≡ false) }
        ensures list { chain_answers Self.Stream U.Stream result
            ≡ chained (Self.Stream.answers self) (U.Stream.answers other) }
        ensures alike { ChainsAlike Self.Stream U.Stream self other
            ((chain_pipeline Self.Stream U.Stream).alike result) }
    {
        Chain::new(self, other)
    }

    // Each item becomes the waits and then the output of the future that the callback makes of it.
    fn then<F: Callback<Input = Self::Item, Output = Fut>, Fut: Future>(
        self,
        f: F,
    ) -> Then<Self, F, Fut>
    where
        Self: Sized,
        ensures parts { (result.stream ≡ self) × (result.future ≡ None) × (result.f ≡ f) }
        ensures list { then_answers Self.Stream F.Callback Fut.Future result
            ≡ thened F.Callback.output F.Callback.next Fut.Future.waits Fut.Future.output f
            (Self.Stream.answers self) }
        ensures alike { AlikeByCallback Self.Stream self F.Callback f
            (SameOutput Self.Stream F.Callback Fut.Future)
            ((then_pipeline Self.Stream F.Callback Fut.Future).alike result)
            (thened gives onward (λ v. v.0) (λ v. v.1)) }
    {
        Then::new(self, f)
    }

    // Each item becomes the answers, before its first None, of the stream that the callback makes of it.
    fn flat_map<U: Stream, F: Callback<Input = Self::Item, Output = U>>(
        self,
        f: F,
    ) -> FlatMap<Self, U, F>
    where
        Self: Sized,
        ensures parts { (result.stream.stream ≡ self) × (result.stream.f ≡ f) × (result.inner_stream ≡ None) }
        ensures list { flat_map_answers Self.Stream F.Callback U.Stream result
            ≡ flattened U.Stream.answers
            (mapped F.Callback.output F.Callback.next f (Self.Stream.answers self)) }
        ensures alike { FlatMapsAlike Self.Stream self F.Callback f U.Stream
            ((flat_map_pipeline Self.Stream F.Callback U.Stream).alike result) }
    {
        FlatMap::new(self, f)
    }

    // Each item, which is a stream, becomes its answers before its first None.
    fn flatten(self) -> Flatten<Self>
    where
        Self: Sized,
        Self::Item: Stream,
        ensures parts { (result.stream ≡ self) × (result.inner_stream ≡ None) }
        ensures list { flatten_answers Self.Stream Self.Item.Stream result
            ≡ flattened Self.Item.Stream.answers (Self.Stream.answers self) }
        ensures alike { FlattensAlike Self.Stream Self.Item.Stream self
            ((flatten_pipeline Self.Stream Self.Item.Stream).alike result) }
    {
        Flatten::new(self)
    }
}

impl<S: Stream> StreamExt for S {}
