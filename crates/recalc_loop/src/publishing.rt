ghost use Rattle.std.specs.Prelude.{◌≡◌, false, All, map, OnOk};
ghost use Rattle.std.specs.List.{AllZip};
ghost use Rattle.value_snap.specs.Lists.{MayBePublished};
ghost use Rattle.value_snap.specs.Stores.{HasFewLines};
ghost use Rattle.value_snap.specs.declared.published.Published.TheVariants.{Full};
ghost use Rattle.recalc_loop.specs.Publishing.{published, MayHavePublished};

use sheet_value::Batch;
use ss_base::{Memory, Seq};
use std::sync::Wait;
use value_snap::Publisher;

/// Publishes a batch to each store, one after the other. At the first refusal it stops: then each
/// store shows what it showed, or that and the batch.
pub(crate) fn publish_all<R: Wait>(
    rt: &R,
    publishers: &mut [Publisher],
    batch: &Batch,
) -> Result<(), Memory>
    requires unspent { All (λ p. p.spent ≡ false) publishers.old }
    requires follows { All (λ p. MayBePublished p.list (Full batch.now)) publishers.old }
    requires few { HasFewLines batch.now }
    ensures ok { OnOk result (publishers.new ≡ map (published batch.now) publishers.old) }
    ensures each { AllZip (MayHavePublished batch.now) publishers.old publishers.new }
{
    for i in 0..publishers.len() {
        publishers[i].publish(rt, batch)?;
    }
    Ok(())
}

/// Takes the stores of all publishers apart, as soon as no reader is in them. It takes no memory.
pub fn end_all<R: Wait>(rt: &R, publishers: Seq<Publisher>) {
    let mut publishers = publishers.into_vec();
    while let Some(publisher) = publishers.pop() {
        publisher.end(rt);
    }
    publishers.destroy_empty();
}
