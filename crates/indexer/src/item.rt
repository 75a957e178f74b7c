// The items of the index, as a class.
ghost use Rattle.std.specs.Prelude.{◌≡◌, OnOk, IfOk};
ghost use Rattle.std.specs.Option.{option_copied};
ghost use Rattle.indexer.specs.Items.{gathered_content, item_after, totals_after};
ghost use Rattle.indexer.specs.Totals.{totals_join};

use crate::document::Document;
use crate::totals::Totals;
use class_laws::{Class, Reducible};
use doc_words::StopSet;
use shard::Shard;
use ss_base::OutOfMemory;
use std::alloc::Global;

/// What the index is made of.
#[derive(Drop)]
pub enum Item {
    Doc(Document),
    Shard(Shard),
    Stop(StopSet),
}

/// What is done to an item. An operation that doesn't fit the item, or the item that it reads,
/// changes nothing and contributes the unit.
#[derive(Clone, Copy, Debug, PartialEq, Eq)]
pub enum ItemOp {
    /// Splits a document into words, reading the stop list. It contributes what the counted words
    /// come to. A document that is split already doesn't fit.
    Split,
    /// Appends a split document, which is read, to each term of a shard that it has. The number
    /// `doc` has to be above those of the shard's documents, and is at least 1.
    Gather { doc: u32 },
}

// Gathers a document into a shard, unless it isn't split.
fn gather(shard: &mut Shard, doc: u32, document: &Document) -> Result<(), OutOfMemory>
    ensures { OnOk result (shard.new ≡ gathered_content shard.old doc document.now) }
{
    let Some(words) = document.words() else {
        return Ok(());
    };
    shard.gather(doc, words)
}

// Applies an operation to an item.
fn apply_op(
    item: &mut Item,
    alloc: Global,
    op: ItemOp,
    reading: Option<&Item>,
    totals: &mut Totals,
) -> Result<(), OutOfMemory>
    ensures value { OnOk result (item.new ≡ item_after item.old op (option_copied reading.entry)) }
    ensures totals { OnOk result (totals.new
        ≡ totals_join totals.old (totals_after item.old op (option_copied reading.entry))) }
{
    match (item, op, reading) {
        (Item::Doc(document), ItemOp::Split, Some(Item::Stop(stop))) => {
            document.split(alloc, stop, totals)
        }
        (Item::Shard(shard), ItemOp::Gather { doc }, Some(Item::Doc(document))) => {
            gather(shard, doc, document)?;
            totals.join(Totals::unit(alloc))
        }
        _ => totals.join(Totals::unit(alloc)),
    }
}

fn copy_item(item: &Item, alloc: Global) -> Result<Item, OutOfMemory>
    ensures { IfOk result (λ copy. copy ≡ item.now) }
{
    Ok(match item {
        Item::Doc(document) => Item::Doc(document.copy()?),
        Item::Shard(shard) => Item::Shard(shard.copy(alloc)?),
        Item::Stop(stop) => Item::Stop(stop.copy(alloc)?),
    })
}

impl Class for Item {
    type Op = ItemOp;

    type Red = Totals;

    ghost use Rattle.std.specs.Prelude.{refl};
    ghost use Rattle.indexer.specs.Items.{item_meaning};

    ghost meaning = { item_meaning };

    ghost same_unit = { refl };

    ghost same_join = { refl };

    fn apply(
        &mut self,
        alloc: Global,
        op: &ItemOp,
        reading: Option<&Item>,
        red: &mut Totals,
    ) -> Result<(), OutOfMemory> {
        apply_op(self, alloc, *op, reading, red)
    }

    fn own_set(_op: &ItemOp) -> u64 {
        0
    }

    fn copy(&self, alloc: Global) -> Result<Item, OutOfMemory> {
        copy_item(self, alloc)
    }
}
