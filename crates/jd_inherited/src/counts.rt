//! Counts of items by their keys and by their variants.

ghost use Rattle.std.specs.Prelude.{◌≡◌, ◌≢◌, ◌↔◌, ℕ, ◌+◌, ◌^◌, ◌<◌, ◌≤◌, length, IfOk, IsTrue, slice_index};
ghost use Rattle.jd_inherited.specs.Places.{HasItem, item_at};
ghost use Rattle.jd_inherited.specs.Tallies.{here, of_key, of_variant};

use crate::items::Item;
use crate::places::Place;
use jd_base::NoMemory;
use std::alloc::Global;

// How many items of each key, and of each variant, are counted.
#[derive(Drop)]
pub(crate) struct Counts {
    pub(crate) keys: Vec<u64>,
    pub(crate) variants: Vec<u64>,
}

impl Counts {
    // No item is counted.
    pub(crate) fn new(alloc: Global, keys: u32, variants: u32) -> Result<Counts, NoMemory>
        ensures keys { IfOk result (λ c. length c.keys.items ≡ keys) }
        ensures variants { IfOk result (λ c. length c.variants.items ≡ variants) }
        ensures no_key { IfOk result (λ c. (k : ℕ) → slice_index c.keys.items k ≡ 0) }
        ensures no_variant { IfOk result (λ c. (v : ℕ) → slice_index c.variants.items v ≡ 0) }
    {
        Ok(Counts {
            keys: vec![in alloc; 0u64; keys as usize]?,
            variants: vec![in alloc; 0u64; variants as usize]?,
        })
    }

    // Counts the item at a place.
    pub(crate) fn add(&mut self, items: &[Item], place: Place)
        requires place { HasItem items.now place }
        requires key { (i : ℕ) → i < length items.now → (item_at items.now i).key < length self.old.keys.items }
        requires variant { (i : ℕ) → i < length items.now → (item_at items.now i).variant < length self.old.variants.items }
        requires key_room { (k : ℕ) → k < length self.old.keys.items → slice_index self.old.keys.items k < 2 ^ 63 }
        requires variant_room { (v : ℕ) → v < length self.old.variants.items → slice_index self.old.variants.items v < 2 ^ 63 }
        ensures key_count { length self.new.keys.items ≡ length self.old.keys.items }
        ensures variant_count { length self.new.variants.items ≡ length self.old.variants.items }
        ensures keys { (k : ℕ) → slice_index self.new.keys.items k ≡ here place (of_key items.now k) + slice_index self.old.keys.items k }
        ensures variants { (v : ℕ) → slice_index self.new.variants.items v ≡ here place (of_variant items.now v) + slice_index self.old.variants.items v }
    {
        if let Place::AtItem(i) = place {
            let item = items[i as usize];
            self.keys[item.key as usize] += 1;
            self.variants[item.variant as usize] += 1;
        }
    }

    // Takes the item at a place out of the counts.
    pub(crate) fn remove(&mut self, items: &[Item], place: Place)
        requires place { HasItem items.now place }
        requires key { (i : ℕ) → i < length items.now → (item_at items.now i).key < length self.old.keys.items }
        requires variant { (i : ℕ) → i < length items.now → (item_at items.now i).variant < length self.old.variants.items }
        requires key_counted { (k : ℕ) → k < length self.old.keys.items → here place (of_key items.now k) ≤ slice_index self.old.keys.items k }
        requires variant_counted { (v : ℕ) → v < length self.old.variants.items → here place (of_variant items.now v) ≤ slice_index self.old.variants.items v }
        ensures key_count { length self.new.keys.items ≡ length self.old.keys.items }
        ensures variant_count { length self.new.variants.items ≡ length self.old.variants.items }
        ensures keys { (k : ℕ) → slice_index self.old.keys.items k ≡ here place (of_key items.now k) + slice_index self.new.keys.items k }
        ensures variants { (v : ℕ) → slice_index self.old.variants.items v ≡ here place (of_variant items.now v) + slice_index self.new.variants.items v }
    {
        if let Place::AtItem(i) = place {
            let item = items[i as usize];
            self.keys[item.key as usize] -= 1;
            self.variants[item.variant as usize] -= 1;
        }
    }

    // Whether the counts of the item's key and of its variant differ.
    pub(crate) fn differ(&self, item: Item) -> bool
        requires key { item.key < length self.now.keys.items }
        requires variant { item.variant < length self.now.variants.items }
        ensures { IsTrue result ↔ slice_index self.now.keys.items item.key ≢ slice_index self.now.variants.items item.variant }
    {
        self.keys[item.key as usize] != self.variants[item.variant as usize]
    }
}
