// The relocation table: records in the order of their offsets, and the policy that goes by it.
ghost use Rattle.std.specs.Prelude.{◌≡◌, ◌<◌, ◌≤◌, List, option_map, IfOk, IsOk, IsPermutation, length, vec_items};
ghost use Rattle.std.specs.List.Sorted.{IsNonDecreasingBy, IsPartitionPoint};
ghost use Rattle.readers.specs.Links.{outcome_is};
ghost use Rattle.relocate.specs.Relocating.{uniform_policy, by_table, record_at};

use crate::record::{Record, Relocation};
use crate::relocate::Relocate;
use readers::Error;
use std::alloc::AllocError;
use std::marker::Model;

/// Records in the order of their offsets; a reference to a table is a policy.
#[derive(Drop)]
pub struct RelocationTable<T: Record = Relocation> {
    records: Vec<T>,
}

impl<T: Record> Model for RelocationTable<T> {
    ghost Value = { List T };

    ghost view = { λ t. vec_items t.records };

    ghost invariant = { λ t.
        IsNonDecreasingBy (λ r. (T.relocation r).offset) (vec_items t.records) };
}

impl<T: Record> RelocationTable<T> {
    /// Sorts records in any order; of several with one offset the first counts. Memory is asked for where there are more
    /// than 20, and an `AllocError` tells that there is none.
    pub fn new(mut records: Vec<T>) -> Result<RelocationTable<T>, AllocError>
        ensures found { IfOk result (λ t.
            record_at T.relocation t ≡ record_at T.relocation (vec_items records)) }
        ensures values { IfOk result (λ t.
            by_table T.relocation t ≡ by_table T.relocation (vec_items records)) }
        ensures permutation { IfOk result (IsPermutation (vec_items records)) }
        ensures succeeds { length (vec_items records) ≤ 20 → IsOk result }
    {
        records.sort_by_key(|r| r.relocation().offset)?;
        Ok(RelocationTable { records })
    }

    /// The records, the lowest offset first.
    pub fn records(&self) -> &[T]
        ensures { result.now ≡ self.now }
    {
        &self.records
    }

    // how many records have lower offsets
    #[inline(always)]
    fn count_below(&self, offset: u64) -> usize
        ensures { IsPartitionPoint (λ r. (T.relocation r).offset < offset)
            (λ r. offset ≤ (T.relocation r).offset) self.now result }
    {
        self.records
            .partition_point(|r| r.relocation().offset < offset)
    }

    /// The record that counts at an offset.
    #[inline(always)]
    pub fn record_at(&self, offset: u64) -> Option<&T>
        ensures { option_map (λ r. r.now) result ≡ record_at T.relocation self.now offset }
    {
        let record = self.records.get(self.count_below(offset))?;
        (record.relocation().offset == offset).then_some(record)
    }

    #[inline(always)]
    fn relocate(&self, offset: u64, value: u64) -> Result<u64, Error>
        ensures { outcome_is (λ x. x) result ≡ by_table T.relocation self.now offset value }
    {
        match self.record_at(offset) {
            Some(record) => record.relocation().apply(value),
            None => Ok(value),
        }
    }
}

impl<T: Record> Relocate for &RelocationTable<T> {
    ghost policy = { λ t. uniform_policy (by_table T.relocation t.now) };

    #[inline(always)]
    fn relocate_address(&self, offset: u64, value: u64) -> Result<u64, Error> {
        self.relocate(offset, value)
    }

    #[inline(always)]
    fn relocate_offset(&self, offset: u64, value: u64) -> Result<u64, Error> {
        self.relocate(offset, value)
    }
}
