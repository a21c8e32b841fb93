// Absent data shards by the present ones.
ghost use Rattle.std.specs.Prelude.{
  ◌≡◌,
  ◌≢◌,
  ℕ,
  ◌+◌,
  ◌*◌,
  ◌<◌,
  ◌≤◌,
  ◌⊎◌,
  ◌↔◌,
  IsErr,
  OnOk,
  OnErr,
  length,
  slice_index,
  All,
  bit_xor,
  min,
};
ghost use Rattle.gs_gf256.specs.Field.{product, field_sum};
ghost use Rattle.gs_rs.specs.Limits.{most_shards_of_code};
ghost use Rattle.gs_rs.specs.Shape.{IsCode, shard_count};
ghost use Rattle.gs_rs.specs.Restore.{
  IsPresent,
  count_present,
  AreLowestPresent,
  RestoresAbsent,
  RestoresEachBlock,
  RestoresSomeBlock,
  KeepsOthers,
};
ghost use Rattle.gs_rs.specs.Laws.{AreEnough};
ghost use Rattle.gs_rs.specs.GroupRows.{RowsMade, row_value};
ghost use Rattle.gs_rs.specs.AbsentRows.{
  weight_factor,
  AreAllAbsent,
  AreOthers,
  AreRestored,
};

use crate::code::Code;
use crate::group::{FEW_SHARDS, GROUP_LEN};
use crate::limits::MAX_SHARDS;
use crate::shape::CodeShape;
use gs_gf256::{BLOCK_LEN, mul_add, sum_four, sum_two, write_block};
use thiserror::Error;

/// Fewer shards are present than the code has data shards.
#[derive(Clone, Copy, Debug, PartialEq, Eq, Error)]
#[error("fewer shards are present than the code has data shards")]
pub struct TooFew;

impl Code {
    /// Writes each absent data shard of a block. `shards` are its shards, each of `len` bytes, the data
    /// shards first, and `present` says which of them hold their bytes: what the others hold is not read.
    pub fn restore(&self, len: usize, shards: &mut [u8], present: &[bool]) -> Result<(), TooFew>
        requires shards_size { length shards.old ≡ shard_count self.now * len }
        requires present_size { length present.now ≡ shard_count self.now }
        ensures too_few { IsErr result ↔ (count_present present.now < self.now.data) }
        ensures each_block { OnOk result (RestoresEachBlock self.now len present.now shards.old shards.new) }
        ensures some_block { OnOk result (RestoresSomeBlock self.now len present.now shards.old shards.new) }
        ensures others { OnOk result (KeepsOthers self.now len present.now shards.old shards.new) }
        ensures unchanged { OnErr result (shards.new ≡ shards.old) }
    {
        let shape = self.shape();
        let (count, numbers) = lowest_present(present, shape.data);
        if count < shape.data {
            return Err(TooFew);
        }
        if !present[..shape.data].contains(&false) {
            return Ok(());
        }
        shape.restore_absent(len, shards, present, &numbers[..count]);
        Ok(())
    }
}

/// How many shards are present, up to a limit, and the numbers of these, lowest first.
fn lowest_present(present: &[bool], limit: usize) -> (usize, [u8; MAX_SHARDS])
    requires { length present.now ≤ most_shards_of_code }
    ensures count { result.0 ≡ min limit (count_present present.now) }
    ensures room { result.0 ≤ length result.1 }
    ensures numbers { AreLowestPresent present.now result.0 result.1 }
{
    let mut numbers = [0; MAX_SHARDS];
    let mut count = 0;
    for (shard, here) in present.iter().enumerate() {
        if *here && count < limit {
            numbers[count] = shard as u8;
            count += 1;
        }
    }
    (count, numbers)
}

/// How many of the data shards are absent, and their numbers, lowest first.
fn absent_data(present: &[bool], limit: usize) -> (usize, [u8; MAX_SHARDS])
    requires few { length present.now ≤ most_shards_of_code }
    requires limit { limit ≤ length present.now }
    ensures room { result.0 ≤ length result.1 }
    ensures numbers { AreAllAbsent present.now limit result.0 result.1 }
{
    let mut numbers = [0; MAX_SHARDS];
    let mut count = 0;
    for shard in 0..limit {
        if !present[shard] {
            numbers[count] = shard as u8;
            count += 1;
        }
    }
    (count, numbers)
}

impl CodeShape {
    /// Writes each absent data shard as a weighted sum of the chosen shards: groups of them, and the last
    /// one, or short ones, alone.
    fn restore_absent(&self, len: usize, shards: &mut [u8], present: &[bool], chosen: &[u8])
        requires code { IsCode self.now }
        requires shards_size { length shards.old ≡ shard_count self.now * len }
        requires present_size { length present.now ≡ shard_count self.now }
        requires enough { AreEnough self.now chosen.now }
        requires chosen_present { All (λ number. IsPresent present.now number) chosen.now }
        ensures restored { RestoresAbsent self.now len present.now chosen.now shards.old shards.new }
        ensures others { KeepsOthers self.now len present.now shards.old shards.new }
    {
        let factors = self.factors(chosen);
        let (count, absent) = absent_data(present, self.data);
        let absent = &absent[..count];
        let made = self.restore_groups(len, shards, chosen, &factors, absent);
        for row in made..count {
            let to = usize::from(absent[row]);
            add_weighted(len, shards, to, chosen, &self.weights(chosen, &factors, to));
        }
    }

    /// Writes groups of absent shards from the first on, and answers how many shards.
    fn restore_groups(
        &self,
        len: usize,
        shards: &mut [u8],
        chosen: &[u8],
        factors: &[u8],
        absent: &[u8],
    ) -> usize
        requires code { IsCode self.now }
        requires shards_size { length shards.old ≡ shard_count self.now * len }
        requires enough { AreEnough self.now chosen.now }
        requires factors_size { self.now.data ≤ length factors.now }
        requires factors { (i : ℕ) → i < self.now.data
            → slice_index factors.now i ≡ weight_factor self.now chosen.now i }
        requires absent { All (λ number. number < self.now.data) absent.now }
        requires others { AreOthers chosen.now absent.now }
        ensures within { result ≤ length absent.now }
        ensures made { AreRestored self.now len chosen.now absent.now result shards.old shards.new }
    {
        if len < BLOCK_LEN {
            return 0;
        }
        if self.data <= FEW_SHARDS {
            let tables = &mut [0; FEW_SHARDS * GROUP_LEN];
            self.restore_groups_by(len, shards, chosen, factors, absent, tables)
        } else {
            let tables = &mut [0; MAX_SHARDS * GROUP_LEN];
            self.restore_groups_by(len, shards, chosen, factors, absent, tables)
        }
    }

    /// The same, with room for the tables of a group.
    fn restore_groups_by(
        &self,
        len: usize,
        shards: &mut [u8],
        chosen: &[u8],
        factors: &[u8],
        absent: &[u8],
        tables: &mut [u8],
    ) -> usize
        requires code { IsCode self.now }
        requires shards_size { length shards.old ≡ shard_count self.now * len }
        requires block { BLOCK_LEN ≤ len }
        requires enough { AreEnough self.now chosen.now }
        requires factors_size { self.now.data ≤ length factors.now }
        requires factors { (i : ℕ) → i < self.now.data
            → slice_index factors.now i ≡ weight_factor self.now chosen.now i }
        requires absent { All (λ number. number < self.now.data) absent.now }
        requires others { AreOthers chosen.now absent.now }
        requires tables_size { self.now.data * GROUP_LEN ≤ length tables.old }
        ensures within { result ≤ length absent.now }
        ensures made { AreRestored self.now len chosen.now absent.now result shards.old shards.new }
    {
        let mut row = 0;
        while absent.len() - row >= 4 {
            let targets = &absent[row..row + 4];
            self.weight_tables(tables, chosen, factors, targets);
            restore_four(len, shards, chosen, targets, tables);
            row += 4;
        }
        if absent.len() - row >= 2 {
            let targets = &absent[row..row + 2];
            self.weight_tables(tables, chosen, factors, targets);
            restore_two(len, shards, chosen, targets, tables);
            row += 2;
        }
        row
    }
}

/// Writes two absent shards, block by block. The last block ends with the shards.
fn restore_two(len: usize, shards: &mut [u8], chosen: &[u8], targets: &[u8], tables: &[u8])
    requires block { BLOCK_LEN ≤ len }
    requires two { length targets.now ≡ 2 }
    requires chosen_in { All (λ number. number * len + len ≤ length shards.old) chosen.now }
    requires targets_in { All (λ number. number * len + len ≤ length shards.old) targets.now }
    requires others { AreOthers chosen.now targets.now }
    requires tables_size { length chosen.now * 64 ≤ length tables.now }
    ensures { RowsMade 2 len (λ r. slice_index targets.now r * len)
        (row_value shards.old len chosen.now tables.now 2) 0 0 len shards.old shards.new }
{
    for block in 0..len.div_ceil(BLOCK_LEN) {
        let at = usize::min(block * BLOCK_LEN, len - BLOCK_LEN);
        let (first, second) = sum_two(shards, len, chosen, at, tables);
        write_block(shards, usize::from(targets[0]) * len + at, first);
        write_block(shards, usize::from(targets[1]) * len + at, second);
    }
}

/// Writes four absent shards, block by block. The last block ends with the shards.
fn restore_four(len: usize, shards: &mut [u8], chosen: &[u8], targets: &[u8], tables: &[u8])
    requires block { BLOCK_LEN ≤ len }
    requires four { length targets.now ≡ 4 }
    requires chosen_in { All (λ number. number * len + len ≤ length shards.old) chosen.now }
    requires targets_in { All (λ number. number * len + len ≤ length shards.old) targets.now }
    requires others { AreOthers chosen.now targets.now }
    requires tables_size { length chosen.now * 128 ≤ length tables.now }
    ensures { RowsMade 4 len (λ r. slice_index targets.now r * len)
        (row_value shards.old len chosen.now tables.now 4) 0 0 len shards.old shards.new }
{
    for block in 0..len.div_ceil(BLOCK_LEN) {
        let at = usize::min(block * BLOCK_LEN, len - BLOCK_LEN);
        let (first, second, third, fourth) = sum_four(shards, len, chosen, at, tables);
        write_block(shards, usize::from(targets[0]) * len + at, first);
        write_block(shards, usize::from(targets[1]) * len + at, second);
        write_block(shards, usize::from(targets[2]) * len + at, third);
        write_block(shards, usize::from(targets[3]) * len + at, fourth);
    }
}

/// Writes to shard `to` the sum of the chosen shards, each times its weight.
fn add_weighted(len: usize, shards: &mut [u8], to: usize, chosen: &[u8], weights: &[u8])
    requires to_in { to * len + len ≤ length shards.old }
    requires chosen_in { All (λ number. number * len + len ≤ length shards.old) chosen.now }
    requires chosen_apart { All (λ number. number ≢ to) chosen.now }
    requires weights_size { length chosen.now ≤ length weights.now }
    ensures written { (k : ℕ) → k < len
        → slice_index shards.new (to * len + k)
        ≡ field_sum
        (λ i. product (slice_index weights.now i)
        (slice_index shards.old (slice_index chosen.now i * len + k)))
        (length chosen.now) }
    ensures others { (number k : ℕ) → number ≢ to → k < len
        → slice_index shards.new (number * len + k) ≡ slice_index shards.old (number * len + k) }
{
    shards[to * len..to * len + len].fill(0);
    for (i, number) in chosen.iter().enumerate() {
        add_shard(len, shards, usize::from(*number), to, weights[i]);
    }
}

/// Adds to shard `to` the shard `from` times `weight`.
fn add_shard(len: usize, shards: &mut [u8], from: usize, to: usize, weight: u8)
    requires from_in { from * len + len ≤ length shards.old }
    requires to_in { to * len + len ≤ length shards.old }
    requires apart { from ≢ to }
    ensures written { (k : ℕ) → k < len
        → slice_index shards.new (to * len + k)
        ≡ bit_xor (slice_index shards.old (to * len + k))
        (product weight (slice_index shards.old (from * len + k))) }
    ensures others { (number k : ℕ) → number ≢ to → k < len
        → slice_index shards.new (number * len + k) ≡ slice_index shards.old (number * len + k) }
{
    if from < to {
        let (front, back) = shards.split_at_mut(to * len);
        mul_add(
            &mut back[..len],
            &front[from * len..from * len + len],
            weight,
        );
    } else {
        let (front, back) = shards.split_at_mut(from * len);
        mul_add(&mut front[to * len..to * len + len], &back[..len], weight);
    }
}
