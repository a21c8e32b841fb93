// The weights that chosen shards have in absent ones, and their tables.
ghost use Rattle.std.specs.Prelude.{
  ◌≡◌,
  ◌≢◌,
  ℕ,
  ◌*◌,
  ◌<◌,
  ◌≤◌,
  length,
  slice_index,
  take,
  map,
  All,
};
ghost use Rattle.gs_gf256.specs.Field.{product};
ghost use Rattle.gs_gf256.specs.Table.{times, table_at};
ghost use Rattle.gs_rs.specs.Shape.{IsCode, shard_count, point};
ghost use Rattle.gs_rs.specs.Laws.{AreEnough};
ghost use Rattle.gs_rs.specs.AbsentRows.{weight_factor, shard_weight};

use crate::group::{GROUP_LEN, MOST_ROWS, write_tables};
use crate::limits::MAX_SHARDS;
use crate::shape::{CodeShape, differences};
use gs_gf256::{inv, mul};

impl CodeShape {
    /// The points of the chosen shards.
    fn points_of(&self, chosen: &[u8]) -> [u8; MAX_SHARDS]
        requires code { IsCode self.now }
        requires enough { AreEnough self.now chosen.now }
        ensures { take self.now.data result ≡ map (point self.now) chosen.now }
    {
        let mut points = [0; MAX_SHARDS];
        for (i, number) in chosen.iter().enumerate() {
            points[i] = self.point(usize::from(*number));
        }
        points
    }

    /// For each chosen shard what its weight has in common at all absent shards.
    pub(crate) fn factors(&self, chosen: &[u8]) -> [u8; MAX_SHARDS]
        requires code { IsCode self.now }
        requires enough { AreEnough self.now chosen.now }
        ensures { (i : ℕ) → i < self.now.data → slice_index result i ≡ weight_factor self.now chosen.now i }
    {
        let points = self.points_of(chosen);
        let points = &points[..self.data];
        let own = self.data_points();
        let own = &own[..self.data];
        let mut factors = [0; MAX_SHARDS];
        for (i, point) in points.iter().enumerate() {
            factors[i] = mul(
                self.denominator(own, *point),
                inv(differences(points, *point)),
            );
        }
        factors
    }

    /// The weights of the chosen shards in an absent one.
    pub(crate) fn weights(&self, chosen: &[u8], factors: &[u8], to: usize) -> [u8; MAX_SHARDS]
        requires code { IsCode self.now }
        requires enough { AreEnough self.now chosen.now }
        requires factors_size { self.now.data ≤ length factors.now }
        requires factors { (i : ℕ) → i < self.now.data
            → slice_index factors.now i ≡ weight_factor self.now chosen.now i }
        requires to_in { to < shard_count self.now }
        requires apart { All (λ number. number ≢ to) chosen.now }
        ensures { (i : ℕ) → i < self.now.data → slice_index result i ≡ shard_weight self.now chosen.now to i }
    {
        let points = self.points_of(chosen);
        let points = &points[..self.data];
        let own = self.data_points();
        let x = self.point(to);
        let common = mul(
            differences(points, x),
            inv(self.denominator(&own[..self.data], x)),
        );
        let mut weights = [0; MAX_SHARDS];
        for (i, point) in points.iter().enumerate() {
            weights[i] = mul(mul(common, factors[i]), inv(x ^ *point));
        }
        weights
    }

    /// Writes the tables of the weights that the chosen shards have in these absent ones.
    pub(crate) fn weight_tables(
        &self,
        tables: &mut [u8],
        chosen: &[u8],
        factors: &[u8],
        targets: &[u8],
    )
        requires code { IsCode self.now }
        requires enough { AreEnough self.now chosen.now }
        requires factors_size { self.now.data ≤ length factors.now }
        requires factors { (i : ℕ) → i < self.now.data
            → slice_index factors.now i ≡ weight_factor self.now chosen.now i }
        requires few_rows { length targets.now ≤ MOST_ROWS }
        requires targets_in { All (λ number. number < shard_count self.now) targets.now }
        requires apart { All (λ target. All (λ number. number ≢ target) chosen.now) targets.now }
        requires room { self.now.data * GROUP_LEN ≤ length tables.old }
        ensures { (r i x : ℕ) → r < length targets.now → i < self.now.data → x < 256
            → times tables.new (table_at (length targets.now) i r) x
            ≡ product (shard_weight self.now chosen.now (slice_index targets.now r) i) x }
    {
        for row in 0..targets.len() {
            let weights = self.weights(chosen, factors, usize::from(targets[row]));
            write_tables(tables, targets.len(), row, &weights, self.data);
        }
    }
}
